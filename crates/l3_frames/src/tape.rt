//! Where reading stands, with the part of the tape that a later frame may use.

ghost use Rattle.std.specs.Prelude.{◌≡◌, ◌≤◌, ◌<◌, ◌+◌, ◌-◌, ◌*◌, ◌/◌, ◌^◌, drop, length, replicate, take};
ghost use Rattle.l3_base.specs.declared.settings.Settings.{Settings};
ghost use Rattle.l3_stream.specs.Deviation.{first_place};
ghost use Rattle.l3_frames.specs.Steps.{HasRest, KeepsTape, tape_place};

// Bytes of the tape that are kept: at most 511 before a slot, that slot and the next one, each of
// at most 1420.
pub(crate) const KEPT_BYTES: usize = 4096;

// Where reading stands: a frame begins, and the codes before it end at a bit of the tape.
//
// `main_data_begin` is at most 511, so the codes of a frame end no earlier than 511 bytes before
// its slot, and the bytes kept are few.
#[derive(Drop)]
pub(crate) struct Tape {
    // The number of the frame.
    pub(crate) number: u64,
    // The byte of the file at which it begins.
    pub(crate) at: u64,
    // The tape bit behind the codes so far.
    pub(crate) end: u64,
    // The byte of the tape that is the first one kept.
    pub(crate) base: u64,
    // How many bytes are kept: up to the end of the last slot.
    pub(crate) filled: usize,
    pub(crate) bytes: [u8; KEPT_BYTES],
}

// No bytes of the tape.
fn no_bytes() -> [u8; KEPT_BYTES]
    ensures { result ≡ replicate 4096 0 }
{
    [0; KEPT_BYTES]
}

impl Tape {
    // The start of the file.
    pub(crate) fn start() -> Tape
        ensures place { tape_place result ≡ first_place }
        ensures kept { (st : Settings) → KeepsTape st result }
        ensures rest { HasRest result }
    {
        let bytes = no_bytes();
        Tape {
            number: 0,
            at: 0,
            end: 0,
            base: 0,
            filled: 0,
            bytes,
        }
    }

    // Puts a slot behind the bytes kept.
    pub(crate) fn append(&mut self, slot: &[u8])
        requires room { self.old.filled + length slot.now ≤ 4096 }
        requires bytes { length self.old.bytes ≡ 4096 }
        ensures same { self.new ≡ record self.old { bytes = self.new.bytes } }
        ensures front { take self.old.filled self.new.bytes ≡ take self.old.filled self.old.bytes }
        ensures slot { take (length slot.now) (drop self.old.filled self.new.bytes) ≡ slot.now }
        ensures bytes { length self.new.bytes ≡ 4096 }
    {
        self.bytes[self.filled..self.filled + slot.len()].copy_from_slice(slot);
    }

    // Goes on behind a frame whose slot stands behind the bytes kept, and whose codes end at a tape
    // bit.
    pub(crate) fn pass(&mut self, slot_bytes: usize, frame_bytes: usize, end: u64)
        requires number { self.old.number < 2 ^ 32 }
        requires at { self.old.at + frame_bytes < 2 ^ 64 }
        requires room { self.old.filled + slot_bytes ≤ 4096 }
        requires bytes { length self.old.bytes ≡ 4096 }
        requires begun { 8 * self.old.base ≤ end }
        requires within { end ≤ 8 * (self.old.base + (self.old.filled + slot_bytes)) }
        ensures number { self.new.number ≡ self.old.number + 1 }
        ensures at { self.new.at ≡ self.old.at + frame_bytes }
        ensures end { self.new.end ≡ end }
        ensures base { self.new.base ≡ end / 8 }
        ensures filled { self.new.base + self.new.filled ≡ self.old.base +
            (self.old.filled + slot_bytes) }
        ensures kept { take self.new.filled self.new.bytes ≡ drop (end / 8 - self.old.base)
            (take (self.old.filled + slot_bytes) self.old.bytes) }
        ensures bytes { length self.new.bytes ≡ 4096 }
    {
        let whole = self.filled + slot_bytes;
        let base = end / 8;
        let gone = (base - self.base) as usize;
        self.bytes.copy_within(gone..whole, 0);
        self.number += 1;
        self.at += frame_bytes as u64;
        self.end = end;
        self.base = base;
        self.filled = whole - gone;
    }
}
