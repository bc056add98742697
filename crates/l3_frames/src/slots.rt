//! The bytes of the tape in the slots of the frames that are not given yet.

ghost use Rattle.std.specs.Prelude.{◌≡◌, ◌+◌, ◌*◌, ◌<◌, ◌≤◌, ◌^◌, ◌++◌, [], length, drop, replicate, All};
ghost use Rattle.l3_bits.specs.Bits.{bits_of};
ghost use Rattle.l3_stream.specs.Frames.{IsCoded, code_bits};
ghost use Rattle.l3_frames.specs.Laying.{laid_over};

use crate::codes::write_codes;
use l3_base::Settings;
use l3_stream::ChosenFrame;
use std::marker::Model;

// Bytes that may be there at once: 510, and the slots of the oldest and of the newest frame, each
// of at most 1420.
pub(crate) const SLOTS_LIMIT: usize = 510 + 2 * 1420;

// The bytes of the tape from a slot on.
#[derive(Drop)]
pub(crate) struct Slots {
    bytes: [u8; SLOTS_LIMIT],
    length: usize,
}

impl Model for Slots {
    ghost use Rattle.std.specs.Prelude.{ℕ, ◌≤◌, List, take};

    ghost Value = { List ℕ };

    ghost view = { λ s. take s.length s.bytes };

    ghost invariant = { λ s. s.length ≤ 3350 };
}

fn no_bytes() -> [u8; SLOTS_LIMIT]
    ensures { result ≡ replicate SLOTS_LIMIT 0 }
{
    [0; SLOTS_LIMIT]
}

impl Slots {
    pub(crate) fn new() -> Slots
        ensures { result ≡ [] }
    {
        Slots {
            bytes: no_bytes(),
            length: 0,
        }
    }

    pub(crate) fn bytes(&self) -> &[u8]
        ensures value { result.now ≡ self.now }
        ensures limit { length result.now ≤ SLOTS_LIMIT }
    {
        &self.bytes[..self.length]
    }

    // Appends a slot whose bits are 0.
    pub(crate) fn append(&mut self, count: usize)
        requires { length self.old + count ≤ SLOTS_LIMIT }
        ensures { self.new ≡ self.old ++ replicate count 0 }
    {
        self.bytes[self.length..self.length + count].fill(0);
        self.length += count;
    }

    // Lays the codes of a frame over the bits from bit `at` on.
    pub(crate) fn lay(&mut self, settings: &Settings, frame: &ChosenFrame, at: u64)
        requires coded { IsCoded settings.now frame.now }
        requires within { at + length (code_bits settings.now frame.now) ≤ 8 * length self.old }
        ensures bits { bits_of self.new ≡ laid_over at (code_bits settings.now frame.now) (bits_of self.old) }
        ensures bytes { All (λ byte. byte < 2 ^ 8) self.new }
    {
        write_codes(settings, frame, &mut self.bytes[..self.length], at);
    }

    // Forgets the first bytes.
    pub(crate) fn forget(&mut self, count: usize)
        requires { count ≤ length self.old }
        ensures { self.new ≡ drop count self.old }
    {
        self.bytes.copy_within(count..self.length, 0);
        self.length -= count;
    }
}
