//! The main data of a frame: where it begins, the zeros before it, and its units (ISO/IEC 11172-3,
//! 2.4, main_data_begin).

ghost use Rattle.std.specs.Prelude.{◌≡◌, ◌≤◌, ◌<◌, ◌+◌, ◌-◌, ◌*◌, ◌^◌, IfSome, IfNone, IfOk, OnOk, length};
ghost use Rattle.std.specs.List.{AllByRecursion};
ghost use Rattle.l3_base.specs.Lengths.{slot_bytes_of};
ghost use Rattle.l3_huff.specs.Words.{between};
ghost use Rattle.l3_stream.specs.Units.{HasFields, lengths};
ghost use Rattle.l3_stream.specs.Frames.{placed, units_number, units_of};
ghost use Rattle.l3_stream.specs.Faults.{clear};
ghost use Rattle.l3_stream.specs.Deviation.{main_at};
ghost use Rattle.l3_stream.specs.FieldReading.{IsBare, side_in};
ghost use Rattle.l3_frames.specs.Steps.{GoesTo, KeepsTape, gives, tape_place, slot_behind};

use crate::StreamFault;
use crate::tape::Tape;
use crate::units::read_units;
use l3_base::Settings;
use l3_bits::take_bits;
use l3_stream::ChosenFrame;

// Whether bits are 0, from bit `at` to `end`. Bit 0 of the bytes is bit `first` of the tape.
pub(crate) fn test_zeros(first: u64, bytes: &[u8], at: u64, end: u64) -> Result<(), StreamFault>
    requires first { first + 8 * length bytes.now < 2 ^ 64 }
    requires order { at ≤ end }
    requires within { end ≤ 8 * length bytes.now }
    ensures { result ≡ clear (first + at) (between bytes.now at end) }
{
    let mut place = at;
    while place < end {
        if place % 8 == 0 && 8 <= end - place && bytes[(place / 8) as usize] == 0 {
            place += 8;
        } else if take_bits(bytes, place, 1) == 0 {
            place += 1;
        } else {
            return Err(StreamFault::NotZero(first + place));
        }
    }
    Ok(())
}

// The tape bit at which the main data begins: within the tape so far, and not before the codes of
// the frame before end.
fn main_start(tape: &Tape, begin: u16) -> Option<u64>
    requires small { tape.now.base + tape.now.filled < 2 ^ 60 }
    ensures some { IfSome result (λ start. (begin ≤ tape.now.base + tape.now.filled)
        × (start ≡ 8 * (tape.now.base + tape.now.filled - begin)) × (tape.now.end ≤ start)) }
    ensures none { IfNone result (begin ≤ tape.now.base + tape.now.filled → tape.now.end ≤ 8 *
        (tape.now.base + tape.now.filled - begin) → ⊥) }
{
    let slots = tape.base + tape.filled as u64;
    if slots < u64::from(begin) {
        return None;
    }
    let start = 8 * (slots - u64::from(begin));
    if start < tape.end { None } else { Some(start) }
}

// Reads the main data of a frame that has its side information, and gives the tape bit behind it.
//
// The frame's slot stands behind the bytes kept.
pub(crate) fn read_main(
    settings: &Settings,
    tape: &Tape,
    slot_bytes: usize,
    frame: &mut ChosenFrame,
) -> Result<u64, StreamFault>
    requires kept { KeepsTape settings.now tape.now }
    requires slot { slot_bytes ≡ slot_bytes_of settings.now tape.now.number }
    requires room { slot_bytes ≤ 1420 }
    requires shape { frame.old.units ≡ placed settings.now.channels
        (units_of settings.now.channels frame.old.units) }
    requires number { length (units_of settings.now.channels frame.old.units)
        ≡ units_number settings.now.channels }
    requires fields { AllByRecursion HasFields (units_of settings.now.channels frame.old.units) }
    requires bare { AllByRecursion IsBare (units_of settings.now.channels frame.old.units) }
    ensures value { main_at settings.now (tape_place tape.now)
        (side_in settings.now.channels frame.old) (slot_behind tape.now slot_bytes) ≡ gives
        (λ _. units_of settings.now.channels frame.new.units) result }
    ensures shape { OnOk result (frame.new.units ≡ placed settings.now.channels
        (units_of settings.now.channels frame.new.units)) }
    ensures begin { frame.new.begin ≡ frame.old.begin }
    ensures end { IfOk result (λ end. GoesTo settings.now tape.now frame.old.begin
        (lengths (units_of settings.now.channels frame.old.units)) end) }
{
    let Some(start) = main_start(tape, frame.begin) else {
        return Err(StreamFault::BadBegin(tape.at));
    };
    let first = 8 * tape.base;
    test_zeros(
        first,
        &tape.bytes[..tape.filled],
        tape.end - first,
        start - first,
    )?;
    let length = frame.main_data_length();
    if length > 8 * (u64::from(frame.begin) + slot_bytes as u64) {
        return Err(StreamFault::WrongLength(start));
    }
    let bytes = &tape.bytes[..tape.filled + slot_bytes];
    let next = read_units(settings, first, bytes, start - first, frame)?;
    Ok(first + next)
}
