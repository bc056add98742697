//! One frame: its side information, and its main data from the tape.

ghost use Rattle.std.specs.Prelude.{◌≡◌, ◌≤◌, ◌<◌, ◌+◌, ◌*◌, ◌^◌, true, IfErr, IfOk, OnErr, OnOk, length, take};
ghost use Rattle.l3_bits.specs.Bits.{bits_of};
ghost use Rattle.l3_base.specs.declared.settings.Settings.{Settings};
ghost use Rattle.l3_base.specs.Lengths.{frame_bytes_of};
ghost use Rattle.l3_stream.specs.Fields.{same};
ghost use Rattle.l3_stream.specs.Frames.{IsCoded};
ghost use Rattle.l3_stream.specs.Header.{header_at, settings_at};
ghost use Rattle.l3_frames.specs.InTurn.{frame_at};
ghost use Rattle.l3_frames.specs.Steps.{KeepsTape, IsWithin, gives, tape_place};

use crate::StreamFault;
use crate::main_data::read_main;
use crate::tape::Tape;
use l3_base::Settings;
use l3_bits::take_bits;
use l3_stream::{ChosenFrame, read_header, read_side, write_header};

// The settings under which this is the header of the first frame, which is not padded.
pub(crate) fn first_settings(header: &[u8; 4]) -> Option<Settings>
    ensures { settings_at (bits_of header.now) ≡ result }
{
    let (settings, padded) = read_header(header)?;
    if padded { None } else { Some(settings) }
}

// Whether this is the header of the frame of this number.
pub(crate) fn is_header(settings: &Settings, number: u64, header: &[u8; 4]) -> bool
    requires { number ≤ 2 ^ 32 }
    ensures { result ≡ same (bits_of header.now) (header_at settings.now number) }
{
    let wanted = write_header(settings, number);
    take_bits(header, 0, 32) == take_bits(&wanted, 0, 32)
}

// Reads a frame from all its bytes, of which the header is the right one, and goes on behind it.
pub(crate) fn read_frame(
    settings: &Settings,
    tape: &mut Tape,
    bytes: &[u8],
) -> Result<ChosenFrame, StreamFault>
    requires kept { KeepsTape settings.now tape.old }
    requires number { tape.old.number < 2 ^ 24 }
    requires size { length bytes.now ≡ frame_bytes_of settings.now tape.old.number }
    requires longest { length bytes.now ≤ 1441 }
    requires header { same (bits_of (take 4 bytes.now)) (header_at settings.now tape.old.number)
        ≡ true }
    ensures value { frame_at settings.now (tape_place tape.old) bytes.now ≡ gives
        (λ frame. (frame, tape_place tape.new)) result }
    ensures own { IfErr result IsWithin }
    ensures kept { OnOk result (KeepsTape settings.now tape.new) }
    ensures still { OnErr result ((st : Settings) → KeepsTape st tape.old → KeepsTape st tape.new) }
    ensures same { OnErr result (tape_place tape.new ≡ tape_place tape.old) }
    ensures number { OnOk result (tape.new.number ≡ tape.old.number + 1) }
    ensures coded { IfOk result (λ frame. IsCoded settings.now frame) }
{
    let slot_bytes = settings.slot_bytes(tape.number) as usize;
    let head_bytes = bytes.len() - slot_bytes;
    let Some(side) = read_side(settings, &bytes[4..head_bytes]) else {
        return Err(StreamFault::BadSide(tape.at));
    };
    let mut frame = side;
    tape.append(&bytes[head_bytes..]);
    let end = read_main(settings, tape, slot_bytes, &mut frame)?;
    tape.pass(slot_bytes, bytes.len(), end);
    Ok(frame)
}
