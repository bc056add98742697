//! A frame of a stream, from a source.

ghost use Rattle.std.specs.Prelude.{◌≡◌, ◌≢◌, ℕ, List, ◌≤◌, ◌<◌, ◌+◌, ◌-◌, ◌*◌, ◌^◌, ◌++◌, [], Ok, Err, Some, IfOk, IfErr, IfSome, IfNone, OnOk, OnErr, drop, length, replicate};
ghost use Rattle.std.specs.Io.KnownBytes.{Consumes};
ghost use Rattle.l3_base.specs.declared.settings.Settings.{Settings};
ghost use Rattle.l3_base.specs.Lengths.{frame_bytes_of};
ghost use Rattle.l3_io.specs.Causes.{count_after};
ghost use Rattle.l3_stream.specs.Frames.{IsCoded};
ghost use Rattle.l3_stream.specs.Faults.{clear};
ghost use Rattle.l3_frames.specs.Answer.{IsFaultOf};
ghost use Rattle.l3_frames.specs.InTurn.{LeavesBehind, frame_at};
ghost use Rattle.l3_frames.specs.Steps.{HeaderBegins, HasRest, KeepsTape, NoHeader, ReadsFront, tape_place};

use crate::StreamFault;
use crate::frame::{is_header, read_frame};
use crate::main_data::test_zeros;
use crate::tape::Tape;
use l3_base::Settings;
use l3_io::{Source, read_full};
use l3_stream::ChosenFrame;

// Bytes of the longest frame: 320 kbit/s at 32000 Hz, and the byte of padding.
const FRAME_LIMIT: usize = 1441;

// Bytes of a header.
const HEADER_BYTES: usize = 4;

// A frame before it is read.
fn no_bytes() -> [u8; FRAME_LIMIT]
    ensures { result ≡ replicate 1441 0 }
{
    [0; FRAME_LIMIT]
}

// Reads into the front of a buffer, all that it has room for or all that is left, and says how many
// bytes.
fn read_front<S: Source>(source: &mut S, buf: &mut [u8]) -> Result<usize, StreamFault>
    ensures content { IfOk result (λ n. IfSome (S.left source.old)
        (λ left. ReadsFront left n buf.new (S.left source.new))) }
    ensures bound { IfOk result (λ n. n ≤ length buf.new) }
    ensures own { IfErr result (λ fault. fault ≡ StreamFault.Read) }
    ensures gone { OnErr result ((bytes : List ℕ) × (length bytes < length buf.new) × Consumes
        (S.left source.old) (S.left source.new) bytes) }
    ensures steady { OnOk result (S.faults source.new ≡ S.faults source.old) }
    ensures later { S.faults source.old ≤ S.faults source.new }
    ensures read { result ≡ Err StreamFault.Read
        → S.faults source.new ≡ count_after (S.faults source.old) }
{
    match read_full(source, buf) {
        Ok(count) => Ok(count),
        Err(_) => Err(StreamFault::Read),
    }
}

// Reads the header with which a frame of this number begins at this byte, or nothing where no byte
// is left.
pub(crate) fn read_header_bytes<S: Source>(
    source: &mut S,
    limit: u64,
    number: u64,
    at: u64,
) -> Result<Option<[u8; HEADER_BYTES]>, StreamFault>
    ensures ended { IfOk result (λ header. IfNone header (IfSome (S.left source.old)
        (λ left. (left ≡ []) × (S.left source.new ≡ Some [])))) }
    ensures begun { IfOk result (λ header. IfSome header (λ bytes. IfSome (S.left source.old)
        (λ left. HeaderBegins left bytes (S.left source.new)))) }
    ensures few { IfOk result (λ header. IfSome header (λ bytes. number < limit)) }
    ensures four { IfOk result (λ header. IfSome header (λ bytes. length bytes ≡ 4)) }
    ensures fault { IfErr result (λ fault. IfSome (S.left source.old)
        (λ left. NoHeader fault limit number at left)) }
    ensures gone { IfErr result (λ fault. IfSome (S.left source.old)
        (λ left. LeavesBehind fault 4 left (S.left source.new))) }
    ensures memory { result ≢ Err StreamFault.Memory }
    ensures steady { result ≢ Err StreamFault.Read → S.faults source.new ≡ S.faults source.old }
    ensures later { S.faults source.old ≤ S.faults source.new }
    ensures read { result ≡ Err StreamFault.Read
        → S.faults source.new ≡ count_after (S.faults source.old) }
{
    let mut header = [0; HEADER_BYTES];
    let count = read_front(source, &mut header)?;
    if count == 0 {
        return Ok(None);
    }
    if limit <= number {
        return Err(StreamFault::TooLong(at));
    }
    if count < HEADER_BYTES {
        return Err(StreamFault::ShortFrame(at));
    }
    Ok(Some(header))
}

// Reads the frame that begins with this header, and goes on behind it.
pub(crate) fn read_whole<S: Source>(
    source: &mut S,
    settings: &Settings,
    tape: &mut Tape,
    header: &[u8; HEADER_BYTES],
) -> Result<ChosenFrame, StreamFault>
    requires kept { KeepsTape settings.now tape.old }
    requires number { tape.old.number < 2 ^ 24 }
    ensures content { IfOk result (λ frame. IfSome (S.left source.old)
        (λ left. frame_at settings.now (tape_place tape.old) (header.now ++ left)
        ≡ Ok (frame, tape_place tape.new))) }
    ensures fault { IfErr result (λ fault. IfSome (S.left source.old)
        (λ left. IsFaultOf fault (frame_at settings.now (tape_place tape.old) (header.now ++ left)))) }
    ensures gone { IfErr result (λ fault. IfSome (S.left source.old) (λ left.
        LeavesBehind fault (frame_bytes_of settings.now tape.old.number) (header.now ++ left)
        (S.left source.new))) }
    ensures memory { result ≢ Err StreamFault.Memory }
    ensures steady { result ≢ Err StreamFault.Read → S.faults source.new ≡ S.faults source.old }
    ensures rest { OnOk result (IfSome (S.left source.old) (λ left. S.left source.new ≡ Some
        (drop (frame_bytes_of settings.now tape.old.number) (header.now ++ left)))) }
    ensures kept { OnOk result (KeepsTape settings.now tape.new) }
    ensures still { OnErr result ((st : Settings) → KeepsTape st tape.old → KeepsTape st tape.new) }
    ensures same { OnErr result (tape_place tape.new ≡ tape_place tape.old) }
    ensures number { OnOk result (tape.new.number ≡ tape.old.number + 1) }
    ensures coded { IfOk result (λ frame. IsCoded settings.now frame) }
    ensures later { S.faults source.old ≤ S.faults source.new }
    ensures read { result ≡ Err StreamFault.Read
        → S.faults source.new ≡ count_after (S.faults source.old) }
{
    if !is_header(settings, tape.number, header) {
        return Err(StreamFault::BadHeader(tape.at));
    }
    let size = settings.frame_bytes(tape.number) as usize;
    let mut bytes = no_bytes();
    bytes[..HEADER_BYTES].copy_from_slice(header);
    let count = read_front(source, &mut bytes[HEADER_BYTES..size])?;
    if count < size - HEADER_BYTES {
        return Err(StreamFault::ShortFrame(tape.at));
    }
    let frame = read_frame(settings, tape, &bytes[..size])?;
    Ok(frame)
}

// Whether the tape is 0 behind the codes so far.
pub(crate) fn test_rest(tape: &Tape) -> Result<(), StreamFault>
    requires rest { HasRest tape.now }
    ensures { result ≡ clear tape.now.end (tape_place tape.now).rest }
{
    let first = 8 * tape.base;
    let bits = 8 * tape.filled as u64;
    test_zeros(first, &tape.bytes[..tape.filled], tape.end - first, bits)
}
