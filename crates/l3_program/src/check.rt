//! Whether a stream can be read whole, and the line that says what was read.

ghost use Rattle.std.specs.Prelude.{◌≡◌, ◌≢◌, ◌≤◌, ◌*◌, ◌^◌, Err, IfErr, IfOk, IfSome, OnOk, Some, []};
ghost use Rattle.l3_encoder.specs.Changes.{sink_change, source_change};
ghost use Rattle.l3_io.specs.Causes.{count_after};
ghost use Rattle.l3_frames.specs.InTurn.{HasStopped};
ghost use Rattle.l3_program.specs.Check.{AddsUp, deviation_in, frames_limit, line_with};
ghost use Rattle.l3_program.specs.Program.{Ends, any_number};
ghost use Rattle.l3_program.specs.declared.words.Command.TheVariants as command;

use crate::ending::Ending;
use arrayvec::ArrayString;
use itoa::Buffer;
use l3_frames::{FrameReader, StreamFault};
use l3_io::{Sink, Source, write_all};

// The most frames that a stream may have: the most that can be read, nine times those of the
// longest WAV file.
const FRAMES_LIMIT: u32 = 16777216;

// What the frames of a stream add up to.
#[derive(Clone, Copy)]
struct Totals {
    // how many frames there are
    frames: u32,
    // the sum of part2_3_length of their units
    bits: u64,
}

// Reads the stream of a source to its end, and adds up its frames as they come.
fn read_totals<S: Source>(source: &mut S) -> Result<Totals, StreamFault>
    ensures totals { IfOk result (λ totals. IfSome (S.left source.old) (AddsUp totals)) }
    ensures rest { OnOk result (IfSome (S.left source.old) (λ _. S.left source.new ≡ Some [])) }
    ensures deviation { IfErr result (λ fault. fault ≢ StreamFault.Read
        → IfSome (S.left source.old) (λ bytes. deviation_in bytes ≡ Some fault)) }
    ensures stopped { IfErr result (λ fault. IfSome (S.left source.old) (λ bytes.
        HasStopped frames_limit bytes fault (S.left source.new))) }
    ensures memory { result ≢ Err StreamFault.Memory }
    ensures read { result ≡ Err StreamFault.Read → S.faults source.new ≡ count_after (S.faults source.old) }
    ensures steady { result ≢ Err StreamFault.Read → S.faults source.new ≡ S.faults source.old }
{
    let mut reader = FrameReader::new(FRAMES_LIMIT);
    let mut totals = Totals { frames: 0, bits: 0 };
    while let Some(frame) = reader.next(source)? {
        totals.frames += 1;
        totals.bits += frame.main_data_length();
    }
    Ok(totals)
}

// The line of a stream that adds up to this.
fn line(totals: &Totals) -> ArrayString<64>
    ensures { result.bytes ≡ line_with totals.now.frames totals.now.bits }
{
    let mut digits = Buffer::new();
    let mut line = ArrayString::new();
    line.push_str("frames ");
    line.push_str(digits.format(totals.frames));
    line.push_str(" bits ");
    line.push_str(digits.format(totals.bits));
    line.push_str("\n");
    line
}

/// Reads the stream of a source to its end, and then gives its line to a sink. It keeps no frame.
pub fn check<S: Source, K: Sink>(source: &mut S, sink: &mut K) -> Ending
    ensures { Ends command.Check result (source_change S.left S.faults source.old source.new)
        (sink_change K.taken K.faults sink.old sink.new) any_number }
{
    let totals = match read_totals(source) {
        Ok(totals) => totals,
        Err(StreamFault::Read) => return Ending::ReadFault,
        Err(deviation) => return Ending::Deviates(deviation),
    };
    match write_all(sink, line(&totals).as_bytes()) {
        Ok(()) => Ending::Done,
        Err(_) => Ending::WriteFault,
    }
}
