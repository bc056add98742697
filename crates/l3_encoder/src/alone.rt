ghost use Rattle.std.specs.Prelude.{◌≡◌, ◌+◌, ◌≤◌, IfOk, IfSome};
ghost use Rattle.l3_encoder.specs.Changes.{source_change, sink_change};
ghost use Rattle.l3_encoder.specs.Encoded.{CountsReads, CountsWrites, ExplainsReport, GivesSomeFrames, IsBeforeFirst, LeavesInput, gains_in};

use crate::answer::answer_of;
use crate::encoding::encode_turns;
use crate::opening::{open_file, settings_of};
use l3_base::{Rate, Steps};
use l3_commit::{Committer, EncodeFault, Report};
use l3_io::{Sink, Source};
use l3_wav::Samples;
use std::alloc::Global;
use std::sync::ledger::Ledger;

/// Encodes the WAV file of a source at a rate, on one thread: reads granule after granule, and
/// gives the frames of its stream to a sink as they come.
///
/// The stream is that of the chosen frames of the file's samples; it is empty where there are none.
/// Each count is one step. Memory is taken before the first byte of the stream is written, and none
/// after. It always returns. Errors: the head is refused or there is no memory, with nothing
/// written; a read or a write failed, with a front of the stream written.
pub fn encode_alone<S: Source, K: Sink, L: Ledger + Send>(
    alloc: Global,
    rate: Rate,
    source: &mut S,
    sink: &mut K,
    steps: &mut Steps<L>,
) -> Result<Report, EncodeFault>
    ensures explains { ExplainsReport rate result (source_change S.left S.faults source.old source.new)
        (sink_change K.taken K.faults sink.old sink.new) }
    ensures some_frames { GivesSomeFrames rate result (sink_change K.taken K.faults sink.old sink.new) }

    // Head and data are read, and nothing after them; of a refused head what refuses it; where
    // there is no memory the head. Where a read or a write failed it may be less.
    ensures left { IfSome (S.left source.old) (λ bytes. LeavesInput result bytes (S.left source.new)) }

    // Where a read failed the answer is a read fault, where a write failed a write fault, and no
    // second call fails. That none follows is tested, not promised.
    ensures reads { CountsReads result (source_change S.left S.faults source.old source.new) }
    ensures writes { CountsWrites result (sink_change K.taken K.faults sink.old sink.new) }
    ensures later { S.faults source.old ≤ S.faults source.new }
    ensures later_sink { K.faults sink.old ≤ K.faults sink.new }

    // Each step is the count of a gain that the choice of frames tries.
    ensures ticks { IfOk result (λ report. (report.made ≡ report.tried) × (steps.new ≡ steps.old + report.made)) }
    ensures rise { IfSome (S.left source.old) (λ bytes. steps.new ≤ steps.old + gains_in rate bytes) }
    ensures later_steps { steps.old ≤ steps.new }
    ensures unstepped { IsBeforeFirst result → steps.new ≡ steps.old }
{
    let head = match open_file(source) {
        Ok(head) => head,
        Err(fault) => return Err(fault),
    };
    let settings = settings_of(rate, &head);
    let Ok(mut committer) = Committer::open(alloc, settings, 0, Samples::new(&head)) else {
        return Err(EncodeFault::Memory);
    };
    answer_of(encode_turns(settings, &mut committer, source, sink, steps))
}
