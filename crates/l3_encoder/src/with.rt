ghost use Rattle.std.specs.Prelude.{◌≡◌, ◌+◌, ◌≤◌, All, IfOk, IfSome, None, vec_len};
ghost use Rattle.l3_board.specs.Desk.{fresh_desk};
ghost use Rattle.l3_lanes.specs.Calls.{IsDeskOf, IsSeatOf, claimed};
ghost use Rattle.l3_encoder.specs.Changes.{source_change, sink_change};
ghost use Rattle.l3_encoder.specs.Encoded.{CountsReads, CountsWrites, ExplainsReport, GivesSomeFrames, IsBeforeFirst, LeavesInput, gains_in};

use crate::answer::answer_of;
use crate::opening::{open_file, settings_of};
use crate::over::encode_over;
use l3_analysis::{Gate, Lanes, PieceBox};
use l3_base::{Rate, Settings, Steps};
use l3_commit::{Committer, EncodeFault, Report};
use l3_guess::Guesser;
use l3_io::{Sink, Source};
use l3_lanes::{LaneBoard, LaneDesk, LaneSeat};
use l3_wav::Samples;
use std::alloc::{AllocError, Global};
use std::sync::Wait;
use std::sync::ledger::Ledger;
use std::thread::Threads;

// So many pieces, blank.
pub(crate) fn blanks(
    alloc: Global,
    settings: Settings,
    count: u8,
) -> Result<Vec<PieceBox>, AllocError>
    ensures { IfOk result (λ blanks. vec_len blanks ≡ count) }
{
    let mut blanks = Vec::new(alloc);
    for _ in 0..count {
        blanks.push(PieceBox::new(alloc, settings)?)?;
    }
    Ok(blanks)
}

// A board without locks, its desk, and a seat for each worker.
fn lane_board(
    alloc: Global,
    settings: Settings,
    lanes: Lanes,
) -> Result<
    (
        LaneBoard<PieceBox>,
        LaneDesk<PieceBox>,
        Vec<LaneSeat<PieceBox>>,
    ),
    AllocError,
>
    requires workers { (1 ≤ lanes.workers) × (lanes.workers ≤ 16) }
    requires ahead { (1 ≤ lanes.ahead) × (lanes.ahead ≤ 64) }
    ensures cells { IfOk result (λ made. made.0.cells ≡ lanes.ahead) }
    ensures desk { IfOk result (λ made. IsDeskOf made.0 made.1) }
    ensures kept { IfOk result (λ made. made.1.kept ≡ fresh_desk lanes.ahead) }
    ensures seats { IfOk result (λ made. All (λ seat. IsSeatOf made.0 seat × (claimed seat ≡ None)) made.2.items) }
{
    let blanks = blanks(alloc, settings, lanes.ahead)?;
    LaneBoard::new(alloc, lanes.workers, blanks)
}

/// Encodes the WAV file of a source at a rate, with workers that analyse granules ahead of the one
/// that is committed, over a board without locks: the same bytes as [`encode_alone`] gives.
///
/// At most `lanes.ahead` granules are analysed and not yet committed. The guesser tells a worker
/// which budget to count for; a wrong guess costs time and changes no byte. The gate is told of
/// each turn. Steps are those of the committer's own counts. Memory is taken before the first byte
/// of the stream is written, and none after. Errors are those of [`encode_alone`].
///
/// [`encode_alone`]: crate::encode_alone
pub fn encode_with<
    S: Source,
    K: Sink,
    G: Guesser,
    T: Gate + Sync,
    L: Ledger + Send,
    R: Threads + Wait + Sync,
>(
    rt: &R,
    alloc: Global,
    rate: Rate,
    lanes: Lanes,
    guesser: &mut G,
    gate: &T,
    source: &mut S,
    sink: &mut K,
    steps: &mut Steps<L>,
) -> Result<Report, EncodeFault>
    requires workers { (1 ≤ lanes.workers) × (lanes.workers ≤ 16) }
    requires ahead { (1 ≤ lanes.ahead) × (lanes.ahead ≤ 64) }
    ensures explains { ExplainsReport rate result (source_change S.left S.faults source.old source.new)
        (sink_change K.taken K.faults sink.old sink.new) }
    ensures some_frames { GivesSomeFrames rate result (sink_change K.taken K.faults sink.old sink.new) }
    ensures left { IfSome (S.left source.old) (λ bytes. LeavesInput result bytes (S.left source.new)) }
    ensures reads { CountsReads result (source_change S.left S.faults source.old source.new) }
    ensures writes { CountsWrites result (sink_change K.taken K.faults sink.old sink.new) }
    ensures later { S.faults source.old ≤ S.faults source.new }
    ensures later_sink { K.faults sink.old ≤ K.faults sink.new }

    // Of the gains that the choice of frames tries no more are counted by the committer.
    ensures ticks { IfOk result (λ report. (report.made ≤ report.tried) × (steps.new ≡ steps.old + report.made)) }
    ensures rise { IfSome (S.left source.old) (λ bytes. steps.new ≤ steps.old + gains_in rate bytes) }
    ensures later_steps { steps.old ≤ steps.new }
    ensures unstepped { IsBeforeFirst result → steps.new ≡ steps.old }
{
    let head = match open_file(source) {
        Ok(head) => head,
        Err(fault) => return Err(fault),
    };
    let settings = settings_of(rate, &head);
    let samples = Samples::new(&head);
    let Ok(mut committer) = Committer::open(alloc, settings, lanes.ahead, samples) else {
        return Err(EncodeFault::Memory);
    };
    let Ok((board, mut desk, seats)) = lane_board(alloc, settings, lanes) else {
        return Err(EncodeFault::Memory);
    };
    answer_of(encode_over(
        rt,
        settings,
        &mut committer,
        guesser,
        &board,
        &mut desk,
        seats,
        gate,
        source,
        sink,
        steps,
    ))
}
