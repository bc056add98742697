ghost use Rattle.std.specs.Prelude.{◌≡◌, ◌+◌, ◌*◌, ◌<◌, ◌≤◌, ℕ, ℤ, List, All, IfOk, IfSome, OnOk, None, Some, drop, false, length};
ghost use Rattle.std.specs.Thread.{IsSync};
ghost use Rattle.l3_board.specs.Offers.{GoesWith};
ghost use Rattle.l3_wav.specs.ReadingOn.{AreGone};
ghost use Rattle.l3_commit.specs.Encoding.{gains_tried};
ghost use Rattle.l3_commit.specs.Standing.{StandsFor};
ghost use Rattle.l3_commit.specs.Tracks.{first_track, next_of};
ghost use Rattle.l3_encoder.specs.Answers.{CountsFaults, GivesFrames, GivesStream, IsReport};
ghost use Rattle.l3_encoder.specs.Changes.{source_change, sink_change};
ghost use Rattle.l3_encoder.specs.Turned.{CanTurnOver, IsTurnedOver};

use crate::encoding::TurnFault;
use crate::on_board::encode_on_board;
use l3_analysis::{Gate, PieceBox, work_all};
use l3_base::{Settings, Steps};
use l3_board::Board;
use l3_commit::{Committer, Report};
use l3_guess::Guesser;
use l3_io::{Sink, Source};
use std::sync::Wait;
use std::sync::ledger::Ledger;
use std::thread::{Threads, join_mut};

// Encodes over a board, and shuts it, whatever came.
fn commit_all<S: Source, K: Sink, G: Guesser, B: Board<Item = PieceBox>, T: Gate, L: Ledger + Send>(
    settings: Settings,
    committer: &mut Committer,
    guesser: &mut G,
    board: &B,
    desk: &mut B::Desk,
    gate: &T,
    source: &mut S,
    sink: &mut K,
    steps: &mut Steps<L>,
) -> Result<Report, TurnFault>
    requires { CanTurnOver settings committer.old (B.cells board.now) (B.has_desk board.now desk.old) (B.last desk.old) (B.served desk.old) }
    ensures { IsTurnedOver settings committer.old committer.new result (source_change S.left S.faults source.old source.new)
        (sink_change K.taken K.faults sink.old sink.new) steps.old steps.new (B.has_desk board.now desk.new) (B.served desk.new) }
{
    let answer = encode_on_board(
        settings, committer, guesser, board, desk, gate, source, sink, steps,
    );
    board.shut(desk);
    answer
}

/// Gives the encoding of a committer's samples to a sink, frame after frame as they come, beside a
/// worker at each seat of a board. The committer is before its first granule, under these settings,
/// and has offered nothing; the desk and the seats were made with the board and are as they began.
///
/// Whatever board, guesser and gate it is, the sink takes what [`encode_turns`] would give it. The
/// board is shut at every answer, so that the workers end too. Errors are those of
/// [`encode_turns`].
///
/// [`encode_turns`]: crate::encoding::encode_turns
pub fn encode_over<
    S: Source,
    K: Sink,
    G: Guesser,
    B: Board<Item = PieceBox> + Sync,
    T: Gate + Sync,
    L: Ledger + Send,
    R: Threads + Wait + Sync,
>(
    rt: &R,
    settings: Settings,
    committer: &mut Committer,
    guesser: &mut G,
    board: &B,
    desk: &mut B::Desk,
    seats: Vec<B::Seat>,
    gate: &T,
    source: &mut S,
    sink: &mut K,
    steps: &mut Steps<L>,
) -> Result<Report, TurnFault>
    requires start { (committer.old.track ≡ first_track settings) × (committer.old.windows.base ≡ 0) }
    requires made { B.has_desk board.now desk.old }
    requires cells { length committer.old.offers.placed ≡ B.cells board.now }
    requires some { 0 < length committer.old.offers.placed }
    requires ahead { 0 < committer.old.windows.ahead }
    requires goes { GoesWith (B.last desk.old) committer.old.offers }
    requires waits { committer.old.offers.next ≡ 0 }
    requires served { B.served desk.old ≡ 0 }
    requires sound { committer.old.windows.samples.failed ≡ false }
    requires seats { All (λ seat. B.has_seat board.now seat × (B.claimed seat ≡ None)) seats.items }
    ensures bytes { IfSome (S.left source.old) (λ bytes. (left right : List ℤ) → StandsFor committer.old bytes settings left right →
        GivesStream settings left right result (K.taken sink.old) (K.taken sink.new)) }
    ensures frames { GivesFrames settings result (K.taken sink.old) (K.taken sink.new) }

    // What follows the data is left, and nothing of the data; at a fault no byte behind it is gone.
    ensures rest { OnOk result (IfSome (S.left source.old) (λ bytes. (left right : List ℤ) → StandsFor committer.old bytes settings left right →
        S.left source.new ≡ Some (drop committer.old.windows.samples.remaining bytes))) }
    ensures gone { AreGone committer.old.windows.samples.remaining 0 (S.left source.old) (S.left source.new) }
    ensures report { IfOk result (λ report. IfSome (S.left source.old) (λ bytes. (left right : List ℤ) → StandsFor committer.old bytes settings left right →
        IsReport settings left right report)) }
    ensures ticks { IfOk result (λ report. (report.made ≤ report.tried) × (steps.new ≡ steps.old + report.made)) }
    ensures rise { IfSome (S.left source.old) (λ bytes. (left right : List ℤ) → StandsFor committer.old bytes settings left right →
        steps.new ≤ steps.old + gains_tried settings left right) }
    ensures later_steps { steps.old ≤ steps.new }
    ensures cause { CountsFaults result (S.faults source.old) (S.faults source.new) (K.faults sink.old) (K.faults sink.new) }
    ensures later { (S.faults source.old ≤ S.faults source.new) × (K.faults sink.old ≤ K.faults sink.new) }

    // Each granule was taken off the board, in order.
    ensures desk { B.has_desk board.now desk.new }
    ensures served { OnOk result (B.served desk.new ≡ next_of committer.new.track) }
    ensures whole { IfOk result (λ report. next_of committer.new.track ≡ 2 * report.frames) }
{
    let mut seats = seats;
    let row = seats.as_mut_slice();
    let (_, answer) = join_mut(
        rt,
        &mut ||
            requires { IsSync R.row × IsSync B.row × IsSync T.row × All (λ seat. B.has_seat board.now seat × (B.claimed seat ≡ None)) row.now }
        { work_all(rt, board, gate, row) },
        &mut || -> Result<Report, TurnFault>
            requires { CanTurnOver settings committer.now (B.cells board.now) (B.has_desk board.now desk.now) (B.last desk.now) (B.served desk.now) }
            ensures { IsTurnedOver settings committer.entry.now committer.exit.now result (source_change S.left S.faults source.entry.now source.exit.now)
                (sink_change K.taken K.faults sink.entry.now sink.exit.now) steps.entry.now steps.exit.now (B.has_desk board.entry.now desk.exit.now) (B.served desk.exit.now) }
        {
            commit_all(
                settings, committer, guesser, board, desk, gate, source, sink, steps,
            )
        },
    );
    answer
}
