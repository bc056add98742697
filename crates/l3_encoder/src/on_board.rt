ghost use Rattle.std.specs.Prelude.{◌≡◌, ◌+◌, ◌*◌, ◌<◌, ◌≤◌, ◌⊎◌, ℕ, ℤ, List, Some, drop, length, true, false, IfOk, IfSome, OnOk};
ghost use Rattle.l3_board.specs.Offers.{GoesWith};
ghost use Rattle.l3_wav.specs.ReadingOn.{AreGone};
ghost use Rattle.l3_commit.specs.Encoding.{gains_tried};
ghost use Rattle.l3_commit.specs.Standing.{StandsFor, StillStands, offers_end};
ghost use Rattle.l3_commit.specs.Tracks.{first_track, next_of};
ghost use Rattle.l3_encoder.specs.Answers.{CountsFaults, GivesFrames, GivesStream, IsReport};

use crate::{TurnFault, turn};
use l3_analysis::{Gate, PieceBox};
use l3_base::{GranuleNo, Settings, Steps};
use l3_board::Board;
use l3_commit::{Committer, Report};
use l3_frames::FrameWriter;
use l3_guess::Guesser;
use l3_io::{Sink, Source};
use std::sync::ledger::Ledger;

// Has the granule that comes next, which has this number, at hand from the board: offers it with
// those ahead of it, tells the gate, takes it, and makes a piece fit that is not.
fn take_next<G: Guesser, B: Board<Item = PieceBox>, T: Gate>(
    committer: &mut Committer,
    number: GranuleNo,
    guesser: &G,
    board: &B,
    desk: &mut B::Desk,
    gate: &T,
)
    requires number { number ≡ next_of committer.old.track }
    requires limit { next_of committer.old.track ≤ 8589934592 }
    requires more { next_of committer.old.track < offers_end committer.old }
    requires made { B.has_desk board.now desk.old }
    requires cells { length committer.old.offers.placed ≡ B.cells board.now }
    requires some { 0 < length committer.old.offers.placed }
    requires goes { GoesWith (B.last desk.old) committer.old.offers }
    requires waits { committer.old.offers.next ≡ next_of committer.old.track }
    requires served { B.served desk.old ≡ next_of committer.old.track }
    requires base { committer.old.windows.base ≡ next_of committer.old.track }
    requires ahead { 0 < committer.old.windows.ahead }
    requires there { (committer.old.windows.ended ≡ true) ⊎ (576 * (next_of committer.old.track + committer.old.windows.ahead) ≤ committer.old.windows.read) }
    ensures made { B.has_desk board.now desk.new }
    ensures cells { length committer.new.offers.placed ≡ B.cells board.now }
    ensures goes { GoesWith (B.last desk.new) committer.new.offers }
    ensures waits { committer.new.offers.next ≡ next_of committer.old.track + 1 }
    ensures served { B.served desk.new ≡ next_of committer.old.track + 1 }
    ensures stands { (bytes : List ℕ) → StillStands committer.old committer.new bytes bytes }
    ensures ready { committer.new.is_ready ≡ true }
    ensures same { (committer.new.track ≡ committer.old.track) × (committer.new.windows ≡ committer.old.windows) }
{
    committer.fill(guesser, board, desk);
    gate.before_take(number);
    committer.gather(board, desk);
    committer.prepare();
}

/// Gives the encoding of a committer's samples to a sink, as `encode_turns` does, over a board on
/// which workers may analyse granules ahead. The committer is before its first granule, under these
/// settings; its board has as many cells as it offers granules ahead, the desk was made with it and
/// has offered nothing.
///
/// Whatever the board hands out, the sink takes the same bytes. The board is not shut. Errors: a
/// read failed, or a write failed or took nothing; each with a front of the encoding taken. That no
/// call follows is tested, not promised.
pub fn encode_on_board<
    S: Source,
    K: Sink,
    G: Guesser,
    B: Board<Item = PieceBox>,
    T: Gate,
    L: Ledger + Send,
>(
    settings: Settings,
    committer: &mut Committer,
    guesser: &mut G,
    board: &B,
    desk: &mut B::Desk,
    gate: &T,
    source: &mut S,
    sink: &mut K,
    steps: &mut Steps<L>,
) -> Result<Report, TurnFault>
    requires start { (committer.old.track ≡ first_track settings) × (committer.old.windows.base ≡ 0) }
    requires made { B.has_desk board.now desk.old }
    requires cells { length committer.old.offers.placed ≡ B.cells board.now }
    requires some { 0 < length committer.old.offers.placed }
    requires ahead { 0 < committer.old.windows.ahead }
    requires goes { GoesWith (B.last desk.old) committer.old.offers }
    requires waits { committer.old.offers.next ≡ 0 }
    requires served { B.served desk.old ≡ 0 }
    requires sound { committer.old.windows.samples.failed ≡ false }
    ensures bytes { IfSome (S.left source.old) (λ bytes. (left right : List ℤ) → StandsFor committer.old bytes settings left right →
        GivesStream settings left right result (K.taken sink.old) (K.taken sink.new)) }
    ensures frames { GivesFrames settings result (K.taken sink.old) (K.taken sink.new) }
    ensures gone { AreGone committer.old.windows.samples.remaining 0 (S.left source.old) (S.left source.new) }
    ensures rest { OnOk result (IfSome (S.left source.old) (λ bytes. (left right : List ℤ) → StandsFor committer.old bytes settings left right →
        S.left source.new ≡ Some (drop committer.old.windows.samples.remaining bytes))) }
    ensures report { IfOk result (λ report. IfSome (S.left source.old) (λ bytes. (left right : List ℤ) → StandsFor committer.old bytes settings left right →
        IsReport settings left right report)) }

    // A worker's counts spare the committer its own.
    ensures ticks { IfOk result (λ report. (report.made ≤ report.tried) × (steps.new ≡ steps.old + report.made)) }
    ensures rise { IfSome (S.left source.old) (λ bytes. (left right : List ℤ) → StandsFor committer.old bytes settings left right →
        steps.new ≤ steps.old + gains_tried settings left right) }
    ensures later_steps { steps.old ≤ steps.new }
    ensures cause { CountsFaults result (S.faults source.old) (S.faults source.new) (K.faults sink.old) (K.faults sink.new) }
    ensures later { (S.faults source.old ≤ S.faults source.new) × (K.faults sink.old ≤ K.faults sink.new) }
    ensures desk { B.has_desk board.now desk.new }

    // Each granule was served, and there are two to a frame.
    ensures served { OnOk result (B.served desk.new ≡ next_of committer.new.track) }
    ensures whole { IfOk result (λ report. next_of committer.new.track ≡ 2 * report.frames) }
{
    let mut writer = FrameWriter::new(settings);
    let mut frames = 0u32;
    let mut tried = 0u64;
    let mut made = 0u64;
    'granules: loop {
        let Ok(_) = committer.read_ahead(source) else {
            return Err(TurnFault::Read);
        };
        let Some(number) = committer.next() else {
            break;
        };
        take_next(committer, number, guesser, board, desk, gate);
        let Ok(done) = turn(committer, number, guesser, &mut writer, sink, steps) else {
            return Err(TurnFault::Write);
        };
        tried += u64::from(done.tried);
        made += u64::from(done.made);
        if number.get() % 2 == 1 {
            frames += 1;
        }
    }
    match writer.finish(sink) {
        Ok(()) => Ok(Report {
            frames,
            tried,
            made,
        }),
        Err(_) => Err(TurnFault::Write),
    }
}
