//! Calls of the track and of the board are steps of runs.

ghost use Rattle.std.specs.Prelude.{◌≡◌, ◌+◌, ◌<◌, length};
ghost use Rattle.l3_analysis.specs.Piece.{HasSpectra, IsSound};
ghost use Rattle.l3_commit.specs.Lacking.{IsLike};
ghost use Rattle.l3_commit.specs.Tracks.{next_of};
ghost use Rattle.l3_speculation.specs.Calls.{IsEvent, IsFrameEnd, IsGranule};

use l3_analysis::{Piece, PieceBox};
use l3_base::Steps;
use l3_board::{Answer, Core, Event};
use l3_commit::{GranuleDone, Track};
use l3_stream::ChosenFrame;
use std::sync::ledger::Ledger;

/// What a track does with the piece of the next granule is a step of each run in which it stands
/// and the piece is right: a granule is committed. `made` is how many counts were made, and the
/// rest of `tried` how many were reused.
pub fn granule_is_a_step<L: Ledger + Send>(
    track: &mut Track,
    piece: &mut Piece,
    steps: &mut Steps<L>,
) -> GranuleDone
    requires number { piece.old.number ≡ next_of track.old }
    requires turn { length track.old.granules < 2 }
    requires stage { HasSpectra piece.old.stage }
    requires settings { IsLike track.old.settings piece.old.settings }
    ensures step { IsGranule track.old track.new piece.old result }
    ensures ticks { steps.new ≡ steps.old + result.made }
{
    // For the proof alone: that the piece is sound.
    let _number = piece.number();
    let done = track.commit_granule(piece, steps);
    GranuleDone {
        made: done.made,
        tried: done.tried,
    }
}

/// What a track does at the end of a frame is a step of each run in which it stands.
pub fn frame_end_is_a_step(track: &mut Track) -> ChosenFrame
    requires turn { length track.old.granules ≡ 2 }
    ensures step { IsFrameEnd track.old track.new result }
{
    let frame = track.commit_frame();
    ChosenFrame {
        begin: frame.begin,
        units: frame.units,
    }
}

// For the proof alone: that a piece is sound.
fn look_at(item: &PieceBox)
    ensures { IsSound item.now }
{
    let _number = item.piece().number();
}

/// What the board does with a call is a step of each run in which it stands.
pub fn event_is_a_step(board: &mut Core<PieceBox>, event: Event<PieceBox>) -> Answer<PieceBox>
    ensures step { IsEvent board.old board.new event result }
{
    match event {
        Event::Offer(item) => {
            look_at(&item);
            Answer::Offer(board.offer(item))
        }
        Event::Claim => Answer::Claim(board.claim()),
        Event::Deposit(item) => {
            look_at(&item);
            Answer::Deposit(board.deposit(item))
        }
        Event::Take(number, spare) => {
            look_at(&spare);
            Answer::Take(board.take(number, spare))
        }
        Event::Shut => {
            board.shut();
            Answer::Shut
        }
    }
}
