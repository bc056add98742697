ghost use Rattle.std.specs.Prelude.{◌≡◌, ◌+◌};
ghost use Rattle.l3_base.specs.declared.rate.Channels.TheVariants.{Mono, Stereo};
ghost use Rattle.l3_analysis.specs.declared.stage.Stage.TheVariants.{Loaded};
ghost use Rattle.l3_analysis.specs.Presumed.{IsPresumed, presumed_steps};
ghost use Rattle.l3_analysis.specs.Work.{IsAnalysed, analysed_steps, left_kept, right_kept};

use crate::boxed::PieceBox;
use crate::gate::Gate;
use crate::piece::Piece;
use crate::stage::Stage;
use l3_base::Steps;
use l3_transform::Kept;
use std::sync::ledger::Ledger;

// Makes all of a loaded piece: its spectra, and the counts up to the picks under its guess.
fn analyse_loaded<L: Ledger + Send>(
    piece: &mut Piece,
    left: &mut Kept,
    right: &mut Kept,
    steps: &mut Steps<L>,
)
    requires { piece.old.stage ≡ Loaded }
    ensures presumed { IsPresumed piece.old piece.new }
    ensures ticks { steps.new ≡ steps.old + presumed_steps piece.old }
    ensures left { left.new ≡ piece.old.window.left }
    ensures right { piece.old.settings.channels ≡ Stereo → right.new ≡ piece.old.window.right }
    ensures absent { piece.old.settings.channels ≡ Mono → right.new ≡ right.old }
{
    piece.transform_after(left, right);
    piece.presume(steps);
}

/// Makes what a piece lacks: its spectra, and the counts up to the gains picked under its guess. A
/// blank piece and one that is presumed stay as they are.
///
/// Where spectra are made, what is kept of each channel's last window goes on to the piece's, and
/// slots that the two share are not made anew. One step of the counter for each count that is made.
pub fn analyse<L: Ledger + Send>(
    piece: &mut Piece,
    left: &mut Kept,
    right: &mut Kept,
    steps: &mut Steps<L>,
)
    ensures analysed { IsAnalysed piece.old piece.new }
    ensures ticks { steps.new ≡ steps.old + analysed_steps piece.old }
    ensures left { left.new ≡ left_kept piece.old left.old }
    ensures right { right.new ≡ right_kept piece.old right.old }
    ensures number { piece.new.number ≡ piece.old.number }
{
    match piece.stage() {
        Stage::Blank | Stage::Presumed => {}
        Stage::Loaded => analyse_loaded(piece, left, right, steps),
        Stage::Transformed => piece.presume(steps),
    }
}

// The same of a job, behind the gate.
pub(crate) fn analysed<T: Gate, L: Ledger + Send>(
    gate: &T,
    mut job: PieceBox,
    left: &mut Kept,
    right: &mut Kept,
    steps: &mut Steps<L>,
) -> PieceBox
    ensures analysed { IsAnalysed job result }
    ensures ticks { steps.new ≡ steps.old + analysed_steps job }
    ensures left { left.new ≡ left_kept job left.old }
    ensures right { right.new ≡ right_kept job right.old }
    ensures number { result.number ≡ job.number }
{
    gate.between(job.piece().number());
    analyse(job.piece_mut(), left, right, steps);
    job
}
