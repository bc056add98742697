ghost use Rattle.std.specs.Prelude.{◌≡◌, ◌+◌, ◌<◌, ◌≤◌, ℕ, ℤ, List, length, min, true, IfOk, OnErr, OnOk};
ghost use Rattle.l3_base.specs.declared.settings.Settings.{Settings};
ghost use Rattle.l3_base.specs.Lengths.{granules_for};
ghost use Rattle.l3_io.specs.Causes.{HasCause};
ghost use Rattle.l3_wav.specs.Holding.{Holds};
ghost use Rattle.l3_analysis.specs.Piece.{no_memos};
ghost use Rattle.l3_stream.specs.declared.unit.ChosenFrame.{ChosenFrame};
ghost use Rattle.l3_commit.specs.Encoding.{spectra_of};
ghost use Rattle.l3_commit.specs.Standing.{StandsFor};
ghost use Rattle.l3_commit.specs.Tracks.{next_of};
ghost use Rattle.l3_commit.specs.Tried.{tried_at};
ghost use Rattle.l3_encoder.specs.Turning.{Breaks, IsBehind, Turns};

use l3_base::{GranuleNo, Steps, WriteFault};
use l3_commit::{Committer, GranuleDone};
use l3_frames::FrameWriter;
use l3_guess::Guesser;
use l3_io::Sink;
use std::sync::ledger::Ledger;

/// Commits the granule that is at hand, which has this number, and pushes its frame where it is the
/// second one of it.
///
/// Errors: a write of the sink failed, or took nothing. Then nothing else may be called.
pub fn turn<G: Guesser, K: Sink, L: Ledger + Send>(
    committer: &mut Committer,
    number: GranuleNo,
    guesser: &mut G,
    writer: &mut FrameWriter,
    sink: &mut K,
    steps: &mut Steps<L>,
) -> Result<GranuleDone, WriteFault>
    requires number { number ≡ next_of committer.old.track }
    requires ready { committer.old.is_ready ≡ true }
    requires turn { length committer.old.track.granules < 2 }
    requires below { (bytes : List ℕ) (left right : List ℤ) → Holds committer.old.windows bytes left right → number < granules_for (length left) }
    requires behind { (fs : List ChosenFrame) × IsBehind committer.old.track fs writer.old }
    ensures turns { OnOk result (Turns committer.old committer.new writer.old writer.new (K.taken sink.old) (K.taken sink.new)) }
    ensures breaks { OnErr result (Breaks committer.old writer.old (K.taken sink.old) (K.taken sink.new)) }
    ensures next { OnOk result (next_of committer.new.track ≡ number + 1) }
    ensures few { OnOk result (length committer.new.track.granules < 2) }
    ensures same { OnOk result ((committer.new.windows ≡ committer.old.windows) × (committer.new.offers ≡ committer.old.offers)) }
    ensures tried { IfOk result (λ done. (bytes : List ℕ) (st : Settings) (left right : List ℤ) → StandsFor committer.old bytes st left right →
        done.tried ≡ tried_at st (spectra_of left right) committer.old.track.frame (length committer.old.track.granules)) }
    ensures limit { IfOk result (λ done. done.tried ≤ 512) }
    ensures made { IfOk result (λ done. (done.made ≤ done.tried) × (steps.new ≡ steps.old + done.made)) }
    ensures alone { committer.old.own.memos ≡ no_memos → IfOk result (λ done. done.made ≡ done.tried) }
    ensures later { steps.old ≤ steps.new }
    ensures rise { (bytes : List ℕ) (st : Settings) (left right : List ℤ) → StandsFor committer.old bytes st left right →
        steps.new ≤ steps.old + tried_at st (spectra_of left right) committer.old.track.frame (length committer.old.track.granules) }
    ensures told { (n : ℕ) → G.guesses guesser.new n ≡ G.guesses_after guesser.old number (min committer.old.track.reserve 4294967295) n }
    ensures cause { HasCause (K.faults sink.old) (K.faults sink.new) result }
{
    let done = committer.commit_granule(guesser, steps);
    if number.get() % 2 == 0 {
        return Ok(done);
    }
    match writer.push(committer.commit_frame(), sink) {
        Ok(()) => Ok(done),
        Err(fault) => Err(fault),
    }
}
