ghost use Rattle.std.specs.Prelude.{◌≡◌, ◌+◌, ◌<◌, ◌≤◌, ℕ, ℤ, List, Some, drop, length, false, IfOk, IfSome, OnOk};
ghost use Rattle.l3_wav.specs.ReadingOn.{AreGone};
ghost use Rattle.l3_commit.specs.Encoding.{gains_tried};
ghost use Rattle.l3_commit.specs.Standing.{StandsFor};
ghost use Rattle.l3_commit.specs.Tracks.{first_track};
ghost use Rattle.l3_encoder.specs.Answers.{CountsFaults, GivesFrames, GivesStream, IsReport};

use crate::turn;
use l3_base::{Settings, Steps};
use l3_commit::{Committer, Report};
use l3_frames::FrameWriter;
use l3_guess::Flat;
use l3_io::{Sink, Source};
use std::sync::ledger::Ledger;

/// Why an encoding of samples was given up.
#[derive(Clone, Copy, Debug, PartialEq, Eq)]
pub enum TurnFault {
    /// A read of the samples failed.
    Read,
    /// A write of the stream failed.
    Write,
}

/// Gives the encoding of a committer's samples to a sink, frame after frame as they come. The
/// committer is before its first granule, under these settings, and without a board.
///
/// Where the source tells its bytes, the sink takes the encoding of the samples that the committer
/// stands for, whichever they are. Errors: a read failed, or a write failed or took nothing; each
/// with a front of it taken. That no call follows is tested, not promised.
pub fn encode_turns<S: Source, K: Sink, L: Ledger + Send>(
    settings: Settings,
    committer: &mut Committer,
    source: &mut S,
    sink: &mut K,
    steps: &mut Steps<L>,
) -> Result<Report, TurnFault>
    requires start { (committer.old.track ≡ first_track settings) × (committer.old.windows.base ≡ 0) }
    requires alone { length committer.old.offers.placed ≡ 0 }
    requires ahead { 0 < committer.old.windows.ahead }
    requires sound { committer.old.windows.samples.failed ≡ false }
    ensures bytes { IfSome (S.left source.old) (λ bytes. (left right : List ℤ) → StandsFor committer.old bytes settings left right →
        GivesStream settings left right result (K.taken sink.old) (K.taken sink.new)) }
    ensures frames { GivesFrames settings result (K.taken sink.old) (K.taken sink.new) }

    // What follows the data is left, and nothing of the data.
    ensures rest { OnOk result (IfSome (S.left source.old) (λ bytes. (left right : List ℤ) → StandsFor committer.old bytes settings left right →
        S.left source.new ≡ Some (drop committer.old.windows.samples.remaining bytes))) }
    // No byte behind the data is gone.
    ensures gone { AreGone committer.old.windows.samples.remaining 0 (S.left source.old) (S.left source.new) }
    ensures report { IfOk result (λ report. IfSome (S.left source.old) (λ bytes. (left right : List ℤ) → StandsFor committer.old bytes settings left right →
        IsReport settings left right report)) }
    ensures ticks { IfOk result (λ report. (report.made ≡ report.tried) × (steps.new ≡ steps.old + report.made)) }
    ensures rise { IfSome (S.left source.old) (λ bytes. (left right : List ℤ) → StandsFor committer.old bytes settings left right →
        steps.new ≤ steps.old + gains_tried settings left right) }
    ensures later_steps { steps.old ≤ steps.new }
    ensures cause { CountsFaults result (S.faults source.old) (S.faults source.new) (K.faults sink.old) (K.faults sink.new) }
    ensures later { (S.faults source.old ≤ S.faults source.new) × (K.faults sink.old ≤ K.faults sink.new) }
{
    let mut writer = FrameWriter::new(settings);
    let mut guesser = Flat::new(0);
    let mut frames = 0u32;
    let mut tried = 0u64;
    let mut made = 0u64;
    'granules: loop {
        let Ok(_) = committer.read_ahead(source) else {
            return Err(TurnFault::Read);
        };
        let Some(number) = committer.next() else {
            break;
        };
        committer.gather_alone();
        let Ok(done) = turn(committer, number, &mut guesser, &mut writer, sink, steps) else {
            return Err(TurnFault::Write);
        };
        tried += u64::from(done.tried);
        made += u64::from(done.made);
        if number.get() % 2 == 1 {
            frames += 1;
        }
    }
    match writer.finish(sink) {
        Ok(()) => Ok(Report {
            frames,
            tried,
            made,
        }),
        Err(_) => Err(TurnFault::Write),
    }
}
