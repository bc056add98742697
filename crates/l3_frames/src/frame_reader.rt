//! A stream read frame by frame, in memory that does not grow.

ghost use Rattle.std.specs.Prelude.{◌≡◌, ◌≢◌, ◌≤◌, ◌^◌, None, Some, Err, IfOk, IfErr, IfSome, IfNone};
ghost use Rattle.l3_io.specs.Causes.{count_after};
ghost use Rattle.l3_frames.specs.InTurn.{BeginsWithFrame, GivesFrame, HasEnded, LeavesBehind, bytes_by, nothing_read, settings_by, still_read};

use crate::StreamFault;
use crate::standing::{Standing, read_next};
use l3_base::Settings;
use l3_io::Source;
use l3_stream::ChosenFrame;
use std::marker::Model;

/// Reads the frames of a stream from a source, one after the other.
///
/// It keeps 4 KB of the joined main data, whatever the length of the stream, and no call takes
/// memory.
#[derive(Drop)]
pub struct FrameReader {
    standing: Standing,
    fault: Option<StreamFault>,
}

impl Model for FrameReader {
    ghost use Rattle.std.specs.Prelude.{◌≢◌, Some};
    ghost use Rattle.l3_stream.specs.declared.fault.StreamFault.TheVariants as faults;
    ghost use Rattle.l3_frames.specs.InTurn.{Progress};
    ghost use Rattle.l3_frames.specs.Steps.{IsSound, progress_of};

    ghost Value = { Progress };

    ghost view = { λ r. progress_of r.standing r.fault };

    ghost invariant = { λ r. IsSound r.standing × (r.fault ≢ Some faults.Memory) };
}

impl FrameReader {
    /// Before the first frame of a stream of at most `limit` frames.
    pub fn new(limit: u32) -> FrameReader
        requires { limit ≤ 16777216 }
        ensures { result ≡ nothing_read limit }
    {
        FrameReader {
            standing: Standing::start(limit),
            fault: None,
        }
    }

    /// The settings that the first header told: `None` before the first frame.
    pub fn settings(&self) -> Option<Settings>
        ensures { result ≡ self.now.settings }
    {
        self.standing.settings
    }

    /// Reads the next frame: `None` where the stream has ended.
    ///
    /// Errors: each fault but `Read` is the first deviation of the stream, with its place. Reading
    /// stops there: each later call answers the same fault and reads nothing.
    pub fn next<S: Source>(&mut self, source: &mut S) -> Result<Option<ChosenFrame>, StreamFault>
        ensures frame { IfOk result (λ next. IfSome next (λ frame. GivesFrame self.old self.new frame)) }
        ensures begins { IfOk result (λ next. IfSome next (λ frame. IfSome (S.left source.old) (λ left.
            BeginsWithFrame self.old self.new frame left (S.left source.new)))) }
        ensures end { IfOk result (λ next. IfNone next ((self.new ≡ self.old) × (self.old.fault ≡ None))) }
        ensures ended { IfOk result (λ next. IfNone next (IfSome (S.left source.old) (λ left.
            HasEnded self.old left (S.left source.new)))) }
        ensures deviation { IfErr result (λ fault. fault ≢ StreamFault.Read → IfSome (S.left source.old) (λ left.
            still_read self.old left ≡ Err fault)) }
        ensures gone { self.old.fault ≡ None → IfErr result (λ fault. IfSome (S.left source.old) (λ left.
            LeavesBehind fault (bytes_by (settings_by self.old.settings left) self.old.place.number)
            left (S.left source.new))) }
        ensures stopped { IfErr result (λ fault. self.new ≡ record self.old { fault = Some fault }) }
        ensures again { IfSome self.old.fault (λ fault. (result ≡ Err fault) × (source.new ≡ source.old)) }

        // It takes no memory, and where a read failed the answer is a read fault.
        ensures memory { result ≢ Err StreamFault.Memory }
        ensures later { S.faults source.old ≤ S.faults source.new }
        ensures read { self.old.fault ≡ None → result ≡ Err StreamFault.Read
            → S.faults source.new ≡ count_after (S.faults source.old) }
        ensures steady { result ≢ Err StreamFault.Read → S.faults source.new ≡ S.faults source.old }
    {
        if let Some(fault) = self.fault {
            return Err(fault);
        }
        match read_next(&mut self.standing, source) {
            Ok(next) => Ok(next),
            Err(fault) => {
                self.fault = Some(fault);
                Err(fault)
            }
        }
    }
}
