//! Where a reader of frames stands, and one step of it.

ghost use Rattle.std.specs.Prelude.{◌≡◌, ◌≢◌, ◌≤◌, ◌^◌, Err, None, Some, IfErr, IfNone, IfOk, IfSome, OnErr};
ghost use Rattle.l3_io.specs.Causes.{count_after};
ghost use Rattle.l3_stream.specs.Faults.{or_fault};
ghost use Rattle.l3_frames.specs.InTurn.{BeginsWithFrame, GivesFrame, HasEnded, LeavesBehind, bytes_by, nothing_read, settings_by, still_read};
ghost use Rattle.l3_frames.specs.Steps.{IsSound, progress_of};

use crate::StreamFault;
use crate::frame::first_settings;
use crate::frames::{read_header_bytes, read_whole, test_rest};
use crate::tape::Tape;
use l3_base::Settings;
use l3_io::Source;
use l3_stream::ChosenFrame;

// Where a reader stands: the settings of the first header, where a frame was read, and the tape.
#[derive(Drop)]
pub(crate) struct Standing {
    pub(crate) limit: u32,
    pub(crate) settings: Option<Settings>,
    pub(crate) tape: Tape,
}

impl Standing {
    // Before the first frame.
    pub(crate) fn start(limit: u32) -> Standing
        requires { limit ≤ 16777216 }
        ensures sound { IsSound result }
        ensures place { progress_of result None ≡ nothing_read limit }
    {
        Standing {
            limit,
            settings: None,
            tape: Tape::start(),
        }
    }
}

// The settings of the frame with this header: those of the first header, which is this one where no
// frame was read.
fn settings_under(settings: Option<Settings>, header: &[u8; 4]) -> Result<Settings, StreamFault>
    ensures { result ≡ or_fault (StreamFault.BadHeader 0) (settings_by settings header.now) }
{
    if let Some(settings) = settings {
        return Ok(settings);
    }
    match first_settings(header) {
        Some(settings) => Ok(settings),
        None => Err(StreamFault::BadHeader(0)),
    }
}

// Reads the next frame: `None` where the stream has ended.
pub(crate) fn read_next<S: Source>(
    standing: &mut Standing,
    source: &mut S,
) -> Result<Option<ChosenFrame>, StreamFault>
    requires sound { IsSound standing.old }
    ensures frame { IfOk result
        (λ next. IfSome next (λ frame. GivesFrame (progress_of standing.old None)
        (progress_of standing.new None) frame)) }
    ensures begins { IfOk result (λ next. IfSome next (λ frame. IfSome (S.left source.old) (λ left.
        BeginsWithFrame (progress_of standing.old None) (progress_of standing.new None) frame
        left (S.left source.new)))) }
    ensures end { IfOk result
        (λ next. IfNone next (progress_of standing.new None ≡ progress_of standing.old None)) }
    ensures ended { IfOk result (λ next. IfNone next (IfSome (S.left source.old)
        (λ left. HasEnded (progress_of standing.old None) left (S.left source.new)))) }
    ensures deviation { IfErr result (λ fault. fault ≢ StreamFault.Read → IfSome (S.left source.old)
        (λ left. still_read (progress_of standing.old None) left ≡ Err fault)) }
    ensures gone { IfErr result (λ fault. IfSome (S.left source.old) (λ left.
        LeavesBehind fault (bytes_by (settings_by standing.old.settings left) standing.old.tape.number)
        left (S.left source.new))) }
    ensures stopped { OnErr result (progress_of standing.new None ≡ progress_of standing.old None) }
    ensures sound { IsSound standing.new }
    ensures memory { result ≢ Err StreamFault.Memory }
    ensures later { S.faults source.old ≤ S.faults source.new }
    ensures read { result ≡ Err StreamFault.Read
        → S.faults source.new ≡ count_after (S.faults source.old) }
    ensures steady { result ≢ Err StreamFault.Read → S.faults source.new ≡ S.faults source.old }
{
    let limit = u64::from(standing.limit);
    let found = read_header_bytes(source, limit, standing.tape.number, standing.tape.at)?;
    let Some(header) = found else {
        test_rest(&standing.tape)?;
        return Ok(None);
    };
    let settings = settings_under(standing.settings, &header)?;
    let frame = read_whole(source, &settings, &mut standing.tape, &header)?;
    standing.settings = Some(settings);
    Ok(Some(frame))
}
