//! A whole stream: the frames that a reader gives, one after the other, in a list.

ghost use Rattle.std.specs.Prelude.{◌≡◌, ◌≢◌, ◌≤◌, ◌^◌, ◌++◌, ◌∷◌, [], Ok, Err, None, Some, All, IfOk, IfErr, OnOk, IfSome, length};
ghost use Rattle.l3_io.specs.Causes.{count_after};
ghost use Rattle.l3_stream.specs.Frames.{IsCoded};
ghost use Rattle.l3_stream.specs.Deviation.{reading_of};
ghost use Rattle.l3_frames.specs.Answer.{IsFaultOf, content_in};
ghost use Rattle.l3_frames.specs.InTurn.{HasStopped};

use crate::{FrameReader, StreamFault};
use l3_base::Settings;
use l3_io::Source;
use l3_stream::ChosenFrame;
use std::alloc::Global;

/// What a stream holds.
#[derive(Drop)]
pub struct Stream {
    /// The settings that the first header tells: `None` where there are no frames.
    pub settings: Option<Settings>,
    /// The frames in their order.
    pub frames: Vec<ChosenFrame>,
}

// Puts a frame behind the others.
fn keep(frames: &mut Vec<ChosenFrame>, frame: ChosenFrame) -> Result<(), StreamFault>
    ensures kept { OnOk result (frames.new.items ≡ frames.old.items ++ frame ∷ []) }
    ensures memory { IfErr result (λ fault. fault ≡ StreamFault.Memory) }
{
    match frames.push(frame) {
        Ok(()) => Ok(()),
        Err(_) => Err(StreamFault::Memory),
    }
}

/// Reads a stream of at most `limit` frames to its end.
///
/// The frames are tried in order by the rules of reading, and the first one that refuses decides:
/// each fault but `Read` and `Memory` is the stream's first deviation, with its place. A frame
/// takes about 5 KB of memory.
pub fn read_stream<S: Source>(
    alloc: Global,
    limit: u32,
    source: &mut S,
) -> Result<Stream, StreamFault>
    requires { limit ≤ 16777216 }
    ensures content { IfOk result (λ stream. IfSome (S.left source.old)
        (λ left. reading_of limit left ≡ Ok (content_in stream))) }
    ensures fault { IfErr result (λ fault. IfSome (S.left source.old)
        (λ left. IsFaultOf fault (reading_of limit left))) }
    ensures rest { OnOk result (IfSome (S.left source.old) (λ _. S.left source.new ≡ Some [])) }
    ensures stopped { IfErr result (λ fault. IfSome (S.left source.old)
        (λ left. HasStopped limit left fault (S.left source.new))) }

    // Whatever the source tells:
    ensures few { IfOk result (λ stream. length stream.frames.items ≤ limit) }
    ensures coded { IfOk result (λ stream. IfSome stream.settings
        (λ st. All (IsCoded st) stream.frames.items)) }
    ensures none { IfOk result (λ stream. stream.settings ≡ None → stream.frames.items ≡ []) }
    ensures empty { IfOk result (λ stream. stream.frames.items ≡ [] → stream.settings ≡ None) }
    ensures later { S.faults source.old ≤ S.faults source.new }
    ensures read { result ≡ Err StreamFault.Read
        → S.faults source.new ≡ count_after (S.faults source.old) }
    ensures steady { result ≢ Err StreamFault.Read → S.faults source.new ≡ S.faults source.old }
{
    let mut frames = Vec::new(alloc);
    let mut reader = FrameReader::new(limit);
    while let Some(frame) = reader.next(source)? {
        keep(&mut frames, frame)?;
    }
    Ok(Stream {
        settings: reader.settings(),
        frames,
    })
}
