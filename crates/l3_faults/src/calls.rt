//! Each call of source and sink fails once.

ghost use Rattle.std.specs.Prelude.{◌≤◌};

use crate::running::{ZERO_SAMPLE, demo, demo_stream, encoded_freely, zero_sample};
use l3_encoder::{EncodeFault, Report};
use l3_io::{MemSink, MemSource, Sink, Source, read_full};
use std::alloc::Global;
use std::sync::Wait;
use std::thread::Threads;

// Which calls fail.
#[derive(Clone, Copy)]
enum Calls {
    Reads,
    Writes,
}

// How an encoding ended one call of which fails.
enum Ending {
    // It came to no call that fails, and wrote the stream.
    Whole,
    // It told of the fault and made no call of this kind behind it; so many of the stream's first
    // bytes were written.
    Front(usize),
}

// How an encoding ended that has written so many of a stream's first bytes, of so many: `None` if
// it should not end so. The call behind one that fails would fail too, so the next one, which the
// test makes, fails just if the encoder made none.
fn how_ended(
    answer: Result<Report, EncodeFault>,
    calls: Calls,
    next_fails: bool,
    written: usize,
    whole: usize,
) -> Option<Ending> {
    match (answer, calls) {
        (Ok(_), _) if written == whole => Some(Ending::Whole),
        (Err(EncodeFault::Read), Calls::Reads) if next_fails => Some(Ending::Front(written)),
        (Err(EncodeFault::Write), Calls::Writes) if next_fails => Some(Ending::Front(written)),
        _ => None,
    }
}

// Encodes a source to a sink, and makes one call of this kind behind it.
fn ended<R: Threads + Wait + Sync>(
    rt: &R,
    alloc: Global,
    stream: &[u8],
    ahead: u8,
    calls: Calls,
    source: &mut MemSource,
    sink: &mut MemSink,
) -> Option<Ending>
    requires { ahead ≤ 64 }
{
    let answer = encoded_freely(rt, alloc, ahead, source, sink);
    if !stream.starts_with(sink.bytes()) {
        return None;
    }
    let written = sink.bytes().len();
    let next_fails = match calls {
        Calls::Reads => source.read(&mut [0]).is_err(),
        Calls::Writes => sink.write(&[0]).is_err(),
    };
    how_ended(answer, calls, next_fails, written, stream.len())
}

// Encodes a file, where this call and the one behind it fail.
fn cut_short<R: Threads + Wait + Sync>(
    rt: &R,
    alloc: Global,
    file: &[u8],
    stream: &[u8],
    ahead: u8,
    calls: Calls,
    call: u64,
) -> Option<Ending>
    requires { ahead ≤ 64 }
{
    let named = [call, call.saturating_add(1)];
    let (reads, writes) = match calls {
        Calls::Reads => (named.as_slice(), [].as_slice()),
        Calls::Writes => ([].as_slice(), named.as_slice()),
    };
    let Ok(mut source) = MemSource::new(alloc, file, 1000, reads) else {
        return None;
    };
    let Ok(mut sink) = MemSink::new(alloc, 10000, 50, writes) else {
        return None;
    };
    ended(rt, alloc, stream, ahead, calls, &mut source, &mut sink)
}

// Lets each call fail in turn, until an encoding makes no call that fails: how many failed, and how
// many bytes the last of these had written, if each wrote no less than the one before.
fn each_fails<R: Threads + Wait + Sync>(
    rt: &R,
    alloc: Global,
    file: &[u8],
    stream: &[u8],
    ahead: u8,
    calls: Calls,
) -> Option<(u64, usize)>
    requires { ahead ≤ 64 }
{
    let mut last = 0;
    for call in 0..1000 {
        match cut_short(rt, alloc, file, stream, ahead, calls, call)? {
            Ending::Whole => return Some((call, last)),
            Ending::Front(written) if written >= last => last = written,
            Ending::Front(_) => return None,
        }
    }
    None
}

// A file of the demo, and each of its reads failed.
fn each_demo_read_fails<R: Threads + Wait + Sync>(
    rt: &R,
    alloc: Global,
    ahead: u8,
) -> Option<(u64, usize)>
    requires { ahead ≤ 64 }
{
    let mut file = [0; 44 + 8 * 4608];
    let Ok(36908) = read_full(&mut demo(), &mut file) else {
        return None;
    };
    let Some(stream) = demo_stream(rt, alloc) else {
        return None;
    };
    each_fails(rt, alloc, &file, stream.bytes(), ahead, Calls::Reads)
}

// The head takes 4 reads, and each of 16 granules 3, of 1000, 1000 and 304 bytes. Of the frames
// that were chosen two are pending, since main data may begin up to 511 bytes before its frame. So
// at the last read, which comes before granule 15 is chosen, or 4 ahead before granule 12, five
// frames are written, or four.
#[test]
fn each_read_fails(rt: HostRuntime) {
    for (ahead, written) in [(0, 417 + 4 * 418), (4, 417 + 3 * 418)] {
        let ends = each_demo_read_fails(&rt, rt.alloc(), ahead);
        assert!(rt; ends == Some((52, written)));
    }
}

// Of each frame there are 21 bytes before its slot, in one write, and 396 and 397 in it, in eight.
#[test]
fn each_write_fails(rt: HostRuntime) {
    let stream = zero_sample();
    for ahead in [0, 4] {
        let ends = each_fails(&rt, rt.alloc(), &ZERO_SAMPLE, &stream, ahead, Calls::Writes);
        assert!(rt; ends == Some((18, 417 + 21 + 350)));
    }
}
