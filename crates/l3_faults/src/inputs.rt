//! Heads that are cut, and sinks that are full.

ghost use Rattle.std.specs.Prelude.{◌≤◌};

use crate::running::{ZERO_SAMPLE, encoded_freely, frames_of, wide_sink, zero_sample};
use l3_encoder::EncodeFault;
use l3_io::{MemSink, MemSource};
use l3_wav::WavFault;
use std::alloc::Global;
use std::sync::Wait;
use std::thread::Threads;

// A head of one channel at 44100 Hz with a comment of 27 bytes and one to fill it up, whose data is
// empty.
const HEAD: [u8; 80] =
    *b"RIFF\x48\0\0\0WAVEfmt \x10\0\0\0\x01\0\x01\0\x44\xAC\0\0\x88\x58\x01\0\x02\0\x10\0LIST\x1B\0\0\0INFOISFT\x0F\0\0\0Lavf59.27.100\0\0\0data\0\0\0\0";

// Encodes this much of the head: how many frames were given, if no byte was written.
fn head_encoded<R: Threads + Wait + Sync>(
    rt: &R,
    alloc: Global,
    ahead: u8,
    length: usize,
) -> Option<Result<u32, EncodeFault>>
    requires { ahead ≤ 64 }
{
    let Some(mut sink) = wide_sink(alloc) else {
        return None;
    };
    let Ok(mut source) = MemSource::new(alloc, HEAD.get(..length).unwrap_or(&[]), 7, &[]) else {
        return None;
    };
    let answer = encoded_freely(rt, alloc, ahead, &mut source, &mut sink);
    if sink.bytes().is_empty() {
        Some(frames_of(answer))
    } else {
        None
    }
}

#[test]
fn head_cut_at_each_byte(rt: HostRuntime) {
    let refused = Err(EncodeFault::Wav(WavFault::HeaderEnds));
    for ahead in [0, 4] {
        for length in 0..81 {
            let wanted = if length < 80 { refused } else { Ok(0) };
            let found = head_encoded(&rt, rt.alloc(), ahead, length);
            assert!(rt; found == Some(wanted), "at {length}");
        }
    }
}

// Encodes one zero sample to a sink of so much room: how many frames were given, if just so many
// bytes of the stream were written.
fn sample_encoded<R: Threads + Wait + Sync>(
    rt: &R,
    alloc: Global,
    ahead: u8,
    room: usize,
) -> Option<Result<u32, EncodeFault>>
    requires { ahead ≤ 64 }
{
    let Ok(mut sink) = MemSink::new(alloc, room, 300, &[]) else {
        return None;
    };
    let Ok(mut source) = MemSource::new(alloc, &ZERO_SAMPLE, 100, &[]) else {
        return None;
    };
    let answer = encoded_freely(rt, alloc, ahead, &mut source, &mut sink);
    if zero_sample().get(..room) == Some(sink.bytes()) {
        Some(frames_of(answer))
    } else {
        None
    }
}

#[test]
fn sink_full_at_each_byte(rt: HostRuntime) {
    for ahead in [0, 4] {
        for room in 0..836 {
            let wanted = if room < 835 {
                Err(EncodeFault::Write)
            } else {
                Ok(2)
            };
            let found = sample_encoded(&rt, rt.alloc(), ahead, room);
            assert!(rt; found == Some(wanted), "at {room}");
        }
    }
}
