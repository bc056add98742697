//! How the tests run the encoder, and which bytes they wait for.

ghost use Rattle.std.specs.Prelude.{◌≡◌, ◌<◌, ◌≤◌};

use l3_base::{Rate, Steps};
use l3_encoder::{EncodeFault, Gate, Lanes, OpenGate, Report, encode_alone, encode_with};
use l3_guess::{Guesser, Last};
use l3_io::{MemSink, Source};
use l3_wav::{DemoSource, demo_source};
use std::alloc::Global;
use std::marker::Brand;
use std::sync::Wait;
use std::sync::ledger::{Blank, Ledger};
use std::thread::Threads;

/// A file of one zero sample of one channel at 44100 Hz.
pub const ZERO_SAMPLE: [u8; 46] =
    *b"RIFF\x26\0\0\0WAVEfmt \x10\0\0\0\x01\0\x01\0\x44\xAC\0\0\x88\x58\x01\0\x02\0\x10\0data\x02\0\0\0\0\0";

/// The stream of one zero sample: one channel, 44100 Hz, 128 kbit/s; main_data_begin of the second
/// frame is 396.
pub fn zero_sample() -> [u8; 835] {
    let mut stream = [0; 835];
    stream[..4].copy_from_slice(&[0xFF, 0xFB, 0x90, 0xC0]);
    stream[417..423].copy_from_slice(&[0xFF, 0xFB, 0x92, 0xC0, 0xC6, 0x00]);
    stream
}

/// A file of eight frames of samples of two channels, as it is made.
pub fn demo() -> DemoSource {
    demo_source(8, 1)
}

// Encodes at 128 kbit/s, with a counter of its own.
fn counted<L: Ledger + Send, S: Source, G: Guesser, T: Gate + Sync, R: Threads + Wait + Sync>(
    blank: Blank,
    rt: &R,
    alloc: Global,
    ahead: u8,
    guesser: &mut G,
    gate: &T,
    source: &mut S,
    sink: &mut MemSink,
) -> Result<Report, EncodeFault>
    requires name { blank.name ≡ L.name }
    requires parts { blank.parts ≡ L.parts }
    requires some { 0 < blank.parts }
    requires most { ahead ≤ 64 }
{
    let mut steps: Steps<L> = Steps::start(blank);
    if ahead == 0 {
        return encode_alone(alloc, Rate::K128, source, sink, &mut steps);
    }
    let lanes = Lanes { workers: 2, ahead };
    encode_with(
        rt,
        alloc,
        Rate::K128,
        lanes,
        guesser,
        gate,
        source,
        sink,
        &mut steps,
    )
}

/// Encodes at 128 kbit/s: with two workers so many granules ahead, or with none on one thread.
pub fn encoded<S: Source, G: Guesser, T: Gate + Sync, R: Threads + Wait + Sync>(
    rt: &R,
    alloc: Global,
    ahead: u8,
    guesser: &mut G,
    gate: &T,
    source: &mut S,
    sink: &mut MemSink,
) -> Result<Report, EncodeFault>
    requires { ahead ≤ 64 }
{
    counted::<Brand, S, G, T, R>(Blank::new(1), rt, alloc, ahead, guesser, gate, source, sink)
}

/// The same with a guesser that guesses well, and nobody held.
pub fn encoded_freely<S: Source, R: Threads + Wait + Sync>(
    rt: &R,
    alloc: Global,
    ahead: u8,
    source: &mut S,
    sink: &mut MemSink,
) -> Result<Report, EncodeFault>
    requires { ahead ≤ 64 }
{
    encoded(rt, alloc, ahead, &mut Last::new(), &OpenGate, source, sink)
}

/// How many frames an encoding gave.
pub fn frames_of(answer: Result<Report, EncodeFault>) -> Result<u32, EncodeFault> {
    match answer {
        Ok(report) => Ok(report.frames),
        Err(fault) => Err(fault),
    }
}

/// A sink with room for each stream here.
pub fn wide_sink(alloc: Global) -> Option<MemSink> {
    MemSink::new(alloc, 10000, 300, &[]).ok()
}

/// A sink with the stream of the demo's file, as one thread gives it.
pub fn demo_stream<R: Threads + Wait + Sync>(rt: &R, alloc: Global) -> Option<MemSink> {
    let Some(mut sink) = wide_sink(alloc) else {
        return None;
    };
    let _ = encoded_freely(rt, alloc, 0, &mut demo(), &mut sink);
    Some(sink)
}
