//! A signal that is made of a number -> its stream, and the line that tells its digest.

ghost use Rattle.std.specs.Prelude.{◌≡◌, ◌≤◌, ◌<◌, ◌++◌, ℕ, List, Some, codes, decimal, IfOk, IfErr, vec_len};
ghost use Rattle.hex.specs.Hex.{encode_lower};
ghost use Rattle.l3_encoder.specs.Changes.{sink_change};
ghost use Rattle.l3_encoder.specs.Encoded.{IsAccepted};
ghost use Rattle.l3_io.specs.Causes.{HasCause};
ghost use Rattle.l3_io.specs.Taken.{Writes, length_of};
ghost use Rattle.sha2.specs.Sha256.{sha256};
ghost use Rattle.l3_program.specs.Demo.{IsSummary, digest_line, file_for};
ghost use Rattle.l3_program.specs.Program.{DoesOrLacks, Ends, any_number, no_source};
ghost use Rattle.l3_program.specs.Words.{AreWithin};
ghost use Rattle.l3_program.specs.declared.words.Command.TheVariants as command;

use crate::encode::lanes;
use crate::ending::Ending;
use crate::guess::guesser_asked;
use arrayvec::ArrayString;
use hex::encode_to_slice;
use itoa::Buffer;
use l3_base::{Steps, WriteFault};
use l3_encoder::{EncodeFault, Gate, Report, encode_alone, encode_with};
use l3_guess::Guesser;
use l3_io::{DigestSink, Sink, write_all};
use l3_wav::demo_source;
use l3_words::DemoWords;
use std::alloc::{AllocError, Global};
use std::sync::Wait;
use std::sync::ledger::Ledger;
use std::thread::Threads;

// What is told of a stream.
#[derive(Clone, Copy)]
struct Summary {
    // how many frames there are
    frames: u32,
    // how many bytes
    bytes: u64,
    // the SHA-256 digest of them
    digest: [u8; 32],
}

// What is told of a stream that was given to a digest.
fn summed(report: Report, stream: DigestSink) -> Summary
    ensures frames { result.frames ≡ report.frames }
    ensures bytes { (list : List ℕ) → ⟦<DigestSink as Sink>⟧.taken stream list → result.bytes ≡ length_of list }
    ensures digest { (list : List ℕ) → ⟦<DigestSink as Sink>⟧.taken stream list → result.digest ≡ sha256 list }
{
    Summary {
        frames: report.frames,
        bytes: stream.length(),
        digest: stream.finish(),
    }
}

// Encodes the signal that words ask for, on one thread.
fn encode_signal<L: Ledger + Send>(
    alloc: Global,
    words: DemoWords,
    steps: &mut Steps<L>,
) -> Result<Summary, AllocError>
    requires few { 1 ≤ words.frames }
    requires most { words.frames ≤ 100000 }
    ensures summary { IfOk result (IsSummary words.options.rate (file_for words)) }
    ensures memory { IfErr result (λ _. IsAccepted (file_for words)) }
    ensures later_steps { steps.old ≤ steps.new }
{
    let mut source = demo_source(words.frames, words.seed);
    let mut stream = DigestSink::new();
    match encode_alone(alloc, words.options.rate, &mut source, &mut stream, steps) {
        Ok(report) => Ok(summed(report, stream)),
        Err(EncodeFault::Memory) => Err(AllocError),
        Err(EncodeFault::Wav(_)) => unreachable!(),
        Err(EncodeFault::Read) => unreachable!(),
        Err(EncodeFault::Write) => unreachable!(),
    }
}

// The same with workers, of which there is at least one.
fn encode_signal_ahead<G: Guesser, T: Gate + Sync, L: Ledger + Send, R: Threads + Wait + Sync>(
    rt: &R,
    alloc: Global,
    words: DemoWords,
    guesser: &mut G,
    gate: &T,
    steps: &mut Steps<L>,
) -> Result<Summary, AllocError>
    requires few { 1 ≤ words.frames }
    requires most { words.frames ≤ 100000 }
    requires workers { (1 ≤ words.options.workers) × (words.options.workers ≤ 16) }
    requires ahead { (1 ≤ words.options.ahead) × (words.options.ahead ≤ 64) }
    ensures summary { IfOk result (IsSummary words.options.rate (file_for words)) }
    ensures memory { IfErr result (λ _. IsAccepted (file_for words)) }
    ensures later_steps { steps.old ≤ steps.new }
{
    let DemoWords {
        options,
        frames,
        seed,
    } = words;
    let lanes = lanes(options);
    let mut source = demo_source(frames, seed);
    let mut stream = DigestSink::new();
    match encode_with(
        rt,
        alloc,
        options.rate,
        lanes,
        guesser,
        gate,
        &mut source,
        &mut stream,
        steps,
    ) {
        Ok(report) => Ok(summed(report, stream)),
        Err(EncodeFault::Memory) => Err(AllocError),
        Err(EncodeFault::Wav(_)) => unreachable!(),
        Err(EncodeFault::Read) => unreachable!(),
        Err(EncodeFault::Write) => unreachable!(),
    }
}

// The line up to the digest.
fn front(summary: &Summary) -> ArrayString<64>
    ensures { result.bytes ≡ codes "frames " ++ decimal summary.now.frames
        ++ codes " bytes " ++ decimal summary.now.bytes ++ codes " sha256 " }
{
    let mut digits = Buffer::new();
    let mut front = ArrayString::new();
    front.push_str("frames ");
    front.push_str(digits.format(summary.frames));
    front.push_str(" bytes ");
    front.push_str(digits.format(summary.bytes));
    front.push_str(" sha256 ");
    front
}

// A digest in lower-case hexadecimal digits.
fn digits(digest: [u8; 32]) -> [u8; 64]
    ensures { result ≡ encode_lower digest }
{
    let mut digits = [0; 64];
    // There is just room for them, so it never fails.
    let _ = encode_to_slice(digest, &mut digits);
    digits
}

// Gives the line of a stream to a sink.
fn write_line<K: Sink>(sink: &mut K, summary: &Summary) -> Result<(), WriteFault>
    ensures bytes { Writes (K.taken sink.old) (K.taken sink.new) result
        (digest_line summary.now.frames summary.now.bytes summary.now.digest) }
    ensures cause { HasCause (K.faults sink.old) (K.faults sink.new) result }
{
    match write_all(sink, front(summary).as_bytes()) {
        Ok(()) => write_rest(sink, summary.digest),
        Err(fault) => Err(fault),
    }
}

// Gives a digest and the end of the line to a sink.
fn write_rest<K: Sink>(sink: &mut K, digest: [u8; 32]) -> Result<(), WriteFault>
    ensures bytes { Writes (K.taken sink.old) (K.taken sink.new) result (encode_lower digest ++ codes "\n") }
    ensures cause { HasCause (K.faults sink.old) (K.faults sink.new) result }
{
    match write_all(sink, &digits(digest)) {
        Ok(()) => write_all(sink, b"\n"),
        Err(fault) => Err(fault),
    }
}

// Tells what there is to be told of a signal's stream.
fn told<K: Sink>(sink: &mut K, words: DemoWords, answer: Result<Summary, AllocError>) -> Ending
    requires summary { IfOk answer (IsSummary words.options.rate (file_for words)) }
    requires memory { IfErr answer (λ _. IsAccepted (file_for words)) }
    ensures { Ends (command.Demo words) result no_source (sink_change K.taken K.faults sink.old sink.new) any_number }
{
    let summary = match answer {
        Ok(summary) => summary,
        Err(_) => return Ending::Memory,
    };
    match write_line(sink, &summary) {
        Ok(()) => Ending::Done,
        Err(_) => Ending::WriteFault,
    }
}

/// Encodes the signal that words ask for, and then gives the line of its stream to a sink. It reads
/// no source, and keeps no byte of the stream. There are 1 to 100000 frames.
pub fn demo<K: Sink, L: Ledger + Send>(
    alloc: Global,
    words: DemoWords,
    sink: &mut K,
    steps: &mut Steps<L>,
) -> Ending
    requires few { 1 ≤ words.frames }
    requires most { words.frames ≤ 100000 }
    ensures ended { Ends (command.Demo words) result no_source (sink_change K.taken K.faults sink.old sink.new) any_number }
    ensures later_steps { steps.old ≤ steps.new }
{
    let answer = encode_signal(alloc, words, steps);
    told(sink, words, answer)
}

/// The same with workers, of which there is at least one.
pub fn demo_ahead<K: Sink, T: Gate + Sync, L: Ledger + Send, R: Threads + Wait + Sync>(
    rt: &R,
    alloc: Global,
    words: DemoWords,
    sink: &mut K,
    guessers: Vec<Box<dyn Guesser>>,
    gate: &T,
    steps: &mut Steps<L>,
) -> Ending
    requires few { 1 ≤ words.frames }
    requires most { words.frames ≤ 100000 }
    requires some { 0 < words.options.workers }
    requires options { AreWithin (vec_len guessers) words.options }
    ensures ended { DoesOrLacks (Some (command.Demo words)) no_source
        (sink_change K.taken K.faults sink.old sink.new) any_number result }
    ensures later_steps { steps.old ≤ steps.new }
{
    let Ok(mut guesser) = guesser_asked(alloc, guessers, words.options.guess) else {
        return Ending::Memory;
    };
    let answer = encode_signal_ahead(rt, alloc, words, &mut guesser, gate, steps);
    told(sink, words, answer)
}
