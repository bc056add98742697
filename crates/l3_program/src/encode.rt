//! A WAV file -> its stream, and how that ends.

ghost use Rattle.std.specs.Prelude.{◌≡◌, ◌+◌, ◌≤◌, ◌<◌, Some, vec_len};
ghost use Rattle.l3_encoder.specs.Changes.{source_change, sink_change};
ghost use Rattle.l3_program.specs.Program.{DoesOrLacks, Ends, encoded_ending, ending_by};
ghost use Rattle.l3_program.specs.Words.{AreWithin};
ghost use Rattle.l3_program.specs.declared.words.Command.TheVariants as command;

use crate::ending::Ending;
use crate::guess::guesser_asked;
use l3_base::Steps;
use l3_encoder::{EncodeFault, Gate, Lanes, Report, encode_alone, encode_with};
use l3_guess::Guesser;
use l3_io::{Sink, Source};
use l3_words::{EncodeWords, EncoderOptions};
use std::alloc::Global;
use std::sync::Wait;
use std::sync::ledger::Ledger;
use std::thread::Threads;

// How an encoding ends: a file that is encoded with statistics where they are wanted.
fn ending(words: EncodeWords, answer: Result<Report, EncodeFault>) -> Ending
    ensures { result ≡ ending_by words answer }
{
    match answer {
        Ok(report) => encoded(words.stats, report),
        Err(EncodeFault::Memory) => Ending::Memory,
        Err(EncodeFault::Wav(fault)) => Ending::Refused(fault),
        Err(EncodeFault::Read) => Ending::ReadFault,
        Err(EncodeFault::Write) => Ending::WriteFault,
    }
}

// How a file ends that is encoded.
fn encoded(stats: bool, report: Report) -> Ending
    ensures { result ≡ encoded_ending stats report }
{
    if stats {
        Ending::Counted(report)
    } else {
        Ending::Done
    }
}

/// The workers that options ask for.
pub fn lanes(options: EncoderOptions) -> Lanes
    ensures workers { result.workers ≡ options.workers }
    ensures ahead { result.ahead ≡ options.ahead }
{
    Lanes {
        workers: options.workers,
        ahead: options.ahead,
    }
}

/// Encodes a WAV file as these words say, on one thread.
pub fn encode<S: Source, K: Sink, L: Ledger + Send>(
    alloc: Global,
    words: EncodeWords,
    source: &mut S,
    sink: &mut K,
    steps: &mut Steps<L>,
) -> Ending
    ensures ended { Ends (command.Encode words) result (source_change S.left S.faults source.old source.new)
        (sink_change K.taken K.faults sink.old sink.new) (λ made. steps.new ≡ steps.old + made) }
    ensures later_steps { steps.old ≤ steps.new }
{
    let answer = encode_alone(alloc, words.options.rate, source, sink, steps);
    ending(words, answer)
}

/// Encodes a WAV file as these words say, with workers, of which there is at least one.
pub fn encode_ahead<S: Source, K: Sink, T: Gate + Sync, L: Ledger + Send, R: Threads + Wait + Sync>(
    rt: &R,
    alloc: Global,
    words: EncodeWords,
    source: &mut S,
    sink: &mut K,
    guessers: Vec<Box<dyn Guesser>>,
    gate: &T,
    steps: &mut Steps<L>,
) -> Ending
    requires some { 0 < words.options.workers }
    requires options { AreWithin (vec_len guessers) words.options }
    ensures ended { DoesOrLacks (Some (command.Encode words)) (source_change S.left S.faults source.old source.new)
        (sink_change K.taken K.faults sink.old sink.new) (λ made. steps.new ≡ steps.old + made) result }
    ensures later_steps { steps.old ≤ steps.new }
{
    let options = words.options;
    let Ok(mut guesser) = guesser_asked(alloc, guessers, options.guess) else {
        return Ending::Memory;
    };
    let lanes = lanes(options);
    let answer = encode_with(
        rt,
        alloc,
        options.rate,
        lanes,
        &mut guesser,
        gate,
        source,
        sink,
        steps,
    );
    ending(words, answer)
}
