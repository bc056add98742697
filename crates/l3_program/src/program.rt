ghost use Rattle.std.specs.Prelude.{◌≡◌, ◌⊎◌, ◌+◌, ◌≤◌, ◌<◌, ◌≢◌, Some, None, IfSome, IfNone, IsSomeAnd, vec_len};
ghost use Rattle.l3_encoder.specs.Changes.{source_change, sink_change};
ghost use Rattle.l3_encoder.specs.FileLaws.{FilesAreEncoded};
ghost use Rattle.l3_program.specs.Program.{DoesOrLacks, Ends, HasRun, KeepsSource, Leaves, WritesFrames, any_number};
ghost use Rattle.l3_program.specs.Promise.{Promise};
ghost use Rattle.l3_program.specs.Words.{HasFrames, HasOptions, HasWorkers, any_guess, asked, workers_of};

use crate::check::check;
use crate::demo::{demo, demo_ahead};
use crate::encode::{encode, encode_ahead};
use crate::ending::{Ending, tell};
use crate::status::Status;
use crate::words::{ANY_GUESS, Command, command_asked};
use l3_base::Steps;
use l3_encoder::{Gate, files_are_encoded};
use l3_guess::Guesser;
use l3_io::{Sink, Source};
use l3_words::NoCommand;
use std::alloc::Global;
use std::marker::Brand;
use std::sync::Wait;
use std::sync::ledger::{Blank, Ledger};
use std::thread::Threads;

// Does a command on one thread.
fn alone<S: Source, K: Sink, L: Ledger + Send>(
    alloc: Global,
    command: Command,
    source: &mut S,
    sink: &mut K,
    steps: &mut Steps<L>,
) -> Ending
    requires { HasFrames command }
    ensures ended { Ends command result (source_change S.left S.faults source.old source.new)
        (sink_change K.taken K.faults sink.old sink.new) (λ made. steps.new ≡ steps.old + made) }
    ensures later_steps { steps.old ≤ steps.new }
{
    match command {
        Command::Encode(words) => encode(alloc, words, source, sink, steps),
        Command::Check => check(source, sink),
        Command::Demo(words) => demo(alloc, words, sink, steps),
    }
}

// The same with a counter of its own.
fn alone_counted<S: Source, K: Sink, L: Ledger + Send>(
    alloc: Global,
    command: Command,
    source: &mut S,
    sink: &mut K,
    blank: Blank,
) -> Ending
    requires name { blank.name ≡ L.name }
    requires parts { blank.parts ≡ L.parts }
    requires some { 0 < blank.parts }
    requires frames { HasFrames command }
    ensures { Ends command result (source_change S.left S.faults source.old source.new)
        (sink_change K.taken K.faults sink.old sink.new) any_number }
{
    let mut steps: Steps<L> = Steps::start(blank);
    alone(alloc, command, source, sink, &mut steps)
}

// Does a command with workers.
fn ahead<S: Source, K: Sink, T: Gate + Sync, L: Ledger + Send, R: Threads + Wait + Sync>(
    rt: &R,
    alloc: Global,
    command: Command,
    source: &mut S,
    sink: &mut K,
    guessers: Vec<Box<dyn Guesser>>,
    gate: &T,
    steps: &mut Steps<L>,
) -> Ending
    requires workers { HasWorkers command }
    requires frames { HasFrames command }
    requires options { HasOptions (vec_len guessers) command }
    ensures ended { DoesOrLacks (Some command) (source_change S.left S.faults source.old source.new)
        (sink_change K.taken K.faults sink.old sink.new) (λ made. steps.new ≡ steps.old + made) result }
    ensures later_steps { steps.old ≤ steps.new }
{
    match command {
        Command::Encode(words) => {
            encode_ahead(rt, alloc, words, source, sink, guessers, gate, steps)
        }
        Command::Check => unreachable!(),
        Command::Demo(words) => demo_ahead(rt, alloc, words, sink, guessers, gate, steps),
    }
}

// Does what the words say, where they can be done on one thread.
fn outcome_alone<S: Source, K: Sink>(
    alloc: Global,
    words: &[&str],
    source: &mut S,
    sink: &mut K,
) -> Option<Ending>
    ensures ended { IfSome result (DoesOrLacks (asked any_guess words.now) (source_change S.left S.faults source.old source.new)
        (sink_change K.taken K.faults sink.old sink.new) any_number) }
    ensures workers { IsSomeAnd (asked any_guess words.now) HasWorkers → IfSome result (λ ending.
        (ending ≡ Ending.Memory) × (source.new ≡ source.old) × (sink.new ≡ sink.old)) }
    ensures none { IfNone result (IsSomeAnd (asked any_guess words.now) HasWorkers
        × (source.new ≡ source.old) × (sink.new ≡ sink.old)) }
{
    match command_asked(alloc, words, ANY_GUESS) {
        Err(NoCommand::Usage) => Some(Ending::Usage),
        Err(NoCommand::Memory) => Some(Ending::Memory),
        Ok(command) => {
            if command.has_workers() {
                None
            } else {
                Some(alone_counted::<S, K, Brand>(alloc, command, source, sink, Blank::new(1)))
            }
        }
    }
}

// Does what the words say.
fn outcome<S: Source, K: Sink, T: Gate + Sync, L: Ledger + Send, R: Threads + Wait + Sync>(
    rt: &R,
    alloc: Global,
    words: &[&str],
    source: &mut S,
    sink: &mut K,
    guessers: Vec<Box<dyn Guesser>>,
    gate: &T,
    steps: &mut Steps<L>,
) -> Ending
    ensures ended { DoesOrLacks (asked (vec_len guessers) words.now) (source_change S.left S.faults source.old source.new)
        (sink_change K.taken K.faults sink.old sink.new) (λ made. steps.new ≡ steps.old + made) result }
    ensures later_steps { steps.old ≤ steps.new }
{
    match command_asked(alloc, words, guessers.len()) {
        Err(NoCommand::Usage) => Ending::Usage,
        Err(NoCommand::Memory) => Ending::Memory,
        Ok(command) => {
            if command.has_workers() {
                ahead(rt, alloc, command, source, sink, guessers, gate, steps)
            } else {
                alone(alloc, command, source, sink, steps)
            }
        }
    }
}

/// Does what the words of the command line say on one thread, and tells notes how it ended: `None`,
/// with nothing read, written or told, where they ask for workers. It always returns.
///
/// It does what [`run`] does with such words, and does not ask how many guessers there are.
pub fn run_alone<S: Source, K: Sink, N: Sink>(
    alloc: Global,
    words: &[&str],
    source: &mut S,
    sink: &mut K,
    notes: &mut N,
) -> Option<Status>
    ensures promise { IfSome result (λ status. Promise (asked any_guess words.now) status
        (source_change S.left S.faults source.old source.new) (sink_change K.taken K.faults sink.old sink.new)
        (sink_change N.taken N.faults notes.old notes.new) any_number) }

    // None is answered just where the words ask for workers, but where there is no memory to read
    // them.
    ensures none { IfNone result (IsSomeAnd (asked any_guess words.now) HasWorkers
        × (source.new ≡ source.old) × (sink.new ≡ sink.old) × (notes.new ≡ notes.old)) }
    ensures workers { IsSomeAnd (asked any_guess words.now) HasWorkers → IfSome result (λ status.
        (status ≡ Status.Memory) × (source.new ≡ source.old) × (sink.new ≡ sink.old)) }

    // The words of `run`'s clauses.
    ensures some_frames { IfSome result (λ status. IfSome (asked any_guess words.now) (λ command.
        WritesFrames command status (sink_change K.taken K.faults sink.old sink.new))) }
    ensures untouched { result ≢ Some Status.Ok → result ≢ Some Status.ReadFault → result ≢ Some Status.WriteFault
        → sink.new ≡ sink.old }
    ensures kept { IfSome (asked any_guess words.now) (λ command.
        KeepsSource command (source_change S.left S.faults source.old source.new)) }
    ensures ending { IfSome result (λ status. HasRun (DoesOrLacks (asked any_guess words.now)
        (source_change S.left S.faults source.old source.new) (sink_change K.taken K.faults sink.old sink.new) any_number)
        status (sink_change N.taken N.faults notes.old notes.new)) }
{
    match outcome_alone(alloc, words, source, sink) {
        Some(ending) => Some(tell(notes, ending)),
        None => None,
    }
}

/// Does what the words of the command line say, and tells notes how it ended.
///
/// `encode` reads the WAV file of the source, and writes its stream as it reads, at the rate of the
/// words, 128 kbit/s where they name none; with `--stats` it tells notes how many gains were tried.
/// `check` reads a stream of at most 16777216 frames whole, in memory that does not grow, and then
/// writes one line, `frames F bits B`: how many frames there are, and the sum of their units'
/// part2_3_length. `demo` reads nothing: it encodes the signal of `l3_wav` at the rate of the words,
/// and then writes one line, `frames F bytes B sha256 D`: how many frames and bytes its stream has,
/// and its digest. Where the input is refused or there is no memory nothing is written; where a
/// read or a write failed a front of the stream may be.
///
/// With `--workers` other than 0, as by default, so many threads analyse granules ahead; `--guess`
/// names the one of these guessers that they ask, counted from 1, or with 0 the best of all. Neither
/// they nor the gate change a byte. Steps are those of the calling thread's own counts.
///
/// What the stream is for the bytes of any file, and that it reads as the chosen frames and in no
/// other way, says the clause `encoding`, the law of `l3_encoder::files_are_encoded`.
pub fn run<S: Source, K: Sink, N: Sink, T: Gate + Sync, L: Ledger + Send, R: Threads + Wait + Sync>(
    rt: &R,
    alloc: Global,
    words: &[&str],
    source: &mut S,
    sink: &mut K,
    notes: &mut N,
    guessers: Vec<Box<dyn Guesser>>,
    gate: &T,
    steps: &mut Steps<L>,
) -> Status
    // All that it promises, where so many counts are made as steps are taken.
    ensures promise { Promise (asked (vec_len guessers) words.now) result
        (source_change S.left S.faults source.old source.new) (sink_change K.taken K.faults sink.old sink.new)
        (sink_change N.taken N.faults notes.old notes.new) (λ made. steps.new ≡ steps.old + made) }
    ensures later_steps { steps.old ≤ steps.new }

    // What the stream of a file is: whatever bytes it has, the chosen frames of its samples spell
    // it and nothing else does, it reads whole as them, and each frame's main data begins at most
    // 511 bytes before it and within the main data so far.
    ensures encoding { FilesAreEncoded }

    // Whatever the source tells, what `encode` writes is a front of the stream of some frames that
    // fit, at the rate of the words, all of it at success.
    ensures some_frames { IfSome (asked (vec_len guessers) words.now) (λ command.
        WritesFrames command result (sink_change K.taken K.faults sink.old sink.new)) }
    ensures untouched { result ≢ Status.Ok → result ≢ Status.ReadFault → result ≢ Status.WriteFault
        → sink.new ≡ sink.old }

    // What is left of the source, by the status; the demo leaves it as it was.
    ensures left { IfSome (asked (vec_len guessers) words.now) (λ command. IfSome (S.left source.old) (λ bytes.
        Leaves command result bytes (S.left source.new))) }
    ensures kept { IfSome (asked (vec_len guessers) words.now) (λ command.
        KeepsSource command (source_change S.left S.faults source.old source.new)) }

    // All of this is of one ending, and notes take a front of its text, the whole of it where their
    // count did not rise.
    ensures ending { HasRun (DoesOrLacks (asked (vec_len guessers) words.now)
        (source_change S.left S.faults source.old source.new) (sink_change K.taken K.faults sink.old sink.new)
        (λ made. steps.new ≡ steps.old + made)) result (sink_change N.taken N.faults notes.old notes.new) }
{
    files_are_encoded();
    let ending = outcome(rt, alloc, words, source, sink, guessers, gate, steps);
    tell(notes, ending)
}
