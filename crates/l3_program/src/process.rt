//! The arguments of the process as words, and its exit status.

ghost use Rattle.std.specs.Prelude.{◌≡◌, ◌<◌, IfErr, IfOk, drop, map, string_bytes, vec_len};
ghost use Rattle.std.specs.Process.{exit_status};
ghost use Rattle.l3_encoder.specs.Changes.{sink_change, source_change};
ghost use Rattle.l3_program.specs.Program.{DoesOrLacks, EndsUntouched, HasExited, HasRun, any_number, ending_without};
ghost use Rattle.l3_program.specs.Words.{command_in};

use crate::ending::{Ending, tell};
use crate::program::run;
use crate::status::Status;
use l3_base::Steps;
use l3_encoder::Gate;
use l3_guess::Guesser;
use l3_io::{Sink, Source};
use std::alloc::{AllocError, Global};
use std::env;
use std::io::ErrorKind;
use std::marker::Brand;
use std::process::ExitCode;
use std::sync::Wait;
use std::sync::ledger::{Blank, Ledger};
use std::thread::Threads;

/// Why the arguments of the process could not be had.
#[derive(Clone, Copy, Debug, PartialEq, Eq)]
pub enum NoWords {
    /// One of them is no UTF-8.
    NotText,
    /// There is no memory for them.
    Memory,
}

/// The arguments of the process, of which the first is the program's name. What they are no clause
/// can say.
pub fn arguments(rt: &HostRuntime) -> Result<Vec<String>, NoWords> {
    match env::args(rt) {
        Ok(all) => all.collect(rt.alloc()).map_err(|_| NoWords::Memory),
        Err(error) => match error.kind() {
            ErrorKind::InvalidData => Err(NoWords::NotText),
            _ => Err(NoWords::Memory),
        },
    }
}

// The words after the program's name.
fn words_after_name(alloc: Global, arguments: &[String]) -> Result<Vec<&str>, AllocError>
    ensures { IfOk result (λ words. map (λ word. word.now) words.items ≡ drop 1 (map string_bytes arguments.now)) }
{
    let mut words = Vec::new(alloc);
    if let Some((_, rest)) = arguments.split_first() {
        for argument in rest {
            words.push(argument.as_str())?;
        }
    }
    Ok(words)
}

// Does what the arguments of the process ask for, with a counter of its own.
fn run_arguments<
    S: Source,
    K: Sink,
    N: Sink,
    T: Gate + Sync,
    L: Ledger + Send,
    R: Threads + Wait + Sync,
>(
    rt: &R,
    alloc: Global,
    arguments: &[String],
    source: &mut S,
    sink: &mut K,
    notes: &mut N,
    guessers: Vec<Box<dyn Guesser>>,
    gate: &T,
    blank: Blank,
) -> Status
    requires name { blank.name ≡ L.name }
    requires parts { blank.parts ≡ L.parts }
    requires some { 0 < blank.parts }
    ensures { HasRun (DoesOrLacks (command_in (vec_len guessers) (drop 1 (map string_bytes arguments.now)))
        (source_change S.left S.faults source.old source.new) (sink_change K.taken K.faults sink.old sink.new)
        any_number) result (sink_change N.taken N.faults notes.old notes.new) }
{
    let Ok(words) = words_after_name(alloc, arguments) else {
        return tell(notes, Ending::Memory);
    };
    let mut steps: Steps<L> = Steps::start(blank);
    run(
        rt,
        alloc,
        words.as_slice(),
        source,
        sink,
        notes,
        guessers,
        gate,
        &mut steps,
    )
}

/// Does what the arguments of the process ask for, and gives its exit status: the number of the
/// run's status.
///
/// Where one of them is no UTF-8 the words are refused. Where there is no memory for them, that is
/// told.
pub fn start<S: Source, K: Sink, N: Sink, T: Gate + Sync, R: Threads + Wait + Sync>(
    rt: &R,
    alloc: Global,
    arguments: Result<Vec<String>, NoWords>,
    source: &mut S,
    sink: &mut K,
    notes: &mut N,
    guessers: Vec<Box<dyn Guesser>>,
    gate: &T,
) -> ExitCode
    ensures ran { IfOk arguments (λ texts. HasExited (DoesOrLacks (command_in (vec_len guessers) (drop 1 (map string_bytes texts.items)))
        (source_change S.left S.faults source.old source.new) (sink_change K.taken K.faults sink.old sink.new)
        any_number) (exit_status result) (sink_change N.taken N.faults notes.old notes.new)) }
    ensures no_words { IfErr arguments (λ why. HasExited (EndsUntouched (ending_without why)
        (source_change S.left S.faults source.old source.new) (sink_change K.taken K.faults sink.old sink.new))
        (exit_status result) (sink_change N.taken N.faults notes.old notes.new)) }
{
    let status = match arguments {
        Ok(texts) => run_arguments::<S, K, N, T, Brand, R>(
            rt,
            alloc,
            texts.as_slice(),
            source,
            sink,
            notes,
            guessers,
            gate,
            Blank::new(1),
        ),
        Err(NoWords::NotText) => tell(notes, Ending::Usage),
        Err(NoWords::Memory) => tell(notes, Ending::Memory),
    };
    ExitCode::from(status.number())
}
