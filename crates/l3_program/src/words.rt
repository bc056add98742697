ghost use Rattle.std.specs.Prelude.{◌≡◌, ◌<◌, true, Err, IfOk, IsSome, None, Some};
ghost use Rattle.l3_words.specs.Words.{texts_of, word_of};
ghost use Rattle.l3_program.specs.Words.{HasFrames, HasOptions, asked};

use l3_words::{DemoWords, EncodeWords, NoCommand, read_command};
use std::alloc::Global;

/// As many guessers as a guess can ask for.
pub const ANY_GUESS: usize = 255;

/// What the words of the command line ask for.
#[derive(Clone, Copy, Debug, PartialEq, Eq)]
pub enum Command {
    /// To encode a WAV file.
    Encode(EncodeWords),
    /// To check a stream.
    Check,
    /// To encode a signal that is made of a number, and to tell the digest of its stream.
    Demo(DemoWords),
}

impl Command {
    ghost use Rattle.std.specs.Prelude.{◌≡◌, ◌<◌, true, false};
    ghost use Rattle.l3_program.specs.Words.{HasWorkers, workers_of};

    /// Whether it is to be done with workers.
    pub fn has_workers(self) -> bool
        ensures with { result ≡ true → HasWorkers self }
        ensures alone { result ≡ false → workers_of self ≡ 0 }
    {
        match self {
            Command::Encode(words) => words.options.workers > 0,
            Command::Check => false,
            Command::Demo(words) => words.options.workers > 0,
        }
    }
}

/// The command that the words of the command line ask for, where there are so many guessers.
///
/// Errors: the words are refused, or there was no memory to read them, which comes only behind the
/// word of a command.
pub fn command_asked(alloc: Global, words: &[&str], guessers: usize) -> Result<Command, NoCommand>
    ensures command { IfOk result (λ command. asked guessers words.now ≡ Some command) }
    ensures frames { IfOk result HasFrames }
    ensures options { IfOk result (HasOptions guessers) }
    ensures usage { result ≡ Err NoCommand.Usage → asked guessers words.now ≡ None }
    ensures memory { result ≡ Err NoCommand.Memory → IsSome (word_of (texts_of words.now)) }
{
    match read_command(alloc, words, guessers) {
        Ok(l3_words::Command::Encode(words)) => Ok(Command::Encode(words)),
        Ok(l3_words::Command::Check) => Ok(Command::Check),
        Ok(l3_words::Command::Demo(words)) => Ok(Command::Demo(words)),
        Err(why) => Err(why),
    }
}
