ghost use Rattle.std.specs.Prelude.{◌≡◌, true, [], Err, IfOk, OnOk, Some, None, IsSome};
ghost use Rattle.clap.specs.Words.{app_of, fault_of, found_of, is_simple, is_simple_and_free, matches_of, rows_of};
ghost use Rattle.l3_words.specs.Words.{check_of, command_of, demo_of, encode_of, named_by, texts_of, word_of};

use crate::command::{Command, CommandWord, DemoWords, EncodeWords, NoCommand};
use crate::parsers::{check_parser, demo_parser, encode_parser};
use crate::values::{encoder_options, has_flag, number_within};
use clap::ArgMatches;
use clap::error::ErrorKind;
use std::alloc::Global;

// The command that this word names.
fn command_word(word: &str) -> Option<CommandWord>
    ensures { result ≡ named_by word.now }
{
    if word == "encode" {
        Some(CommandWord::Encode)
    } else if word == "check" {
        Some(CommandWord::Check)
    } else if word == "demo" {
        Some(CommandWord::Demo)
    } else {
        None
    }
}

// The command that the first word names.
fn first_word(words: &[&str]) -> Option<CommandWord>
    ensures { result ≡ word_of (texts_of words.now) }
{
    if words.is_empty() {
        return None;
    }
    command_word(words[0])
}

// The matches of the words, by clap's rule for simple commands.
fn matched<'a>(parser: clap::Command<'a>, words: &'a [&'a str]) -> Result<ArgMatches<'a>, NoCommand>
    requires simple { is_simple (app_of parser) ≡ true }
    requires free { is_simple_and_free (app_of parser) ≡ true }
    ensures taken { OnOk result (fault_of (app_of parser.entry) (texts_of words.entry.now) ≡ []) }
    ensures refused { result ≡ Err NoCommand.Usage → fault_of (app_of parser.entry) (texts_of words.entry.now) ≡ [] → ⊥ }
    ensures rows { IfOk result (λ m. rows_of (found_of m) ≡ matches_of (app_of parser.entry) (texts_of words.entry.now)) }
{
    match parser.try_get_matches_from(words) {
        Ok(matches) => Ok(matches),
        Err(error) => {
            if error.kind() == ErrorKind::OutOfMemory {
                Err(NoCommand::Memory)
            } else {
                Err(NoCommand::Usage)
            }
        }
    }
}

fn read_encode(alloc: Global, words: &[&str], guessers: usize) -> Result<Command, NoCommand>
    ensures command { IfOk result (λ command. encode_of guessers (texts_of words.now) ≡ Some command) }
    ensures usage { result ≡ Err NoCommand.Usage → encode_of guessers (texts_of words.now) ≡ None }
{
    let Ok(parser) = encode_parser(alloc) else {
        return Err(NoCommand::Memory);
    };
    let matches = match matched(parser, words) {
        Ok(matches) => matches,
        Err(fault) => return Err(fault),
    };
    match encoder_options(&matches, guessers) {
        Some(options) => Ok(Command::Encode(EncodeWords {
            options,
            stats: has_flag(&matches, "stats"),
        })),
        None => Err(NoCommand::Usage),
    }
}

fn read_check(alloc: Global, words: &[&str]) -> Result<Command, NoCommand>
    ensures command { IfOk result (λ command. check_of (texts_of words.now) ≡ Some command) }
    ensures usage { result ≡ Err NoCommand.Usage → check_of (texts_of words.now) ≡ None }
{
    let _matches = match matched(check_parser(alloc), words) {
        Ok(matches) => matches,
        Err(fault) => return Err(fault),
    };
    Ok(Command::Check)
}

fn read_demo(alloc: Global, words: &[&str], guessers: usize) -> Result<Command, NoCommand>
    ensures command { IfOk result (λ command. demo_of guessers (texts_of words.now) ≡ Some command) }
    ensures usage { result ≡ Err NoCommand.Usage → demo_of guessers (texts_of words.now) ≡ None }
{
    let Ok(parser) = demo_parser(alloc) else {
        return Err(NoCommand::Memory);
    };
    let matches = match matched(parser, words) {
        Ok(matches) => matches,
        Err(fault) => return Err(fault),
    };
    match encoder_options(&matches, guessers) {
        Some(options) => Ok(Command::Demo(DemoWords {
            options,
            frames: number_within(&matches, "FRAMES", 1, 100000),
            seed: number_within(&matches, "SEED", 0, u32::MAX),
        })),
        None => Err(NoCommand::Usage),
    }
}

/// The command that the words of the command line ask for, where there are so many guessers.
///
/// The first word is `encode`, `check` or `demo`; the others are read by the rule of `clap` for one
/// simple command of that name. They are refused where that rule refuses them, where the rate is
/// none of the fourteen, or where with at least one worker the guess asks for a guesser that there
/// is not.
pub fn read_command(alloc: Global, words: &[&str], guessers: usize) -> Result<Command, NoCommand>
    ensures command { IfOk result (λ command. command_of guessers (texts_of words.now) ≡ Some command) }
    ensures usage { result ≡ Err NoCommand.Usage → command_of guessers (texts_of words.now) ≡ None }

    // Memory is taken only where the first word is that of a command.
    ensures memory { result ≡ Err NoCommand.Memory → IsSome (word_of (texts_of words.now)) }
{
    match first_word(words) {
        None => Err(NoCommand::Usage),
        Some(CommandWord::Encode) => read_encode(alloc, words, guessers),
        Some(CommandWord::Check) => read_check(alloc, words),
        Some(CommandWord::Demo) => read_demo(alloc, words, guessers),
    }
}
