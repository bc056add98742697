//! What `clap` found of an option.

ghost use Rattle.std.specs.Prelude.{◌≡◌, ◌≤◌, option_and_then};
ghost use Rattle.clap.specs.Words.{found_of, one_text, rows_of};
ghost use Rattle.l3_words.specs.Words.{flag_in, number_in, number_of, options_in, rate_of};

use crate::command::EncoderOptions;
use clap::ArgMatches;
use l3_base::Rate;

// The number of an option.
fn number(matches: &ArgMatches<'_>, name: &str) -> Option<u32>
    ensures { result ≡ option_and_then number_of (one_text (found_of matches.now) name.now) }
{
    matches.get_one::<u32>(name)
}

/// The number of an option, cut to its range: `clap` lets no other through.
pub fn number_within(matches: &ArgMatches<'_>, name: &str, least: u32, most: u32) -> u32
    requires { least ≤ most }
    ensures { result ≡ number_in (rows_of (found_of matches.now)) name.now least most }
{
    number(matches, name).unwrap_or(0).min(most).max(least)
}

/// Whether the flag was given.
pub fn has_flag(matches: &ArgMatches<'_>, name: &str) -> bool
    ensures { result ≡ flag_in (rows_of (found_of matches.now)) name.now }
{
    match matches.get_str(name) {
        Some(text) => text == "true",
        None => false,
    }
}

// The rate of so many kbit/s.
fn rate(kbits: u32) -> Option<Rate>
    ensures { result ≡ rate_of kbits }
{
    Rate::of(kbits)
}

// Whether the guess asks for a guesser that there is; with no workers it is not looked at.
fn fits(options: &EncoderOptions, guessers: usize) -> bool
    ensures { result ≡ Rattle.l3_words.specs.Words.fits guessers options.now }
{
    options.workers == 0 || (0 < guessers && options.guess as usize <= guessers)
}

/// The encoder's options, where the rate is one of the fourteen and the guess asks for a guesser
/// that there is.
pub fn encoder_options(matches: &ArgMatches<'_>, guessers: usize) -> Option<EncoderOptions>
    ensures { result ≡ options_in guessers (rows_of (found_of matches.now)) }
{
    let rate = rate(number_within(matches, "rate", 0, u32::MAX))?;
    let options = EncoderOptions {
        rate,
        workers: number_within(matches, "workers", 0, 16) as u8,
        ahead: number_within(matches, "ahead", 1, 64) as u8,
        guess: number_within(matches, "guess", 0, 255) as u8,
    };
    if fits(&options, guessers) {
        Some(options)
    } else {
        None
    }
}
