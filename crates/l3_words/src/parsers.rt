//! One simple parser of `clap` for each command, with the command's word in the place of the
//! program's name.

ghost use Rattle.std.specs.Prelude.{◌≡◌, ◌≤ℤ◌, false, IfOk, pos};
ghost use Rattle.clap.specs.Words.{app_of, rule_of, with_rule};
ghost use Rattle.clap.specs.declared.builder.value_parser.ValueParser.TheVariants as parsers;
ghost use Rattle.l3_words.specs.Words.{bare_app, check_app, demo_app, encode_app, flag_rule, number_rule, place_rule, with_options};

use clap::builder::ValueParser;
use clap::{Arg, ArgAction, Command, value_parser};
use std::alloc::{AllocError, Global};

// An option with one value and a default.
fn number_option<'a>(
    alloc: Global,
    name: &'a str,
    parser: ValueParser<'a>,
    default: &'a str,
) -> Arg<'a>
    ensures rule { rule_of result ≡ number_rule name.entry.now parser.entry default.entry.now }
    ensures local { result.global ≡ false }
{
    Arg::new(alloc, name)
        .long(name)
        .action(ArgAction::Set)
        .value_parser(parser)
        .default_value(default)
}

// An option without a value.
fn flag<'a>(alloc: Global, name: &'a str) -> Arg<'a>
    ensures rule { rule_of result ≡ flag_rule name.entry.now }
    ensures local { result.global ≡ false }
{
    Arg::new(alloc, name).long(name).action(ArgAction::SetTrue)
}

// A number that has to be there, by its place among the words.
fn place<'a>(alloc: Global, name: &'a str, parser: ValueParser<'a>) -> Arg<'a>
    ensures rule { rule_of result ≡ place_rule name.entry.now parser.entry }
    ensures local { result.global ≡ false }
{
    Arg::new(alloc, name)
        .required(true)
        .action(ArgAction::Set)
        .value_parser(parser)
}

// Whole numbers of at most 8 bits in a range.
fn narrow<'a>(least: i64, most: i64) -> ValueParser<'a>
    requires low { pos 0 ≤ℤ least }
    requires high { most ≤ℤ pos 255 }
    ensures { result ≡ parsers.Signed least most }
{
    value_parser!(u8).range(least..=most)
}

// Whole numbers of at most 32 bits in a range.
fn wide<'a>(least: i64, most: i64) -> ValueParser<'a>
    requires low { pos 0 ≤ℤ least }
    requires high { most ≤ℤ pos 4294967295 }
    ensures { result ≡ parsers.Signed least most }
{
    value_parser!(u32).range(least..=most)
}

// A parser without help and version flags.
fn bare_parser<'a>(alloc: Global, name: &'a str) -> Command<'a>
    ensures { app_of result ≡ bare_app name.entry.now }
{
    Command::new(alloc, name)
        .disable_help_flag(true)
        .disable_version_flag(true)
}

fn with_argument<'a>(parser: Command<'a>, argument: Arg<'a>) -> Result<Command<'a>, AllocError>
    requires { argument.global ≡ false }
    ensures { IfOk result (λ p. app_of p ≡ with_rule (app_of parser.entry) (rule_of argument.entry)) }
{
    parser.arg(argument)
}

// One more option with one value and a default.
fn with_number<'a>(
    alloc: Global,
    parser: Command<'a>,
    name: &'a str,
    values: ValueParser<'a>,
    default: &'a str,
) -> Result<Command<'a>, AllocError>
    ensures { IfOk result (λ p. app_of p ≡ with_rule (app_of parser.entry) (number_rule name.entry.now values.entry default.entry.now)) }
{
    with_argument(parser, number_option(alloc, name, values, default))
}

// One more number that has to be there, by its place among the words.
fn with_place<'a>(
    alloc: Global,
    parser: Command<'a>,
    name: &'a str,
    values: ValueParser<'a>,
) -> Result<Command<'a>, AllocError>
    ensures { IfOk result (λ p. app_of p ≡ with_rule (app_of parser.entry) (place_rule name.entry.now values.entry)) }
{
    with_argument(parser, place(alloc, name, values))
}

// The four options of an encoder, behind those that are there.
fn with_encoder_options<'a>(alloc: Global, parser: Command<'a>) -> Result<Command<'a>, AllocError>
    ensures { IfOk result (λ p. app_of p ≡ with_options (app_of parser.entry)) }
{
    let parser = with_number(alloc, parser, "rate", wide(0, 4294967295), "128")?;
    let parser = with_number(alloc, parser, "workers", narrow(0, 16), "4")?;
    let parser = with_number(alloc, parser, "ahead", narrow(1, 64), "16")?;
    with_number(alloc, parser, "guess", narrow(0, 255), "1")
}

/// The parser of `encode`.
pub fn encode_parser<'a>(alloc: Global) -> Result<Command<'a>, AllocError>
    ensures { IfOk result (λ p. app_of p ≡ encode_app) }
{
    let parser = with_encoder_options(alloc, bare_parser(alloc, "encode"))?;
    with_argument(parser, flag(alloc, "stats"))
}

/// The parser of `check`.
pub fn check_parser<'a>(alloc: Global) -> Command<'a>
    ensures { app_of result ≡ check_app }
{
    bare_parser(alloc, "check")
}

/// The parser of `demo`.
pub fn demo_parser<'a>(alloc: Global) -> Result<Command<'a>, AllocError>
    ensures { IfOk result (λ p. app_of p ≡ demo_app) }
{
    let parser = with_place(alloc, bare_parser(alloc, "demo"), "FRAMES", wide(1, 100000))?;
    let parser = with_place(alloc, parser, "SEED", wide(0, 4294967295))?;
    with_encoder_options(alloc, parser)
}
