use l3_base::Rate;
use l3_words::{Command, DemoWords, EncodeWords, EncoderOptions, NoCommand, read_command};
use std::alloc::Global;

// Words behind `encode`, and the rate, workers, granules ahead and guesser of the options, and
// whether statistics are told.
const ENCODED: [(&[&str], Rate, u8, u8, u8, bool); 9] = [
    (&["encode"], Rate::K128, 4, 16, 1, false),
    (&["encode", "--stats"], Rate::K128, 4, 16, 1, true),
    (&["encode", "--"], Rate::K128, 4, 16, 1, false),
    (
        &["encode", "--rate=320", "--workers=-0", "--stats"],
        Rate::K320,
        0,
        16,
        1,
        true,
    ),
    (
        &["encode", "--rate", "+64", "--ahead", "064"],
        Rate::K64,
        4,
        64,
        1,
        false,
    ),
    (
        &["encode", "--workers", "16", "--guess", "3"],
        Rate::K128,
        16,
        16,
        3,
        false,
    ),
    (&["encode", "--guess", "0"], Rate::K128, 4, 16, 0, false),
    (
        &["encode", "--guess", "4", "--workers", "0"],
        Rate::K128,
        0,
        16,
        4,
        false,
    ),
    (
        &["encode", "--workers", "0", "--guess", "255"],
        Rate::K128,
        0,
        16,
        255,
        false,
    ),
];

// Words behind `demo`, and the options again, frames and seed.
const DEMOS: [(&[&str], Rate, u8, u8, u8, u32, u32); 3] = [
    (&["demo", "100", "7"], Rate::K128, 4, 16, 1, 100, 7),
    (
        &["demo", "--workers", "0", "100000", "4294967295"],
        Rate::K128,
        0,
        16,
        1,
        100000,
        4294967295,
    ),
    (
        &["demo", "1", "0", "--rate", "32", "--ahead", "1"],
        Rate::K32,
        4,
        1,
        1,
        1,
        0,
    ),
];

// What the words ask for where there are three guessers.
fn read(alloc: Global, words: &[&str]) -> Result<Command, NoCommand> {
    read_command(alloc, words, 3)
}

fn options(rate: Rate, workers: u8, ahead: u8, guess: u8) -> EncoderOptions {
    EncoderOptions {
        rate,
        workers,
        ahead,
        guess,
    }
}

#[test]
fn words_that_are_taken(rt: HostRuntime) {
    for (words, rate, workers, ahead, guess, stats) in ENCODED {
        let options = options(rate, workers, ahead, guess);
        let wanted = Command::Encode(EncodeWords { options, stats });
        assert!(rt; read(rt.alloc(), words) == Ok(wanted));
    }
}

#[test]
fn words_of_a_demo_that_are_taken(rt: HostRuntime) {
    for (words, rate, workers, ahead, guess, frames, seed) in DEMOS {
        let options = options(rate, workers, ahead, guess);
        let wanted = Command::Demo(DemoWords {
            options,
            frames,
            seed,
        });
        assert!(rt; read(rt.alloc(), words) == Ok(wanted));
    }
}

#[test]
fn word_of_a_check(rt: HostRuntime) {
    assert!(rt; read(rt.alloc(), &["check"]) == Ok(Command::Check));
}

const REFUSED_OF_ENCODE: [&[&str]; 19] = [
    &["encode", "x"],
    &["encode", "--help"],
    &["encode", "-h"],
    &["encode", "--version"],
    &["encode", "--rate"],
    &["encode", "--rate", "100"],
    &["encode", "--rate", "0"],
    &["encode", "--rate", "128k"],
    &["encode", "--rate", "4294967296"],
    &["encode", "--rate", "128", "--rate", "128"],
    &["encode", "--stats", "--stats"],
    &["encode", "--stats=true"],
    &["encode", "--workers", "17"],
    &["encode", "--workers", "-0"],
    &["encode", "--workers", "-1"],
    &["encode", "--ahead", "0"],
    &["encode", "--ahead", "65"],
    &["encode", "--guess", "4"],
    &["encode", "--guess", "256", "--workers", "0"],
];

#[test]
fn words_of_encode_that_are_refused(rt: HostRuntime) {
    for words in REFUSED_OF_ENCODE {
        assert!(rt; read(rt.alloc(), words) == Err(NoCommand::Usage));
    }
}

const REFUSED: [&[&str]; 14] = [
    &[],
    &["help"],
    &["Encode"],
    &["--rate", "128", "encode"],
    &["check", "x"],
    &["check", "--stats"],
    &["demo"],
    &["demo", "1"],
    &["demo", "0", "1"],
    &["demo", "100001", "1"],
    &["demo", "1", "4294967296"],
    &["demo", "1", "2", "3"],
    &["demo", "1", "2", "--stats"],
    &["demo", "1", "2", "--guess", "4"],
];

#[test]
fn other_words_that_are_refused(rt: HostRuntime) {
    for words in REFUSED {
        assert!(rt; read(rt.alloc(), words) == Err(NoCommand::Usage));
    }
}

// A guesser is only looked for where there are workers.
#[test]
fn no_guesser(rt: HostRuntime) {
    let found = read_command(rt.alloc(), &["encode", "--guess", "0"], 0);
    assert!(rt; found == Err(NoCommand::Usage));
}
