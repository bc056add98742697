//! The process: its arguments, standard streams and exit status.
//!
//! Before: `l3_program`, which does what the arguments ask for. After: nothing; this is the program.
#![tactic(auto)]

use l3_encoder::OpenGate;
use l3_guess::{Flat, Guesser, Last, Mean};
use l3_io::{StdSink, StdSource};
use l3_program::{Ending, arguments, start, tell};
use std::process::ExitCode;

fn main(rt: HostRuntime) -> ExitCode {
    let alloc = rt.alloc();
    let mut source = StdSource::new(rt.stdin());
    let mut sink = StdSink::new(rt.stdout());
    let mut notes = StdSink::new(rt.stderr());
    let (Ok(last), Ok(mean), Ok(flat)) = (
        Box::new(alloc, Last::new()),
        Box::new(alloc, Mean::new()),
        Box::new(alloc, Flat::new(0)),
    ) else {
        return ExitCode::from(tell(&mut notes, Ending::Memory).number());
    };
    let guessers: [Box<dyn Guesser>; 3] = [last, mean, flat];
    let Ok(guessers) = Vec::from_array(alloc, guessers) else {
        return ExitCode::from(tell(&mut notes, Ending::Memory).number());
    };
    start(
        &rt,
        alloc,
        arguments(&rt),
        &mut source,
        &mut sink,
        &mut notes,
        guessers,
        &OpenGate,
    )
}
