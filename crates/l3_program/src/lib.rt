//! WAV at a source -> MP3 at a sink, or an MP3 stream -> whether and how far it can be read, or a
//! number -> the digest of a stream; how it ended -> notes and the exit status.
//!
//! Before: `l3_words`, `l3_encoder`, `l3_frames`, `l3_wav`. After: `mp3enc`, which hands in the
//! arguments and the standard streams of its process.
#![tactic(auto)]

mod check;
mod demo;
mod encode;
mod ending;
mod guess;
mod process;
mod program;
mod status;
mod words;

pub use ending::{Ending, tell};
pub use guess::{Asked, guesser_asked};
pub use process::{NoWords, arguments, start};
pub use program::{run, run_alone};
pub use status::Status;
pub use words::Command;
