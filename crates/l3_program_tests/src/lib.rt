//! The program's stages at work: samples -> windows -> chosen frames -> their stream, a file -> its
//! stream on one thread and beside workers, words -> a command, a number -> its demo file.
//!
//! What no clause says, or says in words that could all be wrong together: the bytes, counts and
//! answers that were found outside the program, and that a call succeeds. These are tests alone.
//! Before: `l3_wav`, `l3_commit`, `l3_encoder` and `l3_words`, which are tested here. After: nothing.
#![tactic(auto)]

#[cfg(test)]
mod boards;
#[cfg(test)]
mod commit;
#[cfg(test)]
mod commit_board;
#[cfg(test)]
mod demo;
#[cfg(test)]
mod encoder;
#[cfg(test)]
mod encoder_threads;
#[cfg(test)]
mod turns;
#[cfg(test)]
mod windows;
#[cfg(test)]
mod words;
