//! The program on worked files and streams, with and without workers, and with words that it
//! refuses: statuses, bytes, texts and what is left of the source.
//!
//! Before: `l3_program`, which is tested here. After: nothing; these are tests alone.
#![tactic(auto)]

#[cfg(test)]
mod impulse;
#[cfg(test)]
mod sine;
#[cfg(test)]
mod tests;
