//! The running encoder where a call of its source or sink fails, where a guesser guesses wildly and
//! where its workers are held: the bytes of one thread without faults, or a front of them.
//!
//! No clause can say that a call of the encoder returns on several threads, nor that the order of
//! two threads' turns or a guess leaves every step of the board right: these are tests alone.
//! Before: `l3_encoder`, which is tested here, and `l3_wav`, whose files it encodes.
#![tactic(auto)]

#[cfg(test)]
mod calls;
#[cfg(test)]
mod inputs;
#[cfg(test)]
mod running;
#[cfg(test)]
mod schedules;
