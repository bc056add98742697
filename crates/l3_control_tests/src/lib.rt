//! The boards, guessers, pieces and workers of the encoder -> what their calls answer, as worked out
//! by hand, and that threads which wait on one another go on.
//!
//! The contracts say what an answer means. That the definitions they say it by are those that were
//! meant, which answer a board under a lock gives, and that those who wait are woken: this is shown
//! by tests alone.
//! Before: `l3_board`, `l3_lanes`, `l3_guess` and `l3_analysis`, which are tested here. After:
//! nothing.
#![tactic(auto)]

#[cfg(test)]
mod analysis;
#[cfg(test)]
mod answers;
#[cfg(test)]
mod board;
#[cfg(test)]
mod calls;
#[cfg(test)]
mod guess;
#[cfg(test)]
mod item;
#[cfg(test)]
mod lanes;
#[cfg(test)]
mod machine;
#[cfg(test)]
mod offers;
#[cfg(test)]
mod pieces;
#[cfg(test)]
mod rows;
#[cfg(test)]
mod sharing;
#[cfg(test)]
mod waking;
#[cfg(test)]
mod workers;
