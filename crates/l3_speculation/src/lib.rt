//! Any board, guesses and counts made ahead -> the same chosen frames, as a law.
//!
//! Runs of a track beside the board of cells: calls of the board with pieces under any guess,
//! granules that are committed from any piece that is right for them, and frames that end. Whatever
//! was supposed and whatever the board did, the frames are a front of the chosen ones, and each
//! count that the choice tries was made anew or brought along by a piece.
//! The chosen frames are those of ISO/IEC 11172-3, 2.4 and Annex C; pieces and guesses are this
//! project's own.
//! Before: `l3_board` (the board as a machine), `l3_analysis` (pieces), `l3_commit` (the track and
//! the choice). After: nothing; no code calls it.
#![tactic(auto)]

mod calls;
mod laws;

pub use calls::{event_is_a_step, frame_end_is_a_step, granule_is_a_step};
pub use laws::{pieces_bring_exact_counts, speculative_runs_commit_the_choice};
