//! The reserves that granules began with -> guesses of those that later granules will begin with.
//!
//! Before: `l3_base`, the granules' numbers. After: `l3_commit`, which asks for a guess for each
//! granule that it offers, and tells each reserve. A guess never changes a byte.
#![tactic(auto)]

mod guesser;
mod laws;
mod member;
mod panel;
mod places;

pub use guesser::{Chosen, Flat, Guesser, Last, Mean};
pub use laws::{last_eight_kept, places_of_scores};
pub use panel::{Panel, Standings};
