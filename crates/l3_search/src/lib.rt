//! The two loops of an encoder. A unit's bit demand and the bit reservoir's reserve -> the unit's bit
//! budget, and the reserve that is left. A spectrum, an amplification and a budget -> the count at
//! the least gain that is within it. A count -> the noise of its bands, and what is to be amplified.
//!
//! The inner loop: gain after gain from the first one on, each counted at most once for a spectrum
//! and an amplification, since a lane of a memo keeps what was counted.
//! The outer loop of ISO/IEC 11172-3, Annex C, in whole numbers: the count of a unit -> the noise of
//! its 22 bands; the energies of a spectrum -> how much noise is allowed, by a rule of this project's
//! own; both -> the amplification with one more in each band that is over; an amplification -> its
//! `scalefac_compress` and bits. Nothing uses it yet: rounds of amplification will choose by it
//! (`l3_analysis` defines them).
//! Before: `l3_base`, the share that each unit has of a frame's slot; `l3_count`, counts at one gain;
//! `l3_transform`, the energies. After: `l3_analysis` under a supposed reserve, `l3_commit` under the
//! real one.
#![tactic(auto)]

mod allowance;
mod band_noise;
mod borrowing;
mod laws;
mod line_noise;
mod reservoir;
mod scalefactors;
mod search;

pub use allowance::{allowed, over, raise};
pub use band_noise::noise;
pub use l3_count::{Count, Memo};
pub use laws::{borrowing_is_covered, frame_end_is_exact, pick_exists, scalefactor_laws};
pub use reservoir::{FrameEnd, Reserve};
pub use scalefactors::{Part2, part2_of};
pub use search::{Picked, pick};
