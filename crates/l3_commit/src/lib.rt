//! Samples -> the chosen frames, one after the other.
//!
//! What stands in each frame, as mathematics and as code: granule by granule the spectra of the
//! samples, and for each unit the least gain within its budget of the bit reservoir (ISO/IEC
//! 11172-3, 2.4; how a budget is found is this project's own).
//! Before: `l3_wav`, which reads samples; `l3_analysis`, a granule's spectra and
//! counts; `l3_board`, what is on a board. After: `l3_encoder`, which writes the frames as they come,
//! `l3_speculation`, a law of what is committed whatever was made ahead, and `l3_silence`, one of
//! what is chosen for zeros.
#![tactic(auto)]

mod ahead;
mod choosing;
mod committer;
mod fitting;
mod laws;
mod report;
mod track;
mod unit;

pub use committer::Committer;
pub use laws::{chosen_frames_are_alone, chosen_frames_fit};
pub use report::{EncodeFault, Report};
pub use track::{GranuleDone, Track};
pub use unit::chosen_units_are_coded;
