//! Samples -> spectrum, and how many bits it asks for.
//!
//! The analysis filterbank: 1632 samples of one channel -> 36 slots of 32 subbands; [`Kept`] goes from
//! one such window to the next and makes only the slots that the two do not share.
//! The modified discrete cosine transform: slots of one channel of one granule -> its spectrum, 576
//! lines in units of 2^-24 of full scale.
//! The bit demand: the spectrum of one channel of one granule -> the energies of its 22 bands, and
//! its demand in bits. The spectra of left and right of one granule -> those of middle and side, their
//! sum and their difference over the square root of 2, and of four demands whether middle and side
//! demand less; nothing uses middle and side yet: pieces and their committer will code a frame by it
//! in joint settings.
//! Before: `l3_base` (window, cosines, bands). After: `l3_quant` (quantiser) and `l3_search` (the
//! budget of a demand); `l3_analysis` and `l3_commit` call all of it.
//!
//! It is the analysis filterbank, and the hybrid synthesis turned round, for long blocks, of Layer III
//! (ISO/IEC 11172-3, 2.4), and the factor is that of its middle and side stereo; the integer tables
//! and the roundings are this project's own, and so is the rule of demands: there is no
//! psychoacoustic model.
#![tactic(auto)]

mod alias;
mod band;
mod coefficients;
mod columns;
mod cosines;
mod demands;
mod energy;
mod filterbank;
mod fold;
mod following;
mod kept;
mod laws;
mod lines;
mod rounding;
mod rows;
mod slot_fold;
mod subbands;
mod transform;
mod turning;

pub use demands::prefer;
pub use energy::{demand, energies};
pub use filterbank::{slot, slots36};
pub use fold::fold64;
pub use kept::Kept;
pub use laws::{demand_laws, spectrum_laws};
pub use slot_fold::fold36;
pub use transform::spectrum;
pub use turning::turn;
