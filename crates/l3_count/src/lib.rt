//! A spectrum, an amplification and a gain -> what the unit costs there; the memo of such counts.
//!
//! The quantised values of one channel of one granule at a `global_gain` -> their split, regions
//! and tables, and the bits of all their codes.
//! The values at any gain and amplification are found by comparing: for each line and each value of
//! 1 to 15 a plane holds the greatest gain at which the line is still quantised to at least that
//! value. Planes are made once for a spectrum; they and a gain give the pairs of values cut at 15,
//! the split and the class of each band. This is the project's own; the values are those of Layer
//! III's quantiser.
//! Before: `l3_quant` (what values are), `l3_region` (split and regions). After: `l3_search`, the
//! least gain within a budget.
#![tactic(auto)]

mod bands;
mod count;
mod counting;
mod keys;
mod lane;
mod laws;
mod line;
mod marks;
mod memo;
mod plane_count;
mod planes;
mod rows;
mod split;
mod tables;

pub use count::Count;
pub use counting::{count_at, count_over, count_zeros};
pub use l3_region::{QuadTable, Regions, Split};
pub use laws::counts_are_least;
pub use memo::Memo;
pub use planes::{Planes, classes_at, is_codable_at, no_planes, pairs_at, set, split_at};
