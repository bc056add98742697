//! Quantised values -> their split, the regions and tables of fewest bits.
//!
//! The 576 quantised values of a unit -> how many pairs and quadruples they are, and the regions
//! and code tables that take the fewest bits.
//! Before: `l3_quant` (the values), `l3_huff` (codes and their lengths). After: `l3_count`.
//! Which regions and tables are taken is an encoder's own choice; to take the fewest bits, and the
//! first at a tie, is this project's.
#![tactic(auto)]

mod choice;
mod costs;
mod cut;
mod lanes;
mod laws;
mod long;
mod pairs;
mod quads;
mod regions;
mod rows;
mod split;
mod sums;

pub use l3_huff::QuadTable;
pub use laws::fewest_bits;
pub use regions::{Regions, best, best_of_pairs};
pub use split::{Split, split_of, split_of_pairs};
