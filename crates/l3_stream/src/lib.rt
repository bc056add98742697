//! The words of a stream: units, frames, side information, the joined main data, and the bytes that
//! frames spell.
//!
//! A frame of quantised lines -> whether it can be coded, and where its lines stand: which are
//! pairs, quadruples and zeros, and which table a pair has. Settings and chosen units <-> the bits of
//! a frame's header and side information, each written from its fields and read back to them,
//! exactly. What all its bits are, and how they are read again, is this crate's definitions.
//! The syntax is that of Layer III (ISO/IEC 11172-3, clause 2.4), as far as the profile has it. The
//! codes of the units of all frames stand on one row of bits, the tape: the main data of all frames
//! joined, headers and side information left out.
//! Before: `l3_huff` (code tables), `l3_base` (bands), `l3_bits`. After: `l3_frames`
//! (the writer), `l3_frames` and `l3_commit`, which cite these words.
#![tactic(auto)]

mod code_bits;
mod coded;
mod fault;
mod header_bits;
mod laws;
mod regions;
mod side_reading;
mod side_writing;
mod unit;
mod unit_fields;

pub use coded::is_coded;
pub use fault::StreamFault;
pub use header_bits::{read_header, write_header};
pub use l3_huff::QuadTable;
pub use laws::{
    code_lengths, deviation_is_exact, one_reading, reading_is_local, reading_rules,
    tape_by_positions, worked_readings,
};
pub use regions::{Regions, first_line};
pub use side_reading::read_side;
pub use side_writing::write_side;
pub use unit::{ChosenFrame, Unit, four_from, granule_length, two_from};
