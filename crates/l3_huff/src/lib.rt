//! Pairs and quadruples of quantised values -> Huffman codes, and back.
//!
//! The code tables are those of Layer III (ISO/IEC 11172-3, Annex B), as far as the profile has
//! them.
//! Each is proved to be a complete prefix code, so what is written is read again in one way only.
//! Before: `l3_bits`, lists of bits. After: `l3_region`, which chooses tables, and `l3_stream`,
//! whose main data these codes are.
#![tactic(auto)]

mod bits_ahead;
mod code;
mod facts;
mod laws;
mod pair_tables;
mod pairs;
mod quad_tables;
mod quads;
mod reading;
mod reading_tables;

pub use code::Code;
pub use facts::{
    quad_tables_are_complete, table_0, table_1, table_2, table_3, table_5, table_6, table_7,
    table_8, table_9, table_10, table_11, table_12, table_24, tables_with_linbits,
};
pub use laws::{one_code, pair_length, pair_reading, quad_reading};
pub use pairs::{code_length, holds, is_table, linbits, pair_bits, pair_code};
pub use quads::{QuadTable, quad_bits, quad_code};
pub use reading::{read_pair, read_quad};
