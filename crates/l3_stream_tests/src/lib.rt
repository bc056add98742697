//! Units and frames <-> bytes: the tests of the crates that write a stream and read it.
//!
//! Headers, side information and codes are compared with bytes that were worked out by hand from
//! the syntax (ISO/IEC 11172-3, clause 2.4).
//! Before: `l3_stream` and `l3_frames`, which are tested here.
#![tactic(auto)]

#[cfg(test)]
mod frames;
#[cfg(test)]
mod reader;
#[cfg(test)]
mod rows;
#[cfg(test)]
mod side;
#[cfg(test)]
mod stream;
