//! The ground: bits, settings, tables, codes, sources and sinks, and the heads and samples of WAV
//! files, on worked cases.
//!
//! Tests alone: values worked out apart from this source, and objects that fail.
//! Before: `l3_bits`, `l3_base`, `l3_huff`, `l3_io` and `l3_wav`, which are tested here. After:
//! nothing.
#![tactic(auto)]

#[cfg(test)]
mod base;
#[cfg(test)]
mod bits;
#[cfg(test)]
mod huff;
#[cfg(test)]
mod io;
#[cfg(test)]
mod memory;
#[cfg(test)]
mod tables;
#[cfg(test)]
mod wav;
