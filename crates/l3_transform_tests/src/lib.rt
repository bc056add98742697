//! The transforms: slots, spectra, middle and side, and demands, on worked inputs.
//!
//! Tests alone: values worked out apart from this source.
//! Before: `l3_transform`, which is tested here. After: nothing.
#![tactic(auto)]

#[cfg(test)]
mod energy;
#[cfg(test)]
mod mdct;
#[cfg(test)]
mod ms;
#[cfg(test)]
mod polyphase;
