//! Bytes of a WAV file -> its head, and its samples in order; the samples, as they come -> the
//! windows of the next granules. A number -> a WAV file of any length, for large inputs that need no
//! file ([`demo_source`]).
//!
//! Before: `l3_io`, sources of bytes, and `l3_base`, what a window is. After: `l3_commit`, which
//! makes spectra of windows, and `l3_encoder`, which reads the file.
#![tactic(auto)]

mod at_hand;
mod block;
mod fault;
mod fields;
mod filling;
mod head;
mod kept;
mod laws;
mod reading;
mod reading_on;
mod samples;
mod signal;
mod source;

pub use at_hand::Windows;
pub use fault::WavFault;
pub use head::{WavHead, open};
pub use laws::{chunks_in_a_head, demo_files_are_wav, samples_of_a_file, windows_of_samples};
pub use samples::Samples;
pub use source::{DemoSource, demo_source};
