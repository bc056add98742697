//! A WAV file from a source -> its MP3 stream at a sink, on one thread, or beside workers that
//! analyse granules ahead: the same bytes.
//!
//! Samples as they come -> their stream: granule after granule, alone ([`encode_turns`]), or over a
//! board on which workers may analyse granules ahead ([`encode_on_board`]).
//! Before: `l3_wav`, which reads heads and samples; `l3_commit`, which chooses frames; `l3_frames`,
//! which writes them; `l3_analysis` and `l3_lanes`, the workers and their board. After: the program.
#![tactic(auto)]

mod alone;
mod answer;
mod encoding;
mod file_laws;
mod on_board;
mod opening;
mod over;
mod turning;
mod with;

pub use alone::encode_alone;
pub use encoding::{TurnFault, encode_turns};
pub use file_laws::files_are_encoded;
pub use l3_analysis::{Gate, Lanes, OpenGate};
pub use l3_commit::{EncodeFault, Report};
pub use on_board::encode_on_board;
pub use over::encode_over;
pub use turning::turn;
pub use with::encode_with;
