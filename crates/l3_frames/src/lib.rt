//! Frames -> bytes at a sink: the writer of chosen frames. Bytes of a stream -> its settings and
//! frames, or the first deviation from the profile and its place.
//!
//! The main data of a frame may begin in the slots of the frames before it (ISO/IEC 11172-3, 2.4,
//! main_data_begin), so a frame is given once no later frame can reach into its slot; the bytes
//! given are right whatever is pushed later. Frames are read one after the other, each against the
//! remainder rule and the main data that the frames before it left (as far as the profile has it).
//! Before: `l3_stream` (header and side information, units and the tape), `l3_huff` (codes),
//! `l3_bits`, `l3_io` (sources and sinks).
//! After: `l3_encoder`, which writes, and the command that checks a stream.
#![tactic(auto)]

mod codes;
mod frame;
mod frame_reader;
mod frames;
mod head;
mod main_data;
mod pending;
mod quantised;
mod slots;
mod standing;
mod stream;
mod tape;
mod units;
mod writer;

pub use frame_reader::FrameReader;
pub use l3_stream::StreamFault;
pub use stream::{Stream, read_stream};
pub use writer::FrameWriter;
