//! Zero samples -> the stream of silence, as a law.
//!
//! What the stream of silence is, byte by byte: frames with no codes, in which each slot is handed
//! on to the frames that follow (ISO/IEC 11172-3, 2.4, main_data_begin). No path of the encoder
//! knows of it: the law says that its rules give it.
//! Before: `l3_commit` (the encoding of samples), `l3_stream` (the tape). After: nothing; no code
//! calls it.
#![tactic(auto)]

mod laws;

pub use laws::zeros_encode_to_silence;
