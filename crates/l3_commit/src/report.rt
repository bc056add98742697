use l3_wav::WavFault;
use thiserror::Error;

/// What an encoding took.
///
/// It stands here and not beside the encoder, as `EncodeFault` does, because whatever else encodes
/// by these rules gives it too, without standing on `l3_encoder`.
#[derive(Clone, Copy, Debug, PartialEq, Eq)]
pub struct Report {
    /// Frames written.
    pub frames: u32,
    /// Gains tried: for each unit those from its first gain to the picked one.
    pub tried: u64,
    /// Counts made for them.
    pub made: u64,
}

/// Why an encoding was given up. It stands here for the reason that is told at `Report`.
#[derive(Clone, Copy, Debug, PartialEq, Eq, Error)]
pub enum EncodeFault {
    /// There is no memory, and nothing was written.
    #[error("out of memory")]
    Memory,
    /// The source holds no WAV file that can be encoded.
    #[error("no WAV file to encode: {0}")]
    Wav(WavFault),
    /// A read of the samples failed.
    #[error("a read of the samples failed")]
    Read,
    /// A write of the stream failed.
    #[error("a write of the stream failed")]
    Write,
}
