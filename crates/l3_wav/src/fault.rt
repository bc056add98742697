use thiserror::Error;

/// Why a WAV file was not opened.
///
/// The rules of the head are tried in the order of its bytes, and the first one that refuses
/// decides.
#[derive(Clone, Copy, Debug, PartialEq, Eq, Error)]
pub enum WavFault {
    #[error("no RIFF file of form WAVE")]
    NotRiff = 1,
    #[error("the file ends in its head")]
    HeaderEnds = 2,
    #[error("no format chunk before the data")]
    NoFmtBeforeData = 3,
    #[error("more than 1048576 bytes before the data")]
    HeaderTooLong = 4,
    #[error("a format other than PCM")]
    UnsupportedFormat = 5,
    #[error("neither one channel nor two")]
    UnsupportedChannels = 6,
    #[error("a sampling frequency other than 44100, 48000 and 32000 Hz")]
    UnsupportedRate = 7,
    #[error("samples of other than 16 bits")]
    UnsupportedDepth = 8,
    #[error("a block align that does not fit the channels")]
    BadBlockAlign = 9,
    #[error("a read failed")]
    Read = 10,
}
