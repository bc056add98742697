ghost use Rattle.std.specs.Prelude.{◌≡◌};
ghost use Rattle.l3_stream.specs.Faults.{fault_number};

use thiserror::Error;

/// What is wrong with a stream, and where.
///
/// The rules of reading are tried frame by frame in their order, and the first one that refuses
/// decides. A place is the byte at which the frame begins in the file, or a bit of the tape, the
/// joined main data of all frames.
#[derive(Clone, Copy, Debug, PartialEq, Eq, Error)]
pub enum StreamFault {
    #[error("at byte {0}: not the header of this frame")]
    BadHeader(u64),
    #[error("at byte {0}: the file ends within the frame")]
    ShortFrame(u64),
    #[error("at byte {0}: side information outside the profile")]
    BadSide(u64),
    #[error("at byte {0}: the main data begins before the tape, or before the codes of the frame before end")]
    BadBegin(u64),
    #[error("at bit {0}: no whole code")]
    BadCode(u64),
    #[error("at bit {0}: a length that the main data does not have")]
    WrongLength(u64),
    #[error("at bit {0}: a bit between codes is not 0")]
    NotZero(u64),
    #[error("a read failed")]
    Read,
    #[error("out of memory")]
    Memory,
    #[error("at byte {0}: one frame too many")]
    TooLong(u64),
}

impl StreamFault {
    /// The number of the fault, 1 to 10 in the order above.
    pub fn number(self) -> u8
        ensures { result ≡ fault_number self }
    {
        match self {
            StreamFault::BadHeader(_) => 1,
            StreamFault::ShortFrame(_) => 2,
            StreamFault::BadSide(_) => 3,
            StreamFault::BadBegin(_) => 4,
            StreamFault::BadCode(_) => 5,
            StreamFault::WrongLength(_) => 6,
            StreamFault::NotZero(_) => 7,
            StreamFault::Read => 8,
            StreamFault::Memory => 9,
            StreamFault::TooLong(_) => 10,
        }
    }
}
