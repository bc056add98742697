//! Header and side information of a frame, as the first bytes of a row of 36.

ghost use Rattle.std.specs.Prelude.{[], ◌≡◌, ◌≤◌, ◌^◌, ◌++◌, length, take};
ghost use Rattle.l3_bits.specs.Bits.{bits_of, packed};
ghost use Rattle.l3_stream.specs.Frames.{IsCoded};
ghost use Rattle.l3_stream.specs.Tape.{head_of};

use l3_base::Settings;
use l3_stream::{ChosenFrame, write_header, write_side};
use std::marker::Model;

// Bytes of header and side information in stereo; mono has fewer.
const HEAD_LIMIT: usize = 36;

// Bytes of a header.
const HEADER_BYTES: usize = 4;

// Header and side information of a frame.
#[derive(Drop)]
pub(crate) struct Head {
    bytes: [u8; HEAD_LIMIT],
    size: usize,
}

impl Model for Head {
    ghost use Rattle.std.specs.Prelude.{ℕ, ◌≤◌, List, take};

    ghost Value = { List ℕ };

    ghost view = { λ h. take h.size h.bytes };

    ghost invariant = { λ h. h.size ≤ 36 };
}

impl Default for Head {
    fn default() -> Head
        ensures { result ≡ [] }
    {
        Head {
            bytes: [0; HEAD_LIMIT],
            size: 0,
        }
    }
}

impl Head {
    // The head of a coded frame, by its number.
    pub(crate) fn of(settings: &Settings, number: u64, frame: &ChosenFrame) -> Head
        requires number { number ≤ 2 ^ 32 }
        requires coded { IsCoded settings.now frame.now }
        requires begin { frame.now.begin ≤ 511 }
        ensures { result ≡ head_of settings.now number frame.now }
    {
        let mut side = [0; 32];
        let size = write_side(settings, frame, &mut side);
        joined(&write_header(settings, number), &side, size)
    }

    pub(crate) fn bytes(&self) -> &[u8]
        ensures { result.now ≡ self.now }
    {
        &self.bytes[..self.size]
    }
}

// A header, and so many bytes of side information.
fn joined(header: &[u8], side: &[u8], size: usize) -> Head
    requires header { length header.now ≡ 4 }
    requires side { length side.now ≡ 32 }
    requires size { size ≤ 32 }
    ensures { result ≡ packed (bits_of header.now) ++ packed (bits_of (take size side.now)) }
{
    let mut bytes = [0; HEAD_LIMIT];
    bytes[..HEADER_BYTES].copy_from_slice(header);
    bytes[HEADER_BYTES..].copy_from_slice(side);
    Head {
        bytes,
        size: HEADER_BYTES + size,
    }
}
