//! Pieces of one channel at 128 kbit/s and 44100 Hz, whose samples are zeros.

ghost use Rattle.std.specs.Prelude.{◌≡◌};
ghost use Rattle.l3_base.specs.declared.rate.Channels.TheVariants.{Mono};
ghost use Rattle.l3_analysis.specs.declared.stage.Stage.TheVariants.{Loaded};

use l3_analysis::{Piece, PieceBox};
use l3_base::{Channels, GranuleNo, Rate, SampleRate, Settings, Window};
use std::alloc::{AllocError, Global};

pub fn settings() -> Settings
    ensures { result.channels ≡ Mono }
{
    Settings {
        rate: Rate::K128,
        sample_rate: SampleRate::Hz44100,
        channels: Channels::Mono,
    }
}

pub fn blank(alloc: Global) -> Result<PieceBox, AllocError> {
    PieceBox::new(alloc, settings())
}

/// A granule with a window of zeros.
pub fn load(piece: &mut Piece, number: GranuleNo)
    ensures stage { piece.new.stage ≡ Loaded }
    ensures settings { piece.new.settings ≡ piece.old.settings }
    ensures number { piece.new.number ≡ number }
{
    let window = Window {
        left: [0; 1632],
        right: [0; 1632],
    };
    piece.load(number, &window, 0);
}
