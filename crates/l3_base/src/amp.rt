ghost use Rattle.std.specs.Prelude.{◌≡◌, ◌<◌, ◌≤◌, ℕ, List, replicate, slice_index, slice_set};
ghost use Rattle.l3_base.specs.Amp.{IsAmp};

use std::marker::Model;

/// The amplification of each scale factor band of a unit: 21 numbers of 0 to 3.
///
/// A band is quantised two steps of gain finer for each. Band 21, of the lines above the last scale
/// factor band, always counts as 0.
#[derive(Clone, Copy, Debug, PartialEq, Eq)]
pub struct Amp {
    bands: [u8; 21],
}

impl Model for Amp {
    ghost Value = { List ℕ };

    ghost view = { λ a. a.bands };

    ghost inverse = { λ list. record { bands = list } };

    ghost invariant = { λ a. IsAmp a.bands };
}

impl Amp {
    /// No band amplified.
    pub fn zero() -> Amp
        ensures { result ≡ replicate 21 0 }
    {
        Amp { bands: [0; 21] }
    }

    /// The amplification of a band, 0 to 3.
    pub fn get(&self, band: usize) -> u8
        requires { band < 21 }
        ensures value { result ≡ slice_index self.now band }
        ensures bound { result ≤ 3 }
        ensures amp { IsAmp self.now }
    {
        self.bands[band]
    }

    /// Makes `value` the amplification of a band.
    pub fn set(&mut self, band: usize, value: u8)
        requires place { band < 21 }
        requires small { value ≤ 3 }
        ensures { self.new ≡ slice_set self.old band value }
    {
        self.bands[band] = value;
    }
}
