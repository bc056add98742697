ghost use Rattle.std.specs.Prelude.{◌≡◌, ◌≤◌};
ghost use Rattle.l3_base.specs.Rates.{hertz_index_of};
ghost use Rattle.l3_transform.specs.Demand.{energies_of, demand_of};

use crate::band::{band_eighths, band_energy};
use l3_base::{SampleRate, Spectrum};

/// The energies of the 22 bands, lowest first.
///
/// Units: 2^-32 of the square of full scale.
pub fn energies(spec: &Spectrum, rate: SampleRate, out: &mut [u64; 22])
    ensures { out.new ≡ energies_of (hertz_index_of rate) spec.now }
{
    let lines = spec.lines();
    let frequency = rate.index();
    for band in 0..22 {
        out[band] = band_energy(lines, frequency, band);
    }
}

/// How many bits the spectrum asks for.
pub fn demand(spec: &Spectrum, rate: SampleRate) -> u32
    ensures value { result ≡ demand_of (hertz_index_of rate) spec.now }
    ensures limit { result ≤ 3024 }
{
    let lines = spec.lines();
    let frequency = rate.index();
    let mut eighths = 0u32;
    for band in 0..22 {
        eighths += band_eighths(lines, frequency, band);
    }
    eighths / 8
}
