ghost use Rattle.std.specs.Prelude.{ℕ, ℤ, List, ◌≡◌, ◌<◌, ◌≤◌, ◌≤ℤ◌, ◌+◌, ◌^◌, pos, negsuc, unsigned_abs, nat_le, replicate, slice_range, All, Any};
ghost use Rattle.std.specs.List.{list_all};
ghost use Rattle.l3_base.specs.Spectrum.{IsLine};
ghost use Rattle.l3_base.specs.Bands.{edge_at, band_edges};
ghost use Rattle.l3_base.specs.Peaks.{IsPeak};
ghost use Rattle.l3_quant.specs.Magnitudes.{AreLinePeaks};

use l3_base::{SampleRate, Spectrum, edge};

// The greatest absolute value.
#[inline(always)]
pub(crate) fn peak(lines: &[i32]) -> u32
    requires { All IsLine lines.now }
    ensures small { result < 2 ^ 29 }
    ensures value { IsPeak lines.now result }
{
    let mut peak = 0u32;
    for &x in lines {
        peak = peak.max(x.unsigned_abs());
    }
    peak
}

// The greatest absolute value of the lines of a band.
fn band_peak(lines: &[i32; 576], rate: usize, band: usize) -> u32
    requires small { All IsLine lines.now }
    requires rate { rate < 3 }
    requires band { band < 22 }
    ensures small { result < 2 ^ 29 }
    ensures value { IsPeak (slice_range lines.now (edge_at rate band) (edge_at rate (band + 1))) result }
{
    let from = usize::from(edge(rate, band));
    let to = usize::from(edge(rate, band + 1));
    peak(&lines[from..to])
}

// Room for the peaks of 22 bands.
#[inline(always)]
fn no_peaks() -> [u32; 22]
    ensures { result ≡ replicate 22 0 }
{
    [0; 22]
}

/// The greatest absolute value of the lines of each band, below 2^29. It serves all gains and
/// amplifications.
pub fn line_peaks(spec: &Spectrum, rate: SampleRate) -> [u32; 22]
    ensures { AreLinePeaks (band_edges rate) spec.now result }
{
    let lines = spec.lines();
    let frequency = rate.index();
    let mut peaks = no_peaks();
    for band in 0..22 {
        peaks[band] = band_peak(lines, frequency, band);
    }
    peaks
}
