ghost use Rattle.std.specs.Prelude.{◌≡◌, ℕ, ◌<◌, ◌≤◌, ◌+◌, ◌-◌, ◌^◌, ℤ, List, All, Any, pos, unsigned_abs};
ghost use Rattle.l3_base.specs.declared.rate.SampleRate.{SampleRate};
ghost use Rattle.l3_base.specs.Amp.{no_amp};
ghost use Rattle.l3_base.specs.Bands.{band_edges};
ghost use Rattle.l3_quant.specs.Quantiser.{magnitude_at, magnitude, quantised_lines, IsCodable};
ghost use Rattle.l3_quant.specs.Amplified.{quantised_bands};
ghost use Rattle.l3_quant.specs.Gains.{first_gain_of};
ghost use Rattle.l3_quant.specs.Magnitudes.{AreLinePeaks};

use crate::bands::finer_steps;
use crate::peaks::{line_peaks, peak};
use crate::quantiser::{GREATEST, cut_magnitude};
use l3_base::{Amp, SampleRate, Spectrum};

// The least gain from `least` on at which the absolute value can be coded, so many quarter steps
// finer than at that gain, by halving: a value falls as the gain rises.
fn least_gain(x: u32, finer: u32, least: u8) -> u8
    requires line { x < 2 ^ 29 }
    requires finer { finer ≤ 6 }
    ensures from { least ≤ result }
    ensures coded { magnitude_at x (258 - result + finer) ≤ 8191 }
    ensures least { (k : ℕ) → least ≤ k → k < result → 8191 < magnitude_at x (258 - k + finer) }
{
    if cut_magnitude(x, 258 - u32::from(least) + finer) <= GREATEST {
        return least;
    }
    let mut low = least;
    let mut high = 255u8;
    while low < high {
        let middle = low + (high - low) / 2;
        if cut_magnitude(x, 258 - u32::from(middle) + finer) <= GREATEST {
            high = middle;
        } else {
            low = middle + 1;
        }
    }
    low
}

/// The least gain of 0 to 255 at which each value of the spectrum is at most 8191.
pub fn first_gain(spec: &Spectrum) -> u8
    ensures value { (edges : List ℕ) → result ≡ first_gain_of edges no_amp spec.now }
    ensures codable { IsCodable (quantised_lines (pos result) spec.now) }
    ensures least { (k : ℕ) → k < result → Any (λ x. 8191 < magnitude (pos k) x) spec.now }
{
    least_gain(peak(spec.lines()), 0, 0)
}

/// The least gain of 0 to 255 at which each value of the spectrum is at most 8191, where each line
/// is quantised at the gain of its band: that gain, less 2 for each of the amplification.
pub fn first_gain_amp(spec: &Spectrum, rate: SampleRate, amp: &Amp) -> u8
    ensures value { result ≡ first_gain_of (band_edges rate) amp.now spec.now }
    ensures codable { IsCodable (quantised_bands (band_edges rate) amp.now (pos result) spec.now) }
    ensures least { (k : ℕ) → k < result → Any (λ q. 8191 < unsigned_abs q) (quantised_bands (band_edges rate) amp.now (pos k) spec.now) }
{
    first_gain_with(&line_peaks(spec, rate), amp)
}

/// The same over the spectrum's greatest line of each band, which `line_peaks` gives.
pub fn first_gain_with(peaks: &[u32; 22], amp: &Amp) -> u8
    requires small { All (λ p. p < 2 ^ 29) peaks.now }
    ensures value { (rate : SampleRate) (spec : List ℤ) → AreLinePeaks (band_edges rate) spec peaks.now → result ≡ first_gain_of (band_edges rate) amp.now spec }
    ensures codable { (rate : SampleRate) (spec : List ℤ) → AreLinePeaks (band_edges rate) spec peaks.now → IsCodable (quantised_bands (band_edges rate) amp.now (pos result) spec) }
    ensures least { (rate : SampleRate) (spec : List ℤ) → AreLinePeaks (band_edges rate) spec peaks.now → (k : ℕ) → k < result → Any (λ q. 8191 < unsigned_abs q) (quantised_bands (band_edges rate) amp.now (pos k) spec) }
{
    let mut gain = 0u8;
    for band in 0..22 {
        gain = least_gain(peaks[band], finer_steps(amp, band), gain);
    }
    gain
}
