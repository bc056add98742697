ghost use Rattle.std.specs.Prelude.{◌≡◌, ◌≤◌, ◌<◌, ◌*◌, ◌^◌, ◌≤ℤ◌, pos, negsuc, unsigned_abs, All, Some, length, replicate, slice_index};
ghost use Rattle.std.specs.List.{sum_by};
ghost use Rattle.l3_base.specs.Amp.{IsAmp};
ghost use Rattle.l3_base.specs.Rates.{hertz_index_of};
ghost use Rattle.l3_base.specs.Spectrum.{IsLine, IsSpectrum};
ghost use Rattle.l3_base.specs.Bands.{band_edges, edges_at};
ghost use Rattle.l3_quant.specs.Quantiser.{quantised_lines};
ghost use Rattle.l3_quant.specs.Amplified.{band_gain, quantised_bands};
ghost use Rattle.l3_count.specs.Count.{count_of};
ghost use Rattle.l3_search.specs.Noise.{noise_of_line, noise_of, noises_of};

use crate::line_noise::{line_noise, step_of};
use l3_base::{Amp, SampleRate, Spectrum, edge};
use l3_count::Count;
use l3_quant::all_amp;

// Room for 576 quantised values.
fn no_values() -> [i16; 576]
    ensures { result ≡ replicate 576 (pos 0) }
{
    [0; 576]
}

// How many steps finer a band is quantised: two for each of its amplification. Band 21 has none.
#[inline(always)]
fn finer_steps(amp: &Amp, band: usize) -> u8
    requires { band < 22 }
    ensures value { result ≡ 2 * slice_index amp.now band }
    ensures bound { result ≤ 6 }
{
    let finer = 2 * amp.get(band.min(20));
    if band < 21 { finer } else { 0 }
}

// The gain of a band.
#[inline(always)]
fn gain_of_band(amp: &Amp, gain: u8, band: usize) -> i16
    requires { band < 22 }
    ensures value { result ≡ band_gain amp.now (pos gain) band }
    ensures low { negsuc 63 ≤ℤ result }
    ensures high { result ≤ℤ pos 255 }
{
    i16::from(gain) - i16::from(finer_steps(amp, band))
}

// The noise of lines that are quantised to these values at a gain.
fn sum_of_noise(lines: &[i32], values: &[i16], gain: i16) -> u128
    requires small { All IsLine lines.now }
    requires long { length lines.now ≤ 576 }
    requires values { values.now ≡ quantised_lines gain lines.now }
    requires codable { All (λ q. unsigned_abs q ≤ 8191) values.now }
    requires low { negsuc 63 ≤ℤ gain }
    requires high { gain ≤ℤ pos 255 }
    ensures value { result ≡ sum_by (noise_of_line gain) lines.now }
    ensures bound { result ≤ length lines.now * 2 ^ 92 }
{
    let step = step_of(gain);
    let mut sum = 0u128;
    for i in 0..lines.len() {
        sum += line_noise(lines[i], values[i], &step);
    }
    sum
}

// The noise of a band of 576 lines that are quantised to these values.
fn band_noise(
    lines: &[i32; 576],
    values: &[i16; 576],
    rate: usize,
    amp: &Amp,
    gain: u8,
    band: usize,
) -> u128
    requires spectrum { IsSpectrum lines.now }
    requires values { values.now ≡ quantised_bands (edges_at rate) amp.now (pos gain) lines.now }
    requires codable { All (λ q. unsigned_abs q ≤ 8191) values.now }
    requires rate { rate < 3 }
    requires band { band < 22 }
    ensures value { result ≡ noise_of rate amp.now gain lines.now band }
    ensures bound { result < 2 ^ 102 }
{
    let from = usize::from(edge(rate, band));
    let to = usize::from(edge(rate, band + 1));
    sum_of_noise(
        &lines[from..to],
        &values[from..to],
        gain_of_band(amp, gain, band),
    )
}

/// The noise of the 22 bands of a spectrum in a count of it.
///
/// Units: 2^-32 of the square of full scale, as those of energies. Range: below 2^102.
pub fn noise(spec: &Spectrum, rate: SampleRate, count: &Count, out: &mut [u128; 22])
    requires { count_of (band_edges rate) count.now.amp spec.now count.now.gain ≡ Some count.now }
    ensures value { out.new ≡ noises_of (hertz_index_of rate) count.now.amp count.now.gain spec.now }
    ensures bound { All (λ n. n < 2 ^ 102) out.new }
{
    let amp = count.amp();
    let gain = count.gain();
    let mut values = no_values();
    // For the proof: a count is there only where each value is at most 8191, so this is true.
    let _coded = all_amp(spec, rate, &amp, gain, &mut values);
    let lines = spec.lines();
    let index = rate.index();
    for band in 0..22 {
        out[band] = band_noise(lines, &values, index, &amp, gain, band);
    }
}
