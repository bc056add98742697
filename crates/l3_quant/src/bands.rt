ghost use Rattle.std.specs.Prelude.{◌≡◌, ◌<◌, ◌≤◌, ◌+◌, ◌*◌, ◌^◌, ℕ, All, slice_index, slice_index_or, min, pos, unsigned_abs};
ghost use Rattle.l3_base.specs.Amp.{IsAmp};
ghost use Rattle.l3_base.specs.Spectrum.{IsLine};
ghost use Rattle.l3_base.specs.Bands.{edge_at};
ghost use Rattle.l3_quant.specs.Quantiser.{scaled, steps_of};
ghost use Rattle.l3_quant.specs.Amplified.{band_gain};

use crate::scale::{scaled_line, steps};
use l3_base::{Amp, edge};

// How many quarter steps finer a band is quantised: two for each of its amplification. The last
// band has none.
#[inline(always)]
pub(crate) fn finer_steps(amp: &Amp, band: usize) -> u32
    requires { band < 22 }
    ensures value { result ≡ 2 * slice_index amp.now band }
    ensures bound { result ≤ 6 }
    ensures amp { IsAmp amp.now }
{
    let finer = 2 * u32::from(amp.get(band.min(20)));
    if band < 21 { finer } else { 0 }
}

// The quarter steps from a band's gain up to 258.
#[inline(always)]
pub(crate) fn band_steps(amp: &Amp, gain: u8, band: usize) -> u32
    requires { band < 22 }
    ensures value { result ≡ steps_of (band_gain amp.now (pos gain) band) }
    ensures bound { result ≤ 264 }
{
    steps(i16::from(gain)) + finer_steps(amp, band)
}

// The lines of a band scaled.
fn scale_band(lines: &[i32; 576], rate: usize, band: usize, h: u32, out: &mut [u32; 576])
    requires lines { All IsLine lines.now }
    requires rate { rate < 3 }
    requires band { band < 22 }
    requires steps { h ≤ 322 }
    ensures value { (k : ℕ) → edge_at rate band ≤ k → k < edge_at rate (band + 1) → slice_index out.new k ≡ min (scaled (unsigned_abs (slice_index_or lines.now k (pos 0))) h) (2 ^ 30) }
    ensures before { (k : ℕ) → k < edge_at rate band → slice_index out.new k ≡ slice_index out.old k }
{
    let from = usize::from(edge(rate, band));
    let to = usize::from(edge(rate, band + 1));
    for i in from..to {
        out[i] = scaled_line(lines[i].unsigned_abs(), h);
    }
}

// All lines scaled, each by the quarter steps of its band.
pub(crate) fn scale_bands(
    lines: &[i32; 576],
    rate: usize,
    amp: &Amp,
    gain: u8,
    out: &mut [u32; 576],
)
    requires lines { All IsLine lines.now }
    requires rate { rate < 3 }
    ensures { (band k : ℕ) → band < 22 → edge_at rate band ≤ k → k < edge_at rate (band + 1) → slice_index out.new k ≡ min (scaled (unsigned_abs (slice_index_or lines.now k (pos 0))) (steps_of (band_gain amp.now (pos gain) band))) (2 ^ 30) }
{
    for band in 0..22 {
        scale_band(lines, rate, band, band_steps(amp, gain, band), out);
    }
}
