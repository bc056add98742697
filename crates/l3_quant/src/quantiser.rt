ghost use Rattle.std.specs.Prelude.{◌≡◌, ◌<◌, ◌≤◌, ◌^◌, ◌≤ℤ◌, ℕ, pos, negsuc, unsigned_abs, replicate, min, All, Any, IfSome, IfNone};
ghost use Rattle.std.specs.Bool.{OnTrue, OnFalse};
ghost use Rattle.l3_base.specs.Spectrum.{IsLine};
ghost use Rattle.l3_base.specs.Bands.{band_edges};
ghost use Rattle.l3_quant.specs.Quantiser.{magnitude_at, magnitude, with_sign_of, quantised_lines, IsCodable};
ghost use Rattle.l3_quant.specs.Amplified.{quantised_bands};
ghost use Rattle.l3_quant.specs.Values.{AreScaled, AreValues, IsAboveAt};

use crate::bands::scale_bands;
use crate::reached::reached;
use crate::scale::{scale_lines, scaled_line, steps};
use l3_base::{Amp, SampleRate, Spectrum};

// The greatest absolute value of a quantised line. Layer III's code tables take up to 8206; the
// limit is this project's own.
pub(crate) const GREATEST: u32 = 8191;

// The quantised value of an absolute value, cut at 8192.
#[inline(always)]
pub(crate) fn cut_magnitude(x: u32, h: u32) -> u32
    requires line { x < 2 ^ 29 }
    requires steps { h ≤ 322 }
    ensures { result ≡ min (magnitude_at x h) 8192 }
{
    reached(scaled_line(x, h))
}

/// The absolute value of the quantised value of a line, or `None` above 8191.
///
/// Gain: `global_gain` of 0 to 255, or down to -64 where scale factors lower it.
pub fn line(x: i32, gain: i16) -> Option<u16>
    requires small { IsLine x }
    requires low { negsuc 63 ≤ℤ gain }
    requires high { gain ≤ℤ pos 255 }
    ensures some { IfSome result (λ n. (n ≡ magnitude gain x) × (n ≤ 8191)) }
    ensures none { IfNone result (8191 < magnitude gain x) }
{
    let n = cut_magnitude(x.unsigned_abs(), steps(gain));
    if n <= GREATEST { Some(n as u16) } else { None }
}

// The value with the sign of the line, by a product: signs are too irregular for a branch.
#[inline(always)]
fn signed(n: u32, x: i32) -> i16
    requires { n ≤ 8191 }
    ensures value { result ≡ with_sign_of x n }
    ensures bound { unsigned_abs result ≤ 8191 }
{
    (1 - 2 * i16::from(x < 0)) * (n as i16)
}

/// Writes the quantised values of all lines to `out`, or stops at the first that is above 8191;
/// then nothing is promised of `out`.
///
/// Gain: `global_gain` of 0 to 255, or down to -64 where scale factors lower it.
pub fn all(spec: &Spectrum, gain: i16, out: &mut [i16; 576]) -> bool
    requires low { negsuc 63 ≤ℤ gain }
    requires high { gain ≤ℤ pos 255 }
    ensures codable { OnTrue result (IsCodable (quantised_lines gain spec.now)) }
    ensures values { OnTrue result (out.new ≡ quantised_lines gain spec.now) }
    ensures bound { OnTrue result (All (λ q. unsigned_abs q ≤ 8191) out.new) }
    ensures above { OnFalse result (Any (λ x. 8191 < magnitude gain x) spec.now) }
{
    let lines = spec.lines();
    let mut scaled = unscaled();
    scale_lines(lines, steps(gain), &mut scaled);
    write_values(lines, &scaled, out)
}

/// The same where each line is quantised at the gain of its band: `gain`, less 2 for each of the
/// band's amplification.
pub fn all_amp(spec: &Spectrum, rate: SampleRate, amp: &Amp, gain: u8, out: &mut [i16; 576]) -> bool
    ensures codable { OnTrue result (IsCodable (quantised_bands (band_edges rate) amp.now (pos gain) spec.now)) }
    ensures values { OnTrue result (out.new ≡ quantised_bands (band_edges rate) amp.now (pos gain) spec.now) }
    ensures bound { OnTrue result (All (λ q. unsigned_abs q ≤ 8191) out.new) }
    ensures above { OnFalse result (Any (λ q. 8191 < unsigned_abs q) (quantised_bands (band_edges rate) amp.now (pos gain) spec.now)) }
{
    let lines = spec.lines();
    let mut scaled = unscaled();
    scale_bands(lines, rate.index(), amp, gain, &mut scaled);
    write_values(lines, &scaled, out)
}

// Room for 576 scaled lines.
fn unscaled() -> [u32; 576]
    ensures { result ≡ replicate 576 0 }
{
    [0; 576]
}

// Writes the values of all lines that were scaled, or stops at the first that is above 8191.
fn write_values(lines: &[i32; 576], scaled: &[u32; 576], out: &mut [i16; 576]) -> bool
    requires { All IsLine lines.now }
    ensures values { OnTrue result ((steps : ℕ → ℕ) → AreScaled steps lines.now scaled.now → AreValues steps lines.now out.new) }
    ensures bound { OnTrue result (All (λ q. unsigned_abs q ≤ 8191) out.new) }
    ensures above { OnFalse result ((steps : ℕ → ℕ) → AreScaled steps lines.now scaled.now → IsAboveAt steps lines.now) }
{
    for i in 0..576 {
        let n = reached(scaled[i]);
        if n > GREATEST {
            return false;
        }
        out[i] = signed(n, lines[i]);
    }
    true
}
