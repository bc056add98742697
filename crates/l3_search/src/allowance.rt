ghost use Rattle.std.specs.Prelude.{◌≡◌, ◌≤◌, ◌<◌, ◌^◌, All, IfNone, IfSome};
ghost use Rattle.l3_base.specs.Rates.{hertz_index_of};
ghost use Rattle.l3_base.specs.Bands.{band_width};
ghost use Rattle.l3_search.specs.Noise.{allowances_of, bands_over, is_over, raised};

use l3_base::{Amp, SampleRate, edge};

// How many lines a band has.
#[inline(always)]
fn width(rate: usize, band: usize) -> u64
    requires rate { rate < 3 }
    requires band { band < 22 }
    ensures value { result ≡ band_width rate band }
    ensures bound { result ≤ 576 }
{
    u64::from(edge(rate, band + 1) - edge(rate, band))
}

/// How much noise is allowed in each of the 22 bands, by their energies: a 32nd of the energy, and
/// 1 for each line.
///
/// Units: those of energies, 2^-32 of the square of full scale. Range: below 2^60.
pub fn allowed(energies: &[u64; 22], rate: SampleRate, out: &mut [u64; 22])
    ensures value { out.new ≡ allowances_of (hertz_index_of rate) energies.now }
    ensures bound { All (λ a. a < 2 ^ 60) out.new }
{
    let frequency = rate.index();
    for band in 0..22 {
        out[band] = energies[band] / 32 + width(frequency, band);
    }
}

// Whether a band has more noise than is allowed.
#[inline(always)]
fn exceeds(noise: &[u128; 22], allowed: &[u64; 22], band: usize) -> bool
    requires { band < 22 }
    ensures { result ≡ is_over noise.now allowed.now band }
{
    u128::from(allowed[band]) < noise[band]
}

/// How many of bands 0 to 20 have more noise than is allowed. Band 21 cannot be amplified, and does
/// not count.
pub fn over(noise: &[u128; 22], allowed: &[u64; 22]) -> u8
    ensures value { result ≡ bands_over noise.now allowed.now }
    ensures limit { result ≤ 21 }
{
    let mut bands = 0u8;
    for band in 0..21 {
        if exceeds(noise, allowed, band) {
            bands += 1;
        }
    }
    bands
}

/// The amplification with one more in each of bands 0 to 20 that has more noise than is allowed, or
/// `None` where none has.
pub fn raise(amp: &Amp, noise: &[u128; 22], allowed: &[u64; 22]) -> Option<Amp>
    requires { All (λ a. a < 3) amp.now }
    ensures some { IfSome result (λ next. (next ≡ raised amp.now noise.now allowed.now) × (0 < bands_over noise.now allowed.now)) }
    ensures none { IfNone result (bands_over noise.now allowed.now ≡ 0) }
{
    if over(noise, allowed) == 0 {
        return None;
    }
    let mut next = Amp::zero();
    for band in 0..21 {
        let more = if exceeds(noise, allowed, band) { 1 } else { 0 };
        next.set(band, amp.get(band) + more);
    }
    Some(next)
}
