ghost use Rattle.std.specs.Prelude.{◌≡◌, ◌<◌, ◌≤◌, ◌*◌, ℕ, length, pos, replicate, slice_index, true};
ghost use Rattle.l3_base.specs.Amp.{IsAmp, no_amp};
ghost use Rattle.l3_quant.specs.Quantiser.{steps_of};
ghost use Rattle.l3_count.specs.Planes.{key_at};
ghost use Rattle.l3_count.specs.Marks.{AreKeys, band_steps};

use l3_base::Amp;

// How many quarter steps finer a band is quantised: two for each of its amplification. The last
// band has none.
#[inline(always)]
fn finer_steps(amp: &Amp, band: usize) -> u16
    requires { band < 22 }
    ensures value { result ≡ 2 * slice_index amp.now band }
    ensures bound { result ≤ 6 }
    ensures amp { IsAmp amp.now }
{
    let finer = 2 * u16::from(amp.get(band.min(20)));
    if band < 21 { finer } else { 0 }
}

// The key of a band's gain.
#[inline(always)]
fn band_key(amp: &Amp, gain: u8, band: usize) -> u8
    requires { band < 22 }
    ensures value { result ≡ key_at (band_steps amp.now gain band) }
    ensures some { 0 < result }
{
    (u16::from(gain) + 8 - finer_steps(amp, band)).min(255) as u8
}

// No keys yet.
#[inline(always)]
fn no_keys() -> [u8; 32]
    ensures { result ≡ replicate 32 0 }
{
    [0; 32]
}

// The key of a gain where no band is amplified.
#[inline(always)]
pub(crate) fn equal_key(gain: u8) -> u8
    ensures value { result ≡ key_at (steps_of (pos gain)) }
    ensures some { 0 < result }
{
    (u16::from(gain) + 8).min(255) as u8
}

// The keys of all bands at a gain where none is amplified: one and the same.
#[inline(always)]
fn equal_keys(gain: u8) -> [u8; 32]
    ensures keys { AreKeys no_amp gain result }
    ensures some { (b : ℕ) → b < 22 → 0 < slice_index result b }
    ensures long { length result ≡ 32 }
{
    [equal_key(gain); 32]
}

// The keys of all bands at a gain, and then zeros.
fn band_keys(amp: &Amp, gain: u8) -> [u8; 32]
    ensures keys { AreKeys amp.now gain result }
    ensures some { (b : ℕ) → b < 22 → 0 < slice_index result b }
    ensures long { length result ≡ 32 }
{
    let mut keys = no_keys();
    for band in 0..22 {
        keys[band] = band_key(amp, gain, band);
    }
    keys
}

// Whether no band is amplified.
#[inline(always)]
pub(crate) fn is_plain(amp: &Amp) -> bool
    ensures { result ≡ true → amp.now ≡ no_amp }
{
    *amp == Amp::zero()
}

// The keys of all bands at a gain.
#[inline(always)]
pub(crate) fn keys_at(amp: &Amp, gain: u8) -> [u8; 32]
    ensures keys { AreKeys amp.now gain result }
    ensures some { (b : ℕ) → b < 22 → 0 < slice_index result b }
    ensures long { length result ≡ 32 }
{
    if is_plain(amp) {
        equal_keys(gain)
    } else {
        band_keys(amp, gain)
    }
}

// The least key of a band.
pub(crate) fn least_key(keys: &[u8; 32]) -> u8
    requires { (b : ℕ) → b < 22 → 0 < slice_index keys.now b }
    ensures least { (b : ℕ) → b < 22 → result ≤ slice_index keys.now b }
    ensures some { 0 < result }
{
    let mut least = 255u8;
    for band in 0..22 {
        least = least.min(keys[band]);
    }
    least
}
