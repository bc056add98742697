ghost use Rattle.std.specs.Prelude.{◌≡◌, ◌≤◌, ◌<◌, ◌^◌, ◌≤ℤ◌, pos, negsuc, unsigned_abs};
ghost use Rattle.l3_base.specs.Spectrum.{IsLine};
ghost use Rattle.l3_quant.specs.Reconstruction.{four_thirds_of, reconstructed};
ghost use Rattle.l3_search.specs.Noise.{noise_of_value};
ghost use Rattle.l3_search.specs.Kernels.{IsStepOf};

use l3_base::quarter;
use l3_quant::reconstruct;

// At this gain a value stands for its power 4/3 in units of 2^-12, and nothing is left to round.
const POWER_GAIN: i16 = 162;

// What a band's values are rebuilt by: a gain, and for it a power of 2 and a factor of quarter
// steps.
#[derive(Clone, Copy)]
pub(crate) struct Step {
    gain: i16,
    doubled: u64,
    factor: u64,
}

// The step of a gain.
pub(crate) fn step_of(gain: i16) -> Step
    requires low { negsuc 63 ≤ℤ gain }
    requires high { gain ≤ℤ pos 255 }
    ensures { IsStepOf gain result }
{
    let h = (258 - i32::from(gain)).unsigned_abs();
    Step {
        gain,
        doubled: 1 << (54 - (h / 4).min(54)),
        factor: quarter((h % 4) as usize).unsigned_abs(),
    }
}

// The power 4/3 of a value in units of 2^-12.
#[inline(always)]
fn power(n: u16) -> u64
    requires { n ≤ 8206 }
    ensures value { result ≡ four_thirds_of n }
    ensures small { result < 2 ^ 54 }
{
    reconstruct(n, POWER_GAIN)
}

// What a value stands for at a step. The product is within 64 bits for the values of a spectrum's
// own lines.
#[inline(always)]
fn rebuilt(n: u16, step: &Step) -> u64
    requires value { n ≤ 8206 }
    requires step { IsStepOf step.now.gain step.now }
    requires low { negsuc 63 ≤ℤ step.now.gain }
    requires high { step.now.gain ≤ℤ pos 255 }
    ensures value { result ≡ reconstructed n step.now.gain }
    ensures bound { result < 2 ^ 54 }
{
    match power(n).checked_mul(step.doubled) {
        Some(product) => product / step.factor,
        None => reconstruct(n, step.gain),
    }
}

// The noise of a line that is quantised to a value at a step.
#[inline(always)]
pub(crate) fn line_noise(x: i32, value: i16, step: &Step) -> u128
    requires line { IsLine x }
    requires value { unsigned_abs value ≤ 8206 }
    requires step { IsStepOf step.now.gain step.now }
    requires low { negsuc 63 ≤ℤ step.now.gain }
    requires high { step.now.gain ≤ℤ pos 255 }
    ensures value { result ≡ noise_of_value step.now.gain x (unsigned_abs value) }
    ensures bound { result < 2 ^ 92 }
{
    let rebuilt = rebuilt(value.unsigned_abs(), step);
    let error = u64::from(x.unsigned_abs()).abs_diff(rebuilt) / 256;
    u128::from(error) * u128::from(error)
}
