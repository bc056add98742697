ghost use Rattle.std.specs.Prelude.{◌≡◌, ◌<◌, ◌≤◌, ◌^◌, ◌≤ℤ◌, pos, negsuc};
ghost use Rattle.l3_quant.specs.Reconstruction.{reconstructed};

use crate::four_thirds_table::four_thirds;
use crate::scale::steps;
use l3_base::quarter;

/// The absolute value of the line that a quantised value stands for, in units of 2^-24 of full
/// scale.
///
/// Value: 0 to 8206, as far as the code tables go. Gain: `global_gain` of 0 to 255, or down to -64
/// where scale factors lower it.
pub fn reconstruct(n: u16, gain: i16) -> u64
    requires value { n ≤ 8206 }
    requires low { negsuc 63 ≤ℤ gain }
    requires high { gain ≤ℤ pos 255 }
    ensures value { result ≡ reconstructed n gain }
    ensures bound { result < 2 ^ 54 }
{
    let h = steps(gain);
    let power = u128::from(four_thirds(usize::from(n)));
    let factor = u128::from(quarter((h % 4) as usize).unsigned_abs());
    ((power << 54) / (factor << (h / 4))) as u64
}
