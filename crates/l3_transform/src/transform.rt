ghost use Rattle.std.specs.Prelude.{◌≡◌, ◌^◌, All};
ghost use Rattle.l3_base.specs.Sums.{IsWithin};
ghost use Rattle.l3_transform.specs.Spectrum.{lines_of};

use crate::alias::reduce;
use crate::lines::transform;
use l3_base::{Slots36, Spectrum};

/// The 576 lines of 32 subbands of 36 slots, lowest first.
///
/// Line 18 i + m is line m of subband i. Units: 2^-24 of full scale.
pub fn spectrum(slots: &Slots36, out: &mut Spectrum)
    requires { All (All (IsWithin 44598016)) slots.now }
    ensures value { out.new ≡ lines_of slots.now }
    ensures bound { All (IsWithin (2 ^ 28)) out.new }
{
    transform(slots, out);
    reduce(out);
}
