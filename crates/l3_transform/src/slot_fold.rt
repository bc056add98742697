ghost use Rattle.std.specs.Prelude.{◌≡◌, ◌<◌, ◌^◌, ◌*ℤ◌, ℕ, unsigned_abs};
ghost use Rattle.l3_base.specs.Lists.{entry, tabulate};
ghost use Rattle.l3_base.specs.Sums.{sum_below, IsWithin};
ghost use Rattle.l3_transform.specs.Spectrum.{line_cosine};
ghost use Rattle.l3_transform.specs.SlotFold.{folded_slot, folded_slots_sum};

/// Folds the 36 windowed slots of a subband to 18, which halves the products of each line.
///
/// Shape: slots in order of time, each below 2^40 in absolute value. First come the differences of
/// the first 18 slots, then the sums of the last 18.
pub fn fold36(z: &[i64; 36], t: &mut [i64; 18])
    requires { (k : ℕ) → k < 36 → unsigned_abs (entry z.now k) < 2 ^ 40 }
    ensures value { t.new ≡ tabulate 18 (folded_slot (entry z.now)) }
    ensures sum { (m : ℕ) → m < 18 → folded_slots_sum (entry t.new) m ≡ sum_below 36 (λ k. entry z.now k *ℤ line_cosine m k) }
{
    for k in 0..9 {
        t[k] = z[k] - z[17 - k];
    }
    for k in 9..18 {
        t[k] = z[9 + k] + z[44 - k];
    }
}

// The same of slots of 32 bits, since two products of 32 bits are made at once: the transform uses
// this one, and [`fold36`] is for slots that do not fit.
#[inline(always)]
pub(crate) fn fold_slots(z: &[i32; 36]) -> [i32; 18]
    requires { (k : ℕ) → k < 36 → IsWithin 44598016 (entry z.now k) }
    ensures value { (k : ℕ) → k < 18 → entry result k ≡ folded_slot (entry z.now) k }
    ensures bound { (k : ℕ) → k < 18 → IsWithin 89196032 (entry result k) }
{
    let mut f = [0i32; 18];
    for k in 0..9 {
        f[k] = z[k] - z[17 - k];
    }
    for k in 9..18 {
        f[k] = z[9 + k] + z[44 - k];
    }
    f
}
