ghost use Rattle.std.specs.Prelude.{◌≡◌, ◌+◌, ◌*◌, ◌<◌, ◌^◌, ℕ, All, pos, ◌+ℤ◌, ◌*ℤ◌, length};
ghost use Rattle.l3_base.specs.Slots.{slot_in};
ghost use Rattle.l3_base.specs.Lists.{entry};
ghost use Rattle.l3_base.specs.Sums.{floor_div, IsWithin};
ghost use Rattle.l3_transform.specs.Spectrum.{windowed, line_from, line_before};
ghost use Rattle.l3_transform.specs.SlotFold.{folded_slots_sum};

use crate::cosines::{cosine, window};
use crate::rounding::{ninth, product, rounded};
use crate::slot_fold::fold_slots;
use l3_base::{Slots36, Spectrum, add_product};

// The 36 slots of a subband under the window of a long block.
#[inline(always)]
fn windowed_slots(slots: &Slots36, band: usize) -> [i32; 36]
    requires place { band < 32 }
    requires small { All (All (IsWithin 44598016)) slots.now }
    ensures value { (k : ℕ) → k < 36 → entry result k ≡ windowed (slot_in slots.now band) k }
    ensures bound { (k : ℕ) → k < 36 → IsWithin 44598016 (entry result k) }
{
    let mut z = [0i32; 36];
    for k in 0..36 {
        let sum = product(slots.get(band, k), window(k));
        z[k] = rounded(sum);
    }
    z
}

// The sum of line `m` out of the folded slots of its subband.
#[inline(always)]
fn line_sum(f: &[i32; 18], m: usize) -> i64
    requires line { m < 18 }
    requires small { (k : ℕ) → k < 18 → IsWithin 89196032 (entry f.now k) }
    ensures value { result ≡ folded_slots_sum (entry f.now) m }
    ensures bound { IsWithin (18 * (89196032 * 2 ^ 15)) result }
{
    let mut sum = 0i64;
    for k in 0..18 {
        sum = add_product(sum, i64::from(f[k]), i64::from(cosine(m, k)));
    }
    sum
}

// The sums of the 18 lines.
#[inline(always)]
fn line_sums(f: &[i32; 18], sums: &mut [i64; 18])
    requires { (k : ℕ) → k < 18 → IsWithin 89196032 (entry f.now k) }
    ensures value { (m : ℕ) → m < 18 → entry sums.new m ≡ folded_slots_sum (entry f.now) m }
    ensures bound { (m : ℕ) → m < 18 → IsWithin (18 * (89196032 * 2 ^ 15)) (entry sums.new m) }
{
    for m in 0..18 {
        sums[m] = line_sum(f, m);
    }
}

// Sets the 18 lines of a subband: a ninth of each sum.
#[inline(always)]
fn set_lines(out: &mut Spectrum, band: usize, sums: &[i64; 18])
    requires place { band < 32 }
    requires long { length out.old ≡ 576 }
    requires small { (m : ℕ) → m < 18 → IsWithin (18 * (89196032 * 2 ^ 15)) (entry sums.now m) }
    ensures long { length out.new ≡ 576 }
    ensures lines { (m : ℕ) → m < 18 → entry out.new (18 * band + m) ≡ floor_div (pos 2 *ℤ entry sums.now m +ℤ pos (9 * 2 ^ 15)) (18 * 2 ^ 15) }
    ensures before { (n : ℕ) → n < 18 * band → entry out.new n ≡ entry out.old n }
{
    for m in 0..18 {
        out.set(18 * band + m, ninth(sums[m]));
    }
}

// The 18 lines of a subband out of its 36 slots.
#[inline(always)]
fn transform_subband(slots: &Slots36, band: usize, out: &mut Spectrum)
    requires place { band < 32 }
    requires small { All (All (IsWithin 44598016)) slots.now }
    requires long { length out.old ≡ 576 }
    ensures long { length out.new ≡ 576 }
    ensures lines { (m : ℕ) → m < 18 → entry out.new (18 * band + m) ≡ line_from (windowed (slot_in slots.now band)) m }
    ensures before { (n : ℕ) → n < 18 * band → entry out.new n ≡ entry out.old n }
{
    let z = windowed_slots(slots, band);
    let f = fold_slots(&z);
    let mut sums = [0i64; 18];
    line_sums(&f, &mut sums);
    set_lines(out, band, &sums);
}

// The 576 lines before the alias reduction.
pub(crate) fn transform(slots: &Slots36, out: &mut Spectrum)
    requires { All (All (IsWithin 44598016)) slots.now }
    ensures long { length out.new ≡ 576 }
    ensures value { (n : ℕ) → n < 576 → entry out.new n ≡ line_before slots.now n }
    ensures bound { (n : ℕ) → n < 576 → IsWithin 178392064 (entry out.new n) }
{
    *out = Spectrum::zero();
    for band in 0..32 {
        transform_subband(slots, band, out);
    }
}
