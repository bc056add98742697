ghost use Rattle.std.specs.Prelude.{◌≡◌, ◌+◌, ◌-◌, ◌*◌, ◌<◌, ◌≤◌, ◌^◌, ℕ, All, length};
ghost use Rattle.l3_base.specs.Lists.{entry, tabulate};
ghost use Rattle.l3_base.specs.Sums.{IsWithin};
ghost use Rattle.l3_transform.specs.Spectrum.{lower_end, upper_end, line_after};
ghost use Rattle.l3_transform.specs.Alias.{with_butterfly};

use crate::rounding::{product, rounded};
use l3_base::{Spectrum, ca, cs};

// The lower end of butterfly `k` of `a` below and `b` above the border.
#[inline(always)]
fn lower(k: usize, a: i32, b: i32) -> i32
    requires butterfly { k < 8 }
    requires below { IsWithin 178392064 a }
    requires above { IsWithin 178392064 b }
    ensures value { result ≡ lower_end k a b }
    ensures bound { IsWithin (2 ^ 28) result }
{
    let below = product(a, cs(k));
    let above = product(b, ca(k));
    rounded(below + above)
}

// The upper end of butterfly `k` of `a` below and `b` above the border.
#[inline(always)]
fn upper(k: usize, a: i32, b: i32) -> i32
    requires butterfly { k < 8 }
    requires below { IsWithin 178392064 a }
    requires above { IsWithin 178392064 b }
    ensures value { result ≡ upper_end k a b }
    ensures bound { IsWithin (2 ^ 28) result }
{
    let above = product(b, cs(k));
    let below = product(a, ca(k));
    rounded(above - below)
}

// Butterfly `k` about the lower end of subband `border`.
#[inline(always)]
fn butterfly(out: &mut Spectrum, border: usize, k: usize)
    requires border { 0 < border }
    requires subband { border < 32 }
    requires butterfly { k < 8 }
    requires long { length out.old ≡ 576 }
    requires below { IsWithin 178392064 (entry out.old (18 * border - 1 - k)) }
    requires above { IsWithin 178392064 (entry out.old (18 * border + k)) }
    ensures { out.new ≡ with_butterfly border k out.old }
{
    let below = out.lines()[18 * border - 1 - k];
    let above = out.lines()[18 * border + k];
    out.set(18 * border - 1 - k, lower(k, below, above));
    out.set(18 * border + k, upper(k, below, above));
}

// The eight butterflies about the lower end of subband `border`.
#[inline(always)]
fn butterflies(out: &mut Spectrum, border: usize)
    requires border { 0 < border }
    requires subband { border < 32 }
    requires long { length out.old ≡ 576 }
    requires small { (n : ℕ) → 18 * border ≤ n + 8 → n < 18 * border + 8 → IsWithin 178392064 (entry out.old n) }
    ensures long { length out.new ≡ 576 }
    ensures lower { (k : ℕ) → k < 8 → entry out.new (18 * border - 1 - k) ≡ lower_end k (entry out.old (18 * border - 1 - k)) (entry out.old (18 * border + k)) }
    ensures upper { (k : ℕ) → k < 8 → entry out.new (18 * border + k) ≡ upper_end k (entry out.old (18 * border - 1 - k)) (entry out.old (18 * border + k)) }
    ensures before { (n : ℕ) → n + 8 < 18 * border → entry out.new n ≡ entry out.old n }
    ensures after { (n : ℕ) → 18 * border + 8 ≤ n → entry out.new n ≡ entry out.old n }
{
    for k in 0..8 {
        butterfly(out, border, k);
    }
}

// The lines after the alias reduction.
pub(crate) fn reduce(out: &mut Spectrum)
    requires long { length out.old ≡ 576 }
    requires small { (n : ℕ) → n < 576 → IsWithin 178392064 (entry out.old n) }
    ensures value { out.new ≡ tabulate 576 (line_after (entry out.old)) }
    ensures bound { All (IsWithin (2 ^ 28)) out.new }
{
    for border in 1..32 {
        butterflies(out, border);
    }
}
