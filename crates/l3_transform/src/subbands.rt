ghost use Rattle.std.specs.Prelude.{◌≡◌, ◌+◌, ◌*◌, ◌<◌, ◌≤◌, ◌^◌, ℕ, ℤ, All, ◌+ℤ◌, pos, length};
ghost use Rattle.l3_base.specs.Lists.{entry, tabulate};
ghost use Rattle.l3_base.specs.Sums.{floor_div, IsWithin};
ghost use Rattle.l3_base.specs.Filterbank.{slot_sum};
ghost use Rattle.l3_transform.specs.Fold.{folded_columns_sum, part_sum, AreSetOutside};
ghost use Rattle.l3_transform.specs.Pairs.{AreTaps};

use crate::coefficients::cosine;
use crate::columns::columns;
use l3_base::add_product;

// Every `step`-th folded column from `start`, `count` of them, each times its cosine for subband
// `i`, added up.
#[inline(always)]
fn part(columns: &[i64; 32], i: usize, start: usize, step: usize, count: usize) -> i64
    requires subband { i < 16 }
    requires places { (m : ℕ) → m < count → start + step * m < 32 }
    requires few { count ≤ 16 }
    requires small { (j : ℕ) → j < 32 → IsWithin (2 ^ 36) (entry columns.now j) }
    ensures value { result ≡ part_sum start step count (entry columns.now) i }
    ensures bound { IsWithin (count * (32768 * 2 ^ 36)) result }
{
    let mut sum = 0i64;
    for m in 0..count {
        let j = start + step * m;
        sum = add_product(sum, i64::from(cosine(i, j)), columns[j]);
    }
    sum
}

// The sums of every fourth folded column, for the lower 8 subbands.
//
// They fold a third time: subband 7 - i has the products of subband i, every other one with the
// other sign.
#[inline(always)]
fn fourth_sums(columns: &[i64; 32]) -> [i64; 8]
    requires { (j : ℕ) → j < 32 → IsWithin (2 ^ 36) (entry columns.now j) }
    ensures value { (i : ℕ) → i < 8 → entry result i ≡ part_sum 0 4 8 (entry columns.now) i }
    ensures small { (i : ℕ) → i < 8 → IsWithin (2 ^ 54) (entry result i) }
{
    let mut sums = [0i64; 8];
    for i in 0..4 {
        let first = part(columns, i, 0, 8, 4);
        let second = part(columns, i, 4, 8, 4);
        sums[i] = first + second;
        sums[7 - i] = first - second;
    }
    sums
}

// The sums of the 16 even folded columns, for the lower 16 subbands.
//
// They fold once more: subband 15 - i has the products of subband i, every other one with the other
// sign.
fn even_sums(columns: &[i64; 32]) -> [i64; 16]
    requires { (j : ℕ) → j < 32 → IsWithin (2 ^ 36) (entry columns.now j) }
    ensures value { (i : ℕ) → i < 16 → entry result i ≡ part_sum 0 2 16 (entry columns.now) i }
    ensures small { (i : ℕ) → i < 16 → IsWithin (2 ^ 55) (entry result i) }
{
    let fourth = fourth_sums(columns);
    let mut sums = [0i64; 16];
    for i in 0..8 {
        let second = part(columns, i, 2, 4, 8);
        sums[i] = fourth[i] + second;
        sums[15 - i] = fourth[i] - second;
    }
    sums
}

// A sum over 2^27, to the nearest.
#[inline(always)]
fn rounded(sum: i64) -> i32
    requires { IsWithin (2 ^ 57) sum }
    ensures { result ≡ floor_div (sum +ℤ pos (2 ^ 26)) (2 ^ 27) }
{
    ((sum + (1 << 26)) >> 27) as i32
}

// Sets the slots of subbands `i` and 31 - i, those before and behind them being set already.
//
// They have the same products, the odd ones with the other sign.
#[inline(always)]
fn set_opposite(columns: &[i64; 32], even: &[i64; 16], i: usize, out: &mut [i32; 32])
    requires subband { i < 16 }
    requires small { (j : ℕ) → j < 32 → IsWithin (2 ^ 36) (entry columns.now j) }
    requires value { (n : ℕ) → n < 16 → entry even.now n ≡ part_sum 0 2 16 (entry columns.now) n }
    requires bound { (n : ℕ) → n < 16 → IsWithin (2 ^ 55) (entry even.now n) }
    requires before { AreSetOutside (entry columns.now) i out.old }
    ensures { AreSetOutside (entry columns.now) (i + 1) out.new }
{
    let odd = part(columns, i, 1, 2, 16);
    out[i] = rounded(even[i] + odd);
    out[31 - i] = rounded(even[i] - odd);
}

// The slots of the 32 subbands of 32 folded columns.
//
// Each pair of subbands has a line of its own: so the cosines stand in the instructions, and none
// of them is loaded.
#[inline(never)]
fn slots_of_folded(columns: &[i64; 32], out: &mut [i32; 32])
    requires { (j : ℕ) → j < 32 → IsWithin (2 ^ 36) (entry columns.now j) }
    ensures long { length out.new ≡ 32 }
    ensures value { (i : ℕ) → i < 32 → entry out.new i ≡ floor_div (folded_columns_sum (entry columns.now) i +ℤ pos (2 ^ 26)) (2 ^ 27) }
{
    let even = even_sums(columns);
    set_opposite(columns, &even, 0, out);
    set_opposite(columns, &even, 1, out);
    set_opposite(columns, &even, 2, out);
    set_opposite(columns, &even, 3, out);
    set_opposite(columns, &even, 4, out);
    set_opposite(columns, &even, 5, out);
    set_opposite(columns, &even, 6, out);
    set_opposite(columns, &even, 7, out);
    set_opposite(columns, &even, 8, out);
    set_opposite(columns, &even, 9, out);
    set_opposite(columns, &even, 10, out);
    set_opposite(columns, &even, 11, out);
    set_opposite(columns, &even, 12, out);
    set_opposite(columns, &even, 13, out);
    set_opposite(columns, &even, 14, out);
    set_opposite(columns, &even, 15, out);
}

// The slots of the 32 subbands of slot `k` of some rows.
pub(crate) fn subbands(rows: &[[i16; 64]], k: usize, out: &mut [i32; 32])
    requires { k + 14 < length rows.now }
    ensures value { (newest : ℕ → ℤ) → AreTaps newest rows.now k → out.new ≡ tabulate 32 (slot_sum newest) }
    ensures bound { (newest : ℕ → ℤ) → AreTaps newest rows.now k → All (IsWithin 44598016) out.new }
{
    let mut folded = [0i64; 32];
    columns(rows, k, &mut folded);
    slots_of_folded(&folded, out);
}
