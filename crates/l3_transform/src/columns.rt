//! Samples -> the 32 folded columns of a slot.
//!
//! Samples and window entries of 16 bits stand in pairs, so that eight products are made at once.

ghost use Rattle.std.specs.Prelude.{◌≡◌, ◌+◌, ◌-◌, ◌*◌, ◌<◌, ◌^◌, ℕ, ℤ, length, ◌+ℤ◌, ◌*ℤ◌};
ghost use Rattle.l3_base.specs.Lists.{entry};
ghost use Rattle.l3_base.specs.Sums.{sum_below, IsWithin};
ghost use Rattle.l3_base.specs.Filterbank.{column_sum};
ghost use Rattle.l3_transform.specs.Fold.{folded_column};
ghost use Rattle.l3_transform.specs.Pairs.{AreTaps, row_in, pair_entry, low_entry, high_part, pair_sum, reach};

use crate::coefficients::{high_row, low_row};

// A window entry times a sample.
#[inline(always)]
fn product(entry: i16, sample: i16) -> i32
    requires { IsWithin 9984 entry }
    ensures value { result ≡ entry *ℤ sample }
    ensures bound { IsWithin (9984 * 2 ^ 15) result }
    ensures range { IsWithin (2 ^ 15) sample }
{
    i32::from(entry) * i32::from(sample)
}

// Each pair of a row: two products, added.
#[inline(always)]
fn pair_sums(row: &[i16; 64], entries: &[i16; 64]) -> [i32; 32]
    requires { (n : ℕ) → n < 64 → IsWithin 9984 (entry entries.now n) }
    ensures long { length result ≡ 32 }
    ensures value { (j : ℕ) → j < 32 → entry result j ≡ pair_sum (entry entries.now) (entry row.now) j }
    ensures range { (n : ℕ) → n < 64 → IsWithin (2 ^ 15) (entry row.now n) }
{
    let mut sums = [0i32; 32];
    for j in 0..32 {
        sums[j] = product(entries[2 * j], row[2 * j]) + product(entries[2 * j + 1], row[2 * j + 1]);
    }
    sums
}

// The pairs of the eight taps of slot `k`, with the low parts of the window's entries.
#[inline(always)]
fn low_parts(rows: &[[i16; 64]], k: usize) -> [[i32; 32]; 8]
    requires { k + 14 < length rows.now }
    ensures value { (m j : ℕ) → m < 8 → j < 32 → entry (row_in result m) j ≡ pair_sum (low_entry m) (entry (row_in rows.now (k + 14 - 2 * m))) j }
    ensures bound { (m j : ℕ) → m < 8 → j < 32 → IsWithin (reach m * 2 ^ 16) (entry (row_in result m) j) }
    ensures range { (m n : ℕ) → m < 8 → n < 64 → IsWithin (2 ^ 15) (entry (row_in rows.now (k + 14 - 2 * m)) n) }
{
    let mut parts = [[0i32; 32]; 8];
    for m in 0..8 {
        parts[m] = pair_sums(&rows[k + 14 - 2 * m], low_row(m));
    }
    parts
}

// The eight taps of folded column `j`, added.
#[inline(always)]
fn lane_sum(parts: &[[i32; 32]; 8], j: usize) -> i32
    requires lane { j < 32 }
    requires small { (m : ℕ) → m < 8 → IsWithin (reach m * 2 ^ 16) (entry (row_in parts.now m) j) }
    ensures { result ≡ sum_below 8 (λ m. entry (row_in parts.now m) j) }
{
    let mut sum = 0i32;
    for m in 0..8 {
        sum += parts[m][j];
    }
    sum
}

// The eight taps of each folded column, added.
#[inline(always)]
fn low_sums(parts: &[[i32; 32]; 8]) -> [i32; 32]
    requires { (m j : ℕ) → m < 8 → j < 32 → IsWithin (reach m * 2 ^ 16) (entry (row_in parts.now m) j) }
    ensures { (j : ℕ) → j < 32 → entry result j ≡ sum_below 8 (λ m. entry (row_in parts.now m) j) }
{
    let mut sums = [0i32; 32];
    for j in 0..32 {
        sums[j] = lane_sum(parts, j);
    }
    sums
}

// Taps 3 and 4 with the high parts of their entries, added.
#[inline(always)]
fn high_sums(rows: &[[i16; 64]], k: usize) -> [i32; 32]
    requires { k + 14 < length rows.now }
    ensures value { (j : ℕ) → j < 32 → entry result j ≡ pair_sum (λ n. high_part (pair_entry 3 n)) (entry (row_in rows.now (k + 8))) j +ℤ pair_sum (λ n. high_part (pair_entry 4 n)) (entry (row_in rows.now (k + 6))) j }
    ensures bound { (j : ℕ) → j < 32 → IsWithin (2 ^ 25) (entry result j) }
{
    let third = pair_sums(&rows[k + 8], high_row(0));
    let fourth = pair_sums(&rows[k + 6], high_row(1));
    let mut sums = [0i32; 32];
    for j in 0..32 {
        sums[j] = third[j] + fourth[j];
    }
    sums
}

// The folded columns of slot `k` of some rows.
//
// It stays a function of its own: inside the loop over slots its sums are taken apart one by one.
#[inline(never)]
pub(crate) fn columns(rows: &[[i16; 64]], k: usize, u: &mut [i64; 32])
    requires { k + 14 < length rows.now }
    ensures value { (newest : ℕ → ℤ) → AreTaps newest rows.now k → (j : ℕ) → j < 32 → entry u.new j ≡ folded_column (column_sum newest) j }
    ensures small { (j : ℕ) → j < 32 → IsWithin (2 ^ 36) (entry u.new j) }
    ensures range { (newest : ℕ → ℤ) → AreTaps newest rows.now k → (n : ℕ) → n < 512 → IsWithin (2 ^ 15) (newest n) }
{
    let parts = low_parts(rows, k);
    let low = low_sums(&parts);
    let high = high_sums(rows, k);
    for j in 0..32 {
        u[j] = i64::from(high[j]) * 512 + i64::from(low[j]);
    }
}
