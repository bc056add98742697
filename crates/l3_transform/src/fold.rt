ghost use Rattle.std.specs.Prelude.{◌≡◌, ◌<◌, ◌^◌, ℕ, unsigned_abs};
ghost use Rattle.l3_base.specs.Lists.{entry, tabulate};
ghost use Rattle.l3_base.specs.Filterbank.{subband_sum};
ghost use Rattle.l3_transform.specs.Fold.{folded_column, folded_columns_sum};

/// Folds the 64 columns of a slot to 32, which halves the products of each subband.
///
/// Shape: columns in order of their number, each below 2^50 in absolute value. The filterbank
/// itself folds samples and window entries of 16 bits, before the columns are added up.
pub fn fold64(y: &[i64; 64], u: &mut [i64; 32])
    requires { (k : ℕ) → k < 64 → unsigned_abs (entry y.now k) < 2 ^ 50 }
    ensures value { u.new ≡ tabulate 32 (folded_column (entry y.now)) }
    ensures sum { (i : ℕ) → i < 32 → folded_columns_sum (entry u.new) i ≡ subband_sum (entry y.now) i }
{
    u[0] = y[16];
    for j in 1..17 {
        u[j] = y[16 + j] + y[16 - j];
    }
    for j in 17..32 {
        u[j] = y[16 + j] - y[80 - j];
    }
}
