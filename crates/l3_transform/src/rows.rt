//! Samples -> rows of pairs, which serve all slots that have them.

ghost use Rattle.std.specs.Prelude.{◌≡◌, ◌+◌, ◌-◌, ◌*◌, ◌≤◌, ◌<◌, ℕ, length};
ghost use Rattle.l3_base.specs.Lists.{entry};
ghost use Rattle.l3_transform.specs.Pairs.{IsTap, row_in};

// 64 samples in order of time as pairs.
//
// The newest one is of column 0: so samples 47 - j and 47 + j are of the columns that make up
// folded column j, and from 17 on 47 - j and j - 17.
#[inline(always)]
fn paired(samples: &[i16]) -> [i16; 64]
    requires { length samples.now ≡ 64 }
    ensures { IsTap (λ n. entry samples.now (63 - n)) 0 result }
{
    let mut row = [0i16; 64];
    row[0] = samples[47];
    row[1] = samples[15];
    for j in 1..17 {
        row[2 * j] = samples[47 - j];
        row[2 * j + 1] = samples[47 + j];
    }
    for j in 17..32 {
        row[2 * j] = samples[47 - j];
        row[2 * j + 1] = samples[j - 17];
    }
    row
}

// Makes the rows from row `from` on: row t has the 64 samples from sample 32 t on.
pub(crate) fn make_rows(samples: &[i16], from: usize, rows: &mut [[i16; 64]])
    requires { length samples.now ≡ 32 * length rows.old + 32 }
    ensures { (t : ℕ) → from ≤ t → t < length rows.new → IsTap (λ n. entry samples.now (32 * t + 63 - n)) 0 (row_in rows.new t) }
{
    for t in from..rows.len() {
        rows[t] = paired(&samples[32 * t..32 * t + 64]);
    }
}
