//! Packed pairs of cut values.

ghost use Rattle.std.specs.Prelude.{◌≡◌, ◌≤◌, All, length};
ghost use Rattle.l3_region.specs.Pairs.{unpacked};

// Room for packed pairs.
#[inline(always)]
fn no_pairs() -> [u8; 288]
    ensures { length result ≡ 288 }
{
    [0; 288]
}

// The pairs of values that are cut at 15.
#[inline(never)]
pub(crate) fn pairs_of(cut: &[u8; 576]) -> [u8; 288]
    requires { All (λ x. x ≤ 15) cut.now }
    ensures { unpacked result ≡ cut.now }
{
    let mut pairs = no_pairs();
    for n in 0..288 {
        pairs[n] = 16 * cut[2 * n] + cut[2 * n + 1];
    }
    pairs
}
