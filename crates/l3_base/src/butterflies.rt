ghost use Rattle.std.specs.Prelude.{◌≡◌, ◌<◌, pos, neg_ℤ};
ghost use Rattle.l3_base.specs.Lists.{entry};
ghost use Rattle.l3_base.specs.Sums.{AddsUpTo, IsWithin};
ghost use Rattle.l3_base.specs.Steps.{cs_at, ca_at};

/// The greater coefficients of the alias reduction's eight butterflies, times 2^15. This project's
/// own.
#[rattlefmt::skip]
pub static CS: [i32; 8] = [
    28098, 28893, 31117, 32221, 32621, 32740, 32765, 32768,
];

/// The smaller coefficients of the alias reduction's eight butterflies, times 2^15. This project's
/// own.
#[rattlefmt::skip]
pub static CA: [i32; 8] = [
    -16859, -15458, -10269, -5961, -3099, -1342, -465, -121,
];

/// The greater coefficient of butterfly `k`, of 8.
#[inline(always)]
pub fn cs(k: usize) -> i32
    requires { k < 8 }
    ensures value { result ≡ cs_at k }
    ensures bound { IsWithin 32768 result }
{
    CS[k]
}

/// The smaller coefficient of butterfly `k`, of 8.
#[inline(always)]
pub fn ca(k: usize) -> i32
    requires { k < 8 }
    ensures value { result ≡ ca_at k }
    ensures bound { IsWithin 16859 result }
{
    CA[k]
}

/// What the coefficients add up to.
pub fn butterfly_sums()
    ensures greater { AddsUpTo 8 (entry CS) (pos 251223) 251223 (pos 1159163) }
    ensures smaller { AddsUpTo 8 (entry CA) (neg_ℤ (pos 53574)) 53574 (neg_ℤ (pos 130196)) }
{}
