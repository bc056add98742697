ghost use Rattle.std.specs.Prelude.{◌≡◌, ◌<◌, ◌^◌, pos};
ghost use Rattle.l3_base.specs.Lists.{entry};
ghost use Rattle.l3_base.specs.Sums.{AddsUpTo, IsWithin};
ghost use Rattle.l3_base.specs.Steps.{quarter_at};

/// The factors of 0 to 3 quarter steps of gain, times 2^30. This project's own.
#[rattlefmt::skip]
pub static QUARTER: [i64; 4] = [
    1073741824, 1276901417, 1518500250, 1805811301,
];

/// The factor of `r` quarter steps of gain, of 0 to 3.
#[inline(always)]
pub fn quarter(r: usize) -> i64
    requires { r < 4 }
    ensures value { result ≡ quarter_at r }
    ensures bound { IsWithin (2 ^ 31) result }
{
    QUARTER[r]
}

/// What the factors add up to.
pub fn quarter_sums()
    ensures { AddsUpTo 4 (entry QUARTER) (pos 5674954792) 5674954792 (pos 15406290612) }
{}
