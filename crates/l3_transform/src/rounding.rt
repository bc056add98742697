ghost use Rattle.std.specs.Prelude.{◌≡◌, ◌*◌, ◌≤◌, ◌^◌, ◌+ℤ◌, ◌*ℤ◌, pos, unsigned_abs};
ghost use Rattle.l3_base.specs.Sums.{floor_div, IsWithin};

// The product of a line or a slot and a coefficient.
#[inline(always)]
pub(crate) fn product(x: i32, coefficient: i32) -> i64
    ensures value { result ≡ x *ℤ coefficient }
    ensures bound { unsigned_abs result ≤ unsigned_abs x * unsigned_abs coefficient }
{
    i64::from(x) * i64::from(coefficient)
}

// A sum in units of 2^-15, to the nearest whole number.
#[inline(always)]
pub(crate) fn rounded(sum: i64) -> i32
    requires { IsWithin (2 ^ 43) sum }
    ensures { result ≡ floor_div (sum +ℤ pos (2 ^ 14)) (2 ^ 15) }
{
    ((sum + (1 << 14)) >> 15) as i32
}

// A ninth of a sum in units of 2^-15, to the nearest whole number.
//
// It is raised by 2^28 and brought down again: a division without signs has no branch.
#[inline(always)]
pub(crate) fn ninth(sum: i64) -> i32
    requires { IsWithin (18 * (89196032 * 2 ^ 15)) sum }
    ensures { result ≡ floor_div (pos 2 *ℤ sum +ℤ pos (9 * 2 ^ 15)) (18 * 2 ^ 15) }
{
    let raised = ((sum + 9 * (1 << 14)) >> 15) + 9 * (1 << 28);
    (raised as u32 / 9) as i32 - (1 << 28)
}
