ghost use Rattle.std.specs.Prelude.{◌≡◌, ◌+◌, ◌*◌, ◌<◌, ◌≤◌, ◌^◌, ◌+ℤ◌, ◌*ℤ◌, unsigned_abs};

/// `sum + a * b`, where neither the product nor the sum can overflow.
#[inline(always)]
pub fn add_product(sum: i64, a: i64, b: i64) -> i64
    requires { unsigned_abs sum + unsigned_abs a * unsigned_abs b < 2 ^ 63 }
    ensures value { result ≡ sum +ℤ a *ℤ b }
    ensures bound { unsigned_abs result ≤ unsigned_abs sum + unsigned_abs a * unsigned_abs b }
{
    sum + a * b
}
