ghost use Rattle.std.specs.Prelude.{◌≡◌, ◌<◌, ◌≤◌, ◌+◌, ◌*◌, ◌^◌, min};
ghost use Rattle.l3_quant.specs.Quantiser.{greatest_reached};
ghost use Rattle.l3_quant.specs.Thresholds.{threshold_at};

use crate::thresholds::{first, high, middle, threshold};

// Below this each block of 1024 has one threshold at most.
const LOW: u32 = 262_144;

// Below this each block of 8192 has.
const MIDDLE: u32 = 16_777_216;

// The greatest value that `y` reaches: one compare after the value of its block.
#[inline(always)]
fn low_reached(y: u32) -> u32
    requires { y < 262144 }
    ensures value { result ≡ greatest_reached y }
    ensures bound { result ≤ 8192 }
{
    let n = first((y / 1024) as usize);
    if threshold(usize::from(n) + 1) <= y {
        u32::from(n) + 1
    } else {
        u32::from(n)
    }
}

// The same with greater blocks.
#[inline(always)]
fn middle_reached(y: u32) -> u32
    requires high { y < 16777216 }
    requires low { 262144 ≤ y }
    ensures value { result ≡ greatest_reached y }
    ensures bound { result ≤ 8192 }
{
    let n = middle((y / 8192) as usize);
    if threshold(usize::from(n) + 1) <= y {
        u32::from(n) + 1
    } else {
        u32::from(n)
    }
}

// One turn of a halving: the lower end of that half of the `2 * half` values from `n` on in which
// the greatest one lies, by a product: thresholds are too irregular for a branch.
#[inline(always)]
fn half_of(y: u32, n: usize, half: usize) -> usize
    requires begins { threshold_at n ≤ y }
    requires ends { y < threshold_at (n + 2 * half) }
    requires room { n + 2 * half ≤ 8192 }
    ensures begins { threshold_at result ≤ y }
    ensures ends { y < threshold_at (result + half) }
    ensures room { result + half ≤ 8192 }
{
    n + half * usize::from(threshold(n + half) <= y)
}

// The same above them: four turns after the value of its block; each name tells how many values are
// left from it on.
#[inline(always)]
fn high_reached(y: u32) -> u32
    requires low { 16777216 ≤ y }
    requires high { y < threshold_at 8192 }
    ensures { result ≡ greatest_reached y }
{
    let sixteen = usize::from(high(((y - MIDDLE) / 524_288) as usize));
    let eight = half_of(y, sixteen, 8);
    let four = half_of(y, eight, 4);
    let two = half_of(y, four, 2);
    half_of(y, two, 1) as u32
}

// The greatest value that `y` reaches, cut at 8192.
#[inline(always)]
pub(crate) fn reached(y: u32) -> u32
    ensures { result ≡ min (greatest_reached y) 8192 }
{
    if y < LOW {
        low_reached(y)
    } else if y < MIDDLE {
        middle_reached(y)
    } else if threshold(8192) <= y {
        8192
    } else {
        high_reached(y)
    }
}
