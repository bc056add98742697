ghost use Rattle.std.specs.Prelude.{◌≡◌, ◌↔◌, ℕ, ◌+◌, ◌-◌, ◌*◌, ◌<◌, ◌≤◌, ◌^◌};
ghost use Rattle.l3_count.specs.Planes.{ranked_at, place_at, IsRank, IsMantissa, IsRanked, IsPlane};

use crate::tables::{bucket, less, place, ranked};

// The place of the highest digit of a line's absolute value.
#[inline(always)]
pub(crate) fn exponent(x: u32) -> u32
    requires some { 0 < x }
    requires line { x < 2 ^ 29 }
    ensures low { 2 ^ result ≤ x }
    ensures high { x < 2 ^ (result + 1) }
    ensures small { result ≤ 28 }
{
    31 - x.leading_zeros()
}

// The absolute value with its highest digit at place 28.
#[inline(always)]
pub(crate) fn mantissa(x: u32, exponent: u32) -> u32
    requires low { 2 ^ exponent ≤ x }
    requires high { x < 2 ^ (exponent + 1) }
    requires small { exponent ≤ 28 }
    ensures is { IsMantissa x exponent result }
    ensures low { 2 ^ 28 ≤ result }
    ensures high { result < 2 ^ 29 }
{
    x << (28 - exponent)
}

// The count, and 1 more where the entry at it is at most the mantissa.
#[inline(always)]
fn step(mantissa: u32, count: u8) -> u8
    requires { count < 64 }
    ensures more { ranked_at count ≤ mantissa → result ≡ count + 1 }
    ensures same { mantissa < ranked_at count → result ≡ count }
{
    count + u8::from(ranked(count as usize) <= mantissa)
}

// How many entries of the table are at most the mantissa.
#[inline(always)]
fn rank(mantissa: u32) -> u8
    requires low { 2 ^ 28 ≤ mantissa }
    requires high { mantissa < 2 ^ 29 }
    ensures { IsRank mantissa result }
{
    let low = bucket(((mantissa >> 20) - 256) as usize);
    step(mantissa, step(mantissa, low))
}

// What all planes of a line are made from: four times the place of its highest digit and 130, and
// its rank; both are 0 for a line of 0.
#[derive(Clone, Copy)]
pub(crate) struct Ranked {
    pub(crate) octave: u8,
    pub(crate) rank: u8,
}

// The octave and the rank of an absolute value.
#[inline(always)]
pub(crate) fn ranked_line(x: u32) -> Ranked
    requires { x < 2 ^ 29 }
    ensures is { IsRanked x result.octave result.rank }
    ensures small { result.octave ≤ 242 }
{
    if x == 0 {
        return Ranked { octave: 0, rank: 0 };
    }
    let exponent = exponent(x);
    Ranked {
        octave: (4 * exponent + 130) as u8,
        rank: rank(mantissa(x, exponent)),
    }
}

// 1 more where the rank is at the step.
#[inline(always)]
fn one_more(count: u8, rank: u8, step: u8) -> u8
    requires { count < 255 }
    ensures more { step ≤ rank → result ≡ count + 1 }
    ensures same { rank < step → result ≡ count }
{
    count + u8::from(step <= rank)
}

// How many of a value's four steps the rank is at.
#[inline(always)]
fn steps(rank: u8, k: usize) -> u8
    requires { k < 15 }
    ensures value { (m : ℕ) → IsRank m rank → (j : ℕ) → j < 4 → (j < result) ↔ (ranked_at (place_at k j - 1) ≤ m) }
    ensures none { rank ≡ 0 → result ≡ 0 }
    ensures small { result ≤ 4 }
{
    let first = one_more(0, rank, place(k, 0));
    let second = one_more(first, rank, place(k, 1));
    let third = one_more(second, rank, place(k, 2));
    one_more(third, rank, place(k, 3))
}

// The plane of the value `k + 1`.
#[inline(always)]
pub(crate) fn plane(octave: u8, rank: u8, k: usize) -> u8
    requires value { k < 15 }
    requires small { octave ≤ 242 }
    ensures is { (x : ℕ) → IsRanked x octave rank → IsPlane (k + 1) x result }
{
    octave.saturating_sub(less(k)) + steps(rank, k)
}
