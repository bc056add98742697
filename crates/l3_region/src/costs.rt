//! What regions cost in the cheapest lane, sixteen side by side.

ghost use Rattle.std.specs.Prelude.{◌≡◌, ◌<◌, ◌≤◌, ◌+◌, ◌-◌, ◌*◌, ℕ, Bool, IsTrue, length, min, replicate, slice_index, slice_index_or, []};
ghost use Rattle.l3_region.specs.Lanes.{AreKept, cell_at, cost_between, edge_in, extra_of, kept_cost, mask_at};

use crate::lanes::{extra, gate};
use crate::sums::Sums;

// Bits, or classes, of sixteen regions side by side.
pub(crate) type Sixteen = [u16; 16];

// No bits.
#[inline(always)]
pub(crate) fn none() -> Sixteen
    ensures { result ≡ replicate 16 0 }
{
    [0; 16]
}

// The sums of a lane at sixteen edges from one on.
#[inline(always)]
fn moving(lane: &[u16; 32], at: usize) -> Sixteen
    requires { at < 17 }
    ensures values { (j : ℕ) → j < 16 → slice_index result j ≡ slice_index lane.now (at + j) }
    ensures long { length result ≡ 16 }
{
    let mut sixteen = none();
    for j in 0..16 {
        sixteen[j] = lane[at + j];
    }
    sixteen
}

// The sum of a lane at an edge, sixteen times.
#[inline(always)]
fn still(lane: &[u16; 32], at: usize) -> Sixteen
    requires { at < 32 }
    ensures values { (j : ℕ) → j < 16 → slice_index result j ≡ slice_index lane.now at }
    ensures long { length result ≡ 16 }
{
    [lane[at]; 16]
}

// The sums of a lane at the edges of sixteen regions.
#[inline(always)]
fn window(sums: &Sums, t: usize, at: usize, moves: bool) -> Sixteen
    requires lane { t < 16 }
    requires within { (j : ℕ) → j < 16 → edge_in at moves j < 25 }
    ensures values { (j : ℕ) → j < 16 → slice_index result j ≡ cell_at sums.now t (edge_in at moves j) }
    ensures long { length result ≡ 16 }
{
    if moves {
        moving(&sums[t], at)
    } else {
        still(&sums[t], at)
    }
}

// What the regions cost in the first lane that has linbits enough for their class.
#[inline(always)]
fn with_linbits(
    low: &Sixteen,
    high: &Sixteen,
    few: &Sixteen,
    many: &Sixteen,
    most: &Sixteen,
) -> Sixteen
    requires low { (j : ℕ) → j < 16 → slice_index low.now j ≤ slice_index high.now j }
    requires few { (j : ℕ) → j < 16 → slice_index few.now j ≤ slice_index many.now j }
    requires small { (j : ℕ) → j < 16 → slice_index high.now j + 9 * slice_index many.now j ≤ 9216 }
    requires most { (j : ℕ) → j < 16 → slice_index most.now j < 14 }
    ensures values { (j : ℕ) → j < 16 → slice_index result j ≡ slice_index high.now j - slice_index low.now j + extra_of (slice_index most.now j) * (slice_index many.now j - slice_index few.now j) }
    ensures small { (j : ℕ) → j < 16 → slice_index result j ≤ 9216 }
    ensures long { length result ≡ 16 }
{
    let mut cost = none();
    for j in 0..16 {
        cost[j] = high[j] - low[j] + extra(most[j]) * (many[j] - few[j]);
    }
    cost
}

// The lesser of the cost and a lane's.
#[inline(always)]
fn take_lane(low: &Sixteen, high: &Sixteen, most: &Sixteen, t: usize, cost: &Sixteen) -> Sixteen
    requires lane { t < 24 }
    requires low { (j : ℕ) → j < 16 → slice_index low.now j ≤ slice_index high.now j }
    requires small { (j : ℕ) → j < 16 → slice_index high.now j ≤ 9216 }
    requires most { (j : ℕ) → j < 16 → slice_index most.now j < 14 }
    ensures values { (j : ℕ) → j < 16 → slice_index result j ≡ min (slice_index cost.now j) (slice_index high.now j - slice_index low.now j + mask_at (slice_index most.now j) t) }
    ensures long { length result ≡ 16 }
{
    let mut less = none();
    for j in 0..16 {
        less[j] = cost[j].min(high[j] - low[j] + gate(most[j], t));
    }
    less
}

// The least of sixteen classes.
#[inline(always)]
fn least_class(most: &Sixteen) -> u16
    ensures { (j : ℕ) → j < 16 → result ≤ slice_index most.now j }
{
    let mut least = most[0];
    for j in 1..16 {
        least = least.min(most[j]);
    }
    least
}

// What sixteen regions cost in the cheapest lane, for their greatest classes.
//
// Where all of them need linbits, no other lane holds any of them.
#[inline(always)]
pub(crate) fn costs(
    sums: &Sums,
    from: usize,
    begins_move: bool,
    to: usize,
    ends_move: bool,
    most: &Sixteen,
) -> Sixteen
    requires kept { AreKept sums.now }
    requires order { (j : ℕ) → j < 16 → edge_in from begins_move j ≤ edge_in to ends_move j }
    requires begins { (j : ℕ) → j < 16 → edge_in from begins_move j < 25 }
    requires ends { (j : ℕ) → j < 16 → edge_in to ends_move j < 25 }
    requires most { (j : ℕ) → j < 16 → slice_index most.now j < 14 }
    ensures values { (j : ℕ) → j < 16 → slice_index result j ≡ cost_between sums.now (edge_in from begins_move j) (edge_in to ends_move j) (slice_index most.now j) }
    ensures small { (j : ℕ) → j < 16 → slice_index result j ≤ 9216 }
    ensures long { length result ≡ 16 }
{
    let mut cost = with_linbits(
        &window(sums, 12, from, begins_move),
        &window(sums, 12, to, ends_move),
        &window(sums, 13, from, begins_move),
        &window(sums, 13, to, ends_move),
        most,
    );
    if least_class(most) >= 6 {
        return cost;
    }
    for t in 0..12 {
        let low = window(sums, t, from, begins_move);
        let high = window(sums, t, to, ends_move);
        cost = take_lane(&low, &high, most, t, &cost);
    }
    cost
}

// The lesser of the cost and what the bands from each of sixteen to the last one cost in one lane
// more.
#[inline(always)]
fn with_lane(sums: &Sums, band: usize, most: &Sixteen, t: usize, cost: &Sixteen) -> Sixteen
    requires lane { t < 12 }
    requires kept { AreKept sums.now }
    requires within { band ≤ 7 }
    requires most { (j : ℕ) → j < 16 → slice_index most.now j < 14 }
    ensures values { (j : ℕ) → j < 16 → slice_index result j ≡ min (slice_index cost.now j) (kept_cost sums.now (band + j) 22 (slice_index most.now j) t) }
    ensures long { length result ≡ 16 }
{
    take_lane(&moving(&sums[t], band), &still(&sums[t], 22), most, t, cost)
}

// What the bands from each of sixteen to the last one cost in the cheapest lane.
//
// It is as `costs`, with the lanes written out: the compiler leaves a loop over them as it is here,
// and those of one class share their masks.
#[inline(never)]
pub(crate) fn costs_to_end(sums: &Sums, band: usize, most: &Sixteen) -> Sixteen
    requires kept { AreKept sums.now }
    requires within { band ≤ 7 }
    requires most { (j : ℕ) → j < 16 → slice_index most.now j < 14 }
    ensures values { (j : ℕ) → j < 16 → slice_index result j ≡ cost_between sums.now (band + j) 22 (slice_index most.now j) }
    ensures small { (j : ℕ) → j < 16 → slice_index result j ≤ 9216 }
    ensures long { length result ≡ 16 }
{
    let long = with_linbits(
        &moving(&sums[12], band),
        &still(&sums[12], 22),
        &moving(&sums[13], band),
        &still(&sums[13], 22),
        most,
    );
    if least_class(most) >= 6 {
        return long;
    }
    let first = with_lane(sums, band, most, 0, &long);
    let second = with_lane(sums, band, most, 1, &first);
    let third = with_lane(sums, band, most, 2, &second);
    let fourth = with_lane(sums, band, most, 3, &third);
    let fifth = with_lane(sums, band, most, 4, &fourth);
    let sixth = with_lane(sums, band, most, 5, &fifth);
    let seventh = with_lane(sums, band, most, 6, &sixth);
    let eighth = with_lane(sums, band, most, 7, &seventh);
    let ninth = with_lane(sums, band, most, 8, &eighth);
    let tenth = with_lane(sums, band, most, 9, &ninth);
    let eleventh = with_lane(sums, band, most, 10, &tenth);
    with_lane(sums, band, most, 11, &eleventh)
}
