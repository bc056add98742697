//! The lanes: which table each one is, and which values it holds.

ghost use Rattle.std.specs.Prelude.{◌≡◌, ◌<◌, ◌≤◌, ◌+◌, ℕ, length, nat_le, replicate, slice_index};
ghost use Rattle.l3_huff.specs.Tables.{greatest_of};
ghost use Rattle.l3_region.specs.Lanes.{lane_table, extra_of, lane_class, bound_at, mask_at, one_above};

// The table of each lane: those of the profile in rising order, and the last one again to fill up
// the lanes.
#[rattlefmt::skip]
static TABLES: [u8; 24] = [
    0, 1, 2, 3, 5, 6, 7, 8, 9, 10, 11, 12, 24, 25, 26, 27, 28, 29, 30, 31, 31, 31, 31, 31,
];

// The class of the greatest value of each lane's table.
#[rattlefmt::skip]
static CLASSES: [u8; 24] = [
    0, 1, 2, 2, 3, 3, 4, 4, 4, 5, 5, 5, 6, 7, 8, 9, 10, 11, 12, 13, 13, 13, 13, 13,
];

// The greatest value of each class.
#[rattlefmt::skip]
static BOUNDS: [u16; 14] = [0, 1, 2, 3, 5, 7, 30, 46, 78, 142, 270, 526, 2062, 8206];

// The table of a lane.
#[inline(always)]
pub(crate) fn table(lane: usize) -> u8
    requires { lane < 24 }
    ensures { result ≡ lane_table lane }
{
    TABLES[lane]
}

// The greatest value of a class.
#[inline(always)]
fn bound(class: usize) -> u16
    requires { class < 14 }
    ensures { result ≡ bound_at class }
{
    BOUNDS[class]
}

// What is added to the bits of a lane for a class.
#[inline(always)]
pub(crate) fn gate(class: u16, lane: usize) -> u16
    requires class { class < 14 }
    requires lane { lane < 24 }
    ensures value { result ≡ mask_at class lane }
    ensures small { result ≤ 16384 }
{
    if u16::from(CLASSES[lane]) < class {
        16384
    } else {
        0
    }
}

// The linbits of the tables of a class beyond those of table 24.
#[inline(always)]
pub(crate) fn extra(class: u16) -> u16
    requires { class < 14 }
    ensures value { result ≡ extra_of class }
    ensures small { result ≤ 9 }
{
    let twelve = if class >= 12 { 1 } else { 0 };
    let thirteen = if class >= 13 { 1 } else { 0 };
    class.saturating_sub(6) + twelve + thirteen
}

// No classes.
#[inline(always)]
pub(crate) fn no_classes() -> [u16; 32]
    ensures { result ≡ replicate 32 0 }
{
    [0; 32]
}

// 1 where a value is above a bound, and else 0.
#[inline(always)]
fn above(bound: u16, value: u16) -> u16
    ensures value { result ≡ one_above bound value }
    ensures small { result ≤ 1 }
{
    if bound < value { 1 } else { 0 }
}

// The classes where one more bound is counted.
#[inline(always)]
fn more_classes(classes: &[u16; 32], values: &[u16; 32], k: usize) -> [u16; 32]
    requires k { k < 13 }
    requires counted { (b : ℕ) → b < 32 → slice_index classes.now b ≤ k }
    ensures values { (b : ℕ) → b < 32 → slice_index result b ≡ slice_index classes.now b + one_above (bound_at k) (slice_index values.now b) }
    ensures long { length result ≡ 32 }
{
    let bound = bound(k);
    let mut more = no_classes();
    for b in 0..32 {
        more[b] = classes[b] + above(bound, values[b]);
    }
    more
}

// The classes of values: a lane holds a value where it is of the value's class or a greater one.
//
// It is the number of classes whose greatest value is less.
pub(crate) fn classes_of(values: &[u16; 32]) -> [u16; 32]
    requires { (b : ℕ) → slice_index values.now b ≤ 8191 }
    ensures value { (b k : ℕ) → b < 32 → k < 24 → nat_le (slice_index values.now b) (greatest_of (lane_table k)) ≡ nat_le (slice_index result b) (lane_class k) }
    ensures small { (b : ℕ) → slice_index result b < 14 }
    ensures long { length result ≡ 32 }
{
    let mut classes = no_classes();
    for k in 0..13 {
        classes = more_classes(&classes, values, k);
    }
    classes
}

// Room for the classes of bands.
#[inline(always)]
fn no_band_classes() -> [u8; 32]
    ensures { length result ≡ 32 }
{
    [0; 32]
}

// The classes of the greatest values of bands.
pub(crate) fn band_classes(peaks: &[u16; 22]) -> [u8; 32]
    requires { (b : ℕ) → b < 22 → slice_index peaks.now b ≤ 8191 }
    ensures value { (b k : ℕ) → b < 22 → k < 24 → nat_le (slice_index peaks.now b) (greatest_of (lane_table k)) ≡ nat_le (slice_index result b) (lane_class k) }
    ensures small { (b : ℕ) → b < 22 → slice_index result b < 14 }
{
    let mut tops = no_classes();
    for b in 0..22 {
        tops[b] = peaks[b];
    }
    let wide = classes_of(&tops);
    let mut classes = no_band_classes();
    for b in 0..32 {
        classes[b] = wide[b] as u8;
    }
    classes
}
