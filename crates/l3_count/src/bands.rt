ghost use Rattle.std.specs.Prelude.{true, ◌≡◌, ◌↔◌, ℕ, List, ◌+◌, ◌*◌, ◌<◌, ◌≤◌, ◌^◌, All, length, nat_le, replicate, slice_index};
ghost use Rattle.l3_huff.specs.Tables.{greatest_of};
ghost use Rattle.l3_quant.specs.Quantiser.{magnitude_at};
ghost use Rattle.l3_region.specs.Lanes.{lane_class, lane_table};
ghost use Rattle.l3_count.specs.Planes.{key_at, IsPlane};
ghost use Rattle.l3_count.specs.Classes.{class_cut_at, least_at, AreClassPlanes, IsWide};

use crate::line::{exponent, mantissa};
use crate::tables::{class_cut, class_less};

// What all class planes of a band are made from: four times the place of its greatest line's
// highest digit and 130, and the mantissa; both are 0 for a band of zeros.
#[derive(Clone, Copy)]
pub(crate) struct Wide {
    pub(crate) octave: u8,
    pub(crate) mantissa: u32,
}

// The octave and the mantissa of an absolute value.
#[inline(always)]
fn wide_of(x: u32) -> Wide
    requires { x < 2 ^ 29 }
    ensures is { IsWide x result.octave result.mantissa }
    ensures small { result.octave ≤ 242 }
{
    if x == 0 {
        return Wide {
            octave: 0,
            mantissa: 0,
        };
    }
    let exponent = exponent(x);
    Wide {
        octave: (4 * exponent + 130) as u8,
        mantissa: mantissa(x, exponent),
    }
}

// 1 more where the mantissa is at the cut.
#[inline(always)]
fn one_cut(count: u8, mantissa: u32, cut: u32) -> u8
    requires { count < 255 }
    ensures more { cut ≤ mantissa → result ≡ count + 1 }
    ensures same { mantissa < cut → result ≡ count }
{
    count + u8::from(cut <= mantissa)
}

// How many of a class's four cuts the mantissa is at.
#[inline(always)]
fn cuts(mantissa: u32, class: usize) -> u8
    requires { class < 14 }
    ensures value { (j : ℕ) → j < 4 → (j < result) ↔ (class_cut_at class j ≤ mantissa) }
    ensures small { result ≤ 4 }
{
    let first = one_cut(0, mantissa, class_cut(class, 0));
    let second = one_cut(first, mantissa, class_cut(class, 1));
    let third = one_cut(second, mantissa, class_cut(class, 2));
    one_cut(third, mantissa, class_cut(class, 3))
}

// The plane of the least value above a class, or of the least that cannot be coded.
#[inline(always)]
fn class_plane(octave: u8, mantissa: u32, class: usize) -> u8
    requires class { class < 14 }
    requires small { octave ≤ 242 }
    ensures { (x : ℕ) → IsWide x octave mantissa → IsPlane (least_at class) x result }
{
    octave.saturating_sub(class_less(class)) + cuts(mantissa, class)
}

// Writes the class planes of one band.
#[inline(always)]
fn write_band(peak: u32, band: usize, out: &mut [u8; 448])
    requires peak { peak < 2 ^ 29 }
    requires band { band < 22 }
    requires long { length out.old ≡ 448 }
    ensures long { length out.new ≡ 448 }
    ensures value { (class : ℕ) → class < 14 → IsPlane (least_at class) peak (slice_index out.new (32 * class + band)) }
    ensures others { (class other : ℕ) → class < 14 → other < band → slice_index out.new (32 * class + other) ≡ slice_index out.old (32 * class + other) }
{
    let wide = wide_of(peak);
    for class in 0..14 {
        out[32 * class + band] = class_plane(wide.octave, wide.mantissa, class);
    }
}

// Writes the class planes of the bands, from the greatest absolute value of each.
pub(crate) fn write_classes(peaks: &[u32; 22], out: &mut [u8; 448])
    requires { All (λ p. p < 2 ^ 29) peaks.now }
    ensures { AreClassPlanes peaks.now out.new }
{
    for band in 0..22 {
        write_band(peaks[band], band, out);
    }
}

// The count, and 1 more where the plane is at the key.
#[inline(always)]
fn one_class(count: u8, plane: u8, key: u8) -> u8
    requires { count < 14 }
    ensures more { key ≤ plane → result ≡ count + 1 }
    ensures same { plane < key → result ≡ count }
{
    count + u8::from(key <= plane)
}

// No classes yet.
#[inline(always)]
fn no_classes() -> [u8; 32]
    ensures { result ≡ replicate 32 0 }
{
    [0; 32]
}

// The classes with 1 more where the plane of a row is at the band's key.
#[inline(always)]
fn with_class(classes: &[u8; 32], planes: &[u8; 448], class: usize, keys: &[u8; 32]) -> [u8; 32]
    requires class { class < 14 }
    requires room { (b : ℕ) → b < 32 → slice_index classes.now b < 14 }
    ensures long { length result ≡ 32 }
    ensures more { (b : ℕ) → b < 32 → slice_index keys.now b ≤ slice_index planes.now (32 * class + b) → slice_index result b ≡ slice_index classes.now b + 1 }
    ensures same { (b : ℕ) → b < 32 → slice_index planes.now (32 * class + b) < slice_index keys.now b → slice_index result b ≡ slice_index classes.now b }
{
    let mut more = no_classes();
    for b in 0..32 {
        more[b] = one_class(classes[b], planes[32 * class + b], keys[b]);
    }
    more
}

// The class of each band's greatest value, each at its key.
pub(crate) fn band_classes(planes: &[u8; 448], keys: &[u8; 32]) -> [u8; 32]
    ensures long { length result ≡ 32 }
    ensures value { (peaks : List ℕ) (steps : ℕ → ℕ) → AreClassPlanes peaks planes.now → (b : ℕ) → b < 22 → slice_index keys.now b ≡ key_at (steps b) → magnitude_at (slice_index peaks b) (steps b) ≤ 8191 →
        (k : ℕ) → k < 24 → nat_le (magnitude_at (slice_index peaks b) (steps b)) (greatest_of (lane_table k)) ≡ nat_le (slice_index result b) (lane_class k) }
    ensures small { (b : ℕ) → b < 32 → slice_index result b < 14 }
{
    let mut classes = no_classes();
    for class in 0..13 {
        classes = with_class(&classes, planes, class, keys);
    }
    classes
}

// Whether no band's peak reaches what cannot be coded.
pub(crate) fn is_coded(planes: &[u8; 448], keys: &[u8; 32]) -> bool
    ensures told { result ≡ true → (b : ℕ) → b < 22 → slice_index planes.now (416 + b) < slice_index keys.now b }
    ensures tells { ((b : ℕ) → b < 22 → slice_index planes.now (416 + b) < slice_index keys.now b) → result ≡ true }
{
    for b in 0..22 {
        if planes[416 + b] >= keys[b] {
            return false;
        }
    }
    true
}
