//! Sums of the bits of pairs up to each band, lane by lane, and the class of each band's greatest
//! value.

ghost use Rattle.std.specs.Prelude.{◌≡◌, ◌≢◌, ◌<◌, ◌≤◌, ◌+◌, ◌*◌, ◌/◌, ◌%◌, ◌^◌, ℕ, ℤ, List, All, false, length, min, nat_le, replicate, slice_index, slice_index_or, slice_range, []};
ghost use Rattle.std.specs.Bool.{OnTrue};
ghost use Rattle.std.specs.List.{list_all};
ghost use Rattle.l3_base.specs.Bands.{edge_at, edges_at};
ghost use Rattle.l3_region.specs.Split.{end_of_pairs};
ghost use Rattle.l3_region.specs.Lanes.{AreAllSums, AreKept, AreLaneSums, AreLongSums, AreSums, AreSumsOf, NeedLinbits, cell_at, rows_of, short_sum};
ghost use Rattle.l3_region.specs.Pairs.{ArePairsOf, IsBandClass, lines_in};

use crate::lanes::no_classes;
use crate::long::long_bits;
use crate::rows::row;
use l3_base::edge;

// Of each lane of tables up to table 24 the sum of the bits up to each band, and in lane 13 of the
// number of values of 15 and more.
//
// Lanes 14 and 15 fill up the rows; edges 23 and 24 are edge 22 again.
pub(crate) type Sums = [[u16; 32]; 16];

// The class of each band, and 0 after the last one.
pub(crate) type Classes = [u16; 32];

// No bits in each lane.
#[inline(always)]
fn no_bits() -> [u16; 16]
    ensures { result ≡ replicate 16 0 }
{
    [0; 16]
}

// Adds the bits of one pair.
#[inline(always)]
fn add_row(sums: &mut [u16; 16], row: &[u16; 16])
    requires long { length sums.old ≡ 16 }
    requires row { length row.now ≡ 16 }
    requires room { (t : ℕ) → t < 16 → slice_index sums.old t + slice_index row.now t < 2 ^ 16 }
    ensures sums { (t : ℕ) → t < 16 → slice_index sums.new t ≡ slice_index sums.old t + slice_index row.now t }
    ensures long { length sums.new ≡ 16 }
{
    for t in 0..16 {
        sums[t] += row[t];
    }
}

// Adds the bits of the pairs from one to before another.
#[inline(always)]
fn add_pairs(pairs: &[u8; 288], from: usize, to: usize, sums: &mut [u16; 16])
    requires order { from ≤ to }
    requires within { to ≤ 288 }
    requires long { length sums.old ≡ 16 }
    requires before { (t : ℕ) → t < 16 → slice_index sums.old t ≡ short_sum (lines_in pairs.now) t from }
    ensures sums { (t : ℕ) → t < 16 → slice_index sums.new t ≡ short_sum (lines_in pairs.now) t to }
    ensures long { length sums.new ≡ 16 }
{
    let mut sum = *sums;
    for n in from..to {
        add_row(&mut sum, row(usize::from(pairs[n])));
    }
    *sums = sum;
}

// Writes the sums up to an edge.
#[inline(always)]
fn put(sums: &mut Sums, edge: usize, bits: &[u16; 16])
    requires edge { edge < 25 }
    requires bits { length bits.now ≡ 16 }
    requires lanes { length sums.old ≡ 16 }
    requires edges { (t : ℕ) → t < 16 → length (slice_index_or sums.old t []) ≡ 32 }
    ensures here { (t : ℕ) → t < 16 → cell_at sums.new t edge ≡ slice_index bits.now t }
    ensures others { (t b : ℕ) → t < 16 → b ≢ edge → cell_at sums.new t b ≡ cell_at sums.old t b }
    ensures lanes { length sums.new ≡ 16 }
    ensures edges { (t : ℕ) → t < 16 → length (slice_index_or sums.new t []) ≡ 32 }
{
    for t in 0..16 {
        sums[t][edge] = bits[t];
    }
}

// The greatest value.
#[inline(always)]
pub(crate) fn greatest(values: &[u8]) -> u8
    ensures { (n : ℕ) → list_all (λ x. nat_le x n) values.now ≡ nat_le result n }
{
    let mut greatest = 0u8;
    for &x in values {
        greatest = greatest.max(x);
    }
    greatest
}

// The class of the part of a band before the end of the pairs, from that of the whole band.
//
// Behind the end all values are at most 1: so a class of 2 and more is that of the part too, and
// otherwise it tells whether the part has a value other than 0.
#[inline(always)]
fn part_class(part: &[u8], whole: u16) -> u16
    ensures high { 2 ≤ whole → result ≡ whole }
    ensures low { whole < 2 → result < 2 }
    ensures zeros { whole < 2 → list_all (λ x. nat_le x 0) part.now ≡ nat_le result 0 }
{
    if whole >= 2 {
        whole
    } else {
        u16::from(greatest(part)).min(1)
    }
}

// The class of a band, and 0 after the last one.
#[inline(always)]
fn class_or_none(band: usize, class: u8) -> u16
    ensures own { band < 22 → result ≡ class }
    ensures none { 22 ≤ band → result ≡ 0 }
{
    if band < 22 { u16::from(class) } else { 0 }
}

// The classes of the whole bands, and 0 after the last one.
#[inline(always)]
fn whole_classes(classes: &[u8; 32]) -> Classes
    ensures own { (b : ℕ) → b < 22 → slice_index result b ≡ slice_index classes.now b }
    ensures none { (b : ℕ) → 22 ≤ b → b < 32 → slice_index result b ≡ 0 }
    ensures long { length result ≡ 32 }
{
    let mut own = no_classes();
    for b in 0..32 {
        own[b] = class_or_none(b, classes[b]);
    }
    own
}

// The class of each band's values before the line where the pairs end.
fn part_classes(pairs: &[u8; 288], classes: &[u8; 32], rate: usize, end: usize) -> Classes
    requires rate { rate < 3 }
    requires within { end ≤ 576 }
    requires ends { end ≡ end_of_pairs (lines_in pairs.now) }
    requires known { (q : List ℤ) × ArePairsOf (edges_at rate) q pairs.now classes.now }
    ensures value { (b : ℕ) → b < 22 → IsBandClass pairs.now classes.now rate end b (slice_index result b) }
    ensures few { (b : ℕ) → slice_index result b < 14 }
    ensures long { length result ≡ 32 }
{
    let mut own = whole_classes(classes);
    let mut band = 22usize;
    while band > 0 && usize::from(edge(rate, band)) > end {
        band -= 1;
        let from = usize::from(edge(rate, band)).min(end);
        own[band] = part_class(&pairs[from / 2..end / 2], own[band]);
    }
    own
}

// Whether a table without linbits holds the values of a band that begins before the end of the
// pairs.
#[inline(always)]
fn is_short(from: usize, end: usize, class: u16) -> bool
    ensures { result ≡ false → from < end → 6 ≤ class }
{
    if class <= 5 { from < end } else { false }
}

// Whether only tables with linbits hold the values of each band that begins before the end of the
// pairs.
fn need_linbits(parts: &Classes, end: usize, rate: usize) -> bool
    requires { rate < 3 }
    ensures { OnTrue result (NeedLinbits rate end parts.now) }
{
    let mut band = 22usize;
    while band > 0 {
        band -= 1;
        if is_short(usize::from(edge(rate, band)), end, parts[band]) {
            return false;
        }
    }
    true
}

// Adds the bits in table 24 and the number of 15s of the pairs from one to before another.
#[inline(always)]
fn add_long(pairs: &[u8; 288], from: usize, to: usize, bits: u32) -> u32
    requires order { from ≤ to }
    requires within { to ≤ 288 }
    requires before { bits ≡ short_sum (lines_in pairs.now) 12 from + 65536 * short_sum (lines_in pairs.now) 13 from }
    ensures { result ≡ short_sum (lines_in pairs.now) 12 to + 65536 * short_sum (lines_in pairs.now) 13 to }
{
    let mut sum = bits;
    for n in from..to {
        sum += long_bits(usize::from(pairs[n]));
    }
    sum
}

// Writes the bits in table 24 and the number of 15s up to an edge.
#[inline(always)]
fn put_long(sums: &mut Sums, edge: usize, bits: u32)
    requires edge { edge < 25 }
    requires lanes { length sums.old ≡ 16 }
    requires edges { (t : ℕ) → t < 16 → length (slice_index_or sums.old t []) ≡ 32 }
    ensures first { cell_at sums.new 12 edge ≡ bits % 65536 }
    ensures second { cell_at sums.new 13 edge ≡ bits / 65536 }
    ensures others { (t b : ℕ) → t < 16 → b ≢ edge → cell_at sums.new t b ≡ cell_at sums.old t b }
    ensures zeros { (t b : ℕ) → t < 16 → t ≢ 12 → t ≢ 13 → cell_at sums.new t b ≡ cell_at sums.old t b }
    ensures lanes { length sums.new ≡ 16 }
    ensures edges { (t : ℕ) → t < 16 → length (slice_index_or sums.new t []) ≡ 32 }
{
    sums[12][edge] = (bits % 65536) as u16;
    sums[13][edge] = (bits / 65536) as u16;
}

// Writes the sums of the lanes with linbits up to each band.
fn sum_long(pairs: &[u8; 288], end: usize, rate: usize, sums: &mut Sums)
    requires rate { rate < 3 }
    requires within { end ≤ 576 }
    requires none { sums.old ≡ replicate 16 (replicate 32 0) }
    ensures { AreLongSums (lines_in pairs.now) rate end sums.new }
{
    let mut sum = 0u32;
    let mut from = 0usize;
    for band in 0..25usize {
        put_long(sums, band, sum);
        let to = usize::from(edge(rate, (band + 1).min(22))).min(end);
        sum = add_long(pairs, from / 2, to / 2, sum);
        from = to;
    }
}

// Writes the sums of all lanes up to each band.
fn sum_all(pairs: &[u8; 288], end: usize, rate: usize, sums: &mut Sums)
    requires rate { rate < 3 }
    requires within { end ≤ 576 }
    requires none { sums.old ≡ replicate 16 (replicate 32 0) }
    ensures { AreAllSums (lines_in pairs.now) rate end sums.new }
{
    let mut sum = no_bits();
    let mut from = 0usize;
    for band in 0..22usize {
        put(sums, band, &sum);
        let to = usize::from(edge(rate, band + 1)).min(end);
        add_pairs(pairs, from / 2, to / 2, &mut sum);
        from = to;
    }
    put(sums, 22, &sum);
    put(sums, 23, &sum);
    put(sums, 24, &sum);
}

// Writes the sums up to each band, of the lanes with linbits alone where no other can be chosen.
#[inline(always)]
fn sum_lanes(pairs: &[u8; 288], parts: &Classes, end: usize, rate: usize, sums: &mut Sums)
    requires rate { rate < 3 }
    requires within { end ≤ 576 }
    requires none { sums.old ≡ replicate 16 (replicate 32 0) }
    ensures { AreLaneSums (lines_in pairs.now) rate end parts.now sums.new }
{
    if need_linbits(parts, end, rate) {
        sum_long(pairs, end, rate, sums);
    } else {
        sum_all(pairs, end, rate, sums);
    }
}

// Writes the sums up to each band and the class of each band, all cut at the line where the pairs
// end, from the classes of the whole bands.
pub(crate) fn sum_bands(
    pairs: &[u8; 288],
    classes: &[u8; 32],
    end: usize,
    rate: usize,
    sums: &mut Sums,
    parts: &mut Classes,
)
    requires rate { rate < 3 }
    requires within { end ≤ 576 }
    requires ends { end ≡ end_of_pairs (lines_in pairs.now) }
    requires known { (q : List ℤ) × ArePairsOf (edges_at rate) q pairs.now classes.now }
    requires none { sums.old ≡ replicate 16 (replicate 32 0) }
    ensures made { (q : List ℤ) → ArePairsOf (edges_at rate) q pairs.now classes.now → AreSumsOf q rate end (rows_of sums.new) parts.new }
    ensures ready { AreSums (rows_of sums.new) parts.new }
    ensures kept { AreKept sums.new }
    ensures long { length parts.new ≡ 32 }
    ensures few { (b : ℕ) → slice_index parts.new b < 14 }
{
    *parts = part_classes(pairs, classes, rate, end);
    sum_lanes(pairs, parts, end, rate, sums);
}
