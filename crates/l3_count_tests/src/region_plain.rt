//! The choice of regions and tables as it is defined: every pair of regions, every table, sums over
//! all pairs of values.
//! It is far slower than `best`, and tests compare both.

ghost use Rattle.std.specs.Prelude.{◌≤◌, All, unsigned_abs};
ghost use Rattle.std.specs.Bool.{OnTrue};

use l3_base::edge;
use l3_huff::{holds, pair_bits, quad_bits};
use l3_region::{QuadTable, Regions, Split};

// The tables of the profile, in rising order.
const TABLES: [u8; 20] = [
    0, 1, 2, 3, 5, 6, 7, 8, 9, 10, 11, 12, 24, 25, 26, 27, 28, 29, 30, 31,
];

// The bits of the pairs from one line to another in a table, or more than any where it does not
// hold them.
fn bits_in(table: u8, q: &[i16; 576], from: usize, to: usize) -> u32 {
    let mut sum = 0u32;
    for pair in from / 2..(to / 2).min(288) {
        let x = q[2 * pair].unsigned_abs();
        let y = q[2 * pair + 1].unsigned_abs();
        if !holds(table, x) || !holds(table, y) {
            return u32::MAX;
        }
        sum = sum.saturating_add(pair_bits(table, x, y));
    }
    sum
}

// The first of the tables of fewest bits, and these bits.
fn table_for(q: &[i16; 576], from: usize, to: usize) -> (u8, u32) {
    let mut found = (0, u32::MAX);
    for table in TABLES {
        let bits = bits_in(table, q, from, to);
        if bits < found.1 {
            found = (table, bits);
        }
    }
    found
}

// The line where a band begins, cut at the line where the pairs end.
fn cut(rate: usize, band: usize, end: usize) -> usize {
    if rate < 3 && band < 23 {
        usize::from(edge(rate, band)).min(end)
    } else {
        end
    }
}

// Whether no value is above 1.
fn are_ones(quad: &[i16; 4]) -> bool
    ensures { OnTrue result (All (λ x. unsigned_abs x ≤ 1) quad.now) }
{
    quad.iter().all(|x| x.unsigned_abs() <= 1)
}

// The bits of four values in a table of quadruples, or 0 where one is above 1.
fn quad_in(table: QuadTable, quad: [i16; 4]) -> u32 {
    if are_ones(&quad) {
        quad_bits(table, quad)
    } else {
        0
    }
}

// The same of the four values from a line on, of which there are none at the end.
fn quad_at(table: QuadTable, q: &[i16; 576], at: usize) -> u32 {
    if at <= 572 {
        quad_in(table, [q[at], q[at + 1], q[at + 2], q[at + 3]])
    } else {
        0
    }
}

// The bits of all quadruples in a table.
fn quads_in(table: QuadTable, q: &[i16; 576], from: usize, count: usize) -> u32 {
    let mut sum = 0u32;
    for place in 0..count.min(144) {
        sum = sum.saturating_add(quad_at(table, q, from.min(576) + 4 * place));
    }
    sum
}

// The tables and bits of the pairs up to a line, at these counts of regions.
fn pairs_in(q: &[i16; 576], end: usize, rate: usize, first: u8, second: u8) -> Regions {
    let one = cut(rate, usize::from(first) + 1, end);
    let two = cut(rate, usize::from(first) + usize::from(second) + 2, end);
    let a = table_for(q, 0, one);
    let b = table_for(q, one, two);
    let c = table_for(q, two, end);
    Regions {
        region0: first,
        region1: second,
        tables: [a.0, b.0, c.0],
        quad: QuadTable::A,
        bits: a.1.saturating_add(b.1).saturating_add(c.1),
    }
}

// The first of the counts of regions of fewest bits.
fn plain_pairs(q: &[i16; 576], end: usize, rate: usize) -> Regions {
    let mut found = pairs_in(q, end, rate, 0, 0);
    for first in 0..16u8 {
        for second in 0..8u8 {
            if first + second + 2 <= 22 {
                let next = pairs_in(q, end, rate, first, second);
                if next.bits < found.bits {
                    found = next;
                }
            }
        }
    }
    found
}

/// The regions, tables and bits of values that are split so, at the sampling frequency of this
/// place.
pub fn plain_best(q: &[i16; 576], split: Split, rate: usize) -> Regions {
    let end = 2 * usize::from(split.big);
    let quads = usize::from(split.quads);
    let mut found = plain_pairs(q, end, rate);
    let in_a = quads_in(QuadTable::A, q, end, quads);
    let in_b = quads_in(QuadTable::B, q, end, quads);
    if in_b < in_a {
        found.quad = QuadTable::B;
    }
    found.bits = found.bits.saturating_add(in_a.min(in_b));
    found
}
