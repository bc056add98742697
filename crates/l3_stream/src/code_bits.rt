//! Whether the tables hold a unit's lines, and how many bits their codes have then.

ghost use Rattle.std.specs.Prelude.{◌≡◌, ◌≤◌, ◌+◌, ◌*◌, ◌↔◌, IsTrue, IfSome, IfNone, length, nat_lt, if◌then◌else◌};
ghost use Rattle.l3_base.specs.Rates.{hertz_index_of};
ghost use Rattle.l3_huff.specs.Codes.{IsQuad, pair_code_of, quad_code_of};
ghost use Rattle.l3_huff.specs.Laws.{HoldsPair};
ghost use Rattle.l3_stream.specs.Units.{HasFields, line_at, PairsHold, QuadsHold, edge, pairs_code, quads_code, table_at};

use crate::regions::Regions;
use crate::unit::{Unit, four_from, two_from};
use l3_base::Settings;
use l3_huff::{QuadTable, holds, pair_bits, quad_bits};

// The bits of a unit's pairs, or nothing where a table does not hold its pair. `lines` are those of
// the pairs.
pub(crate) fn bits_of_pairs(settings: &Settings, unit: &Unit, lines: &[i16]) -> Option<u32>
    requires fields { HasFields unit.now }
    requires pairs { length lines.now ≡ 2 * unit.now.big }
    ensures value { IfSome result (λ bits. bits ≡ length (pairs_code (table_at settings.now unit.now) 0 lines.now)) }
    ensures held { IfSome result (λ _. PairsHold (table_at settings.now unit.now) 0 lines.now) }
    ensures limit { IfSome result (λ bits. bits ≤ 11520) }
    ensures none { IfNone result (PairsHold (table_at settings.now unit.now) 0 lines.now → ⊥) }
{
    let regions = Regions::of(settings, unit);
    let mut bits = 0u32;
    for k in 0..usize::from(unit.big) {
        match bits_of_pair(regions.table(2 * k), two_from(lines, 2 * k)) {
            None => return None,
            Some(more) => bits += more,
        }
    }
    Some(bits)
}

// The bits of quadruples, or nothing where one holds more than 1. `lines` are those of the
// quadruples.
pub(crate) fn bits_of_quads(table: QuadTable, count: u16, lines: &[i16]) -> Option<u32>
    requires whole { length lines.now ≡ 4 * count }
    requires places { 4 * count ≤ 576 }
    ensures value { IfSome result (λ bits. bits ≡ length (quads_code table lines.now)) }
    ensures held { IfSome result (λ _. QuadsHold lines.now) }
    ensures limit { IfSome result (λ bits. bits ≤ 1440) }
    ensures none { IfNone result (QuadsHold lines.now → ⊥) }
{
    let mut bits = 0u32;
    for k in 0..usize::from(count) {
        match bits_of_quad(table, four_from(lines, 4 * k)) {
            None => return None,
            Some(more) => bits += more,
        }
    }
    Some(bits)
}

// The bits of a pair's code, or nothing where the table does not hold it.
fn bits_of_pair(table: u8, pair: [i16; 2]) -> Option<u32>
    ensures value { IfSome result (λ bits. bits ≡ length (pair_code_of table (line_at pair 0) (line_at pair 1))) }
    ensures held { IfSome result (λ _. HoldsPair table (line_at pair 0) (line_at pair 1)) }
    ensures limit { IfSome result (λ bits. bits ≤ 40) }
    ensures none { IfNone result (HoldsPair table (line_at pair 0) (line_at pair 1) → ⊥) }
{
    let x = pair[0].unsigned_abs();
    let y = pair[1].unsigned_abs();
    if holds(table, x) && holds(table, y) {
        Some(pair_bits(table, x, y))
    } else {
        None
    }
}

// The bits of a quadruple's code, or nothing where it holds more than 1.
fn bits_of_quad(table: QuadTable, quad: [i16; 4]) -> Option<u32>
    ensures value { IfSome result (λ bits. bits ≡ length (quad_code_of table quad)) }
    ensures held { IfSome result (λ _. IsQuad quad) }
    ensures limit { IfSome result (λ bits. bits ≤ 10) }
    ensures none { IfNone result (IsQuad quad → ⊥) }
{
    if is_quad(&quad) {
        Some(quad_bits(table, quad))
    } else {
        None
    }
}

// Whether four values are at most 1.
fn is_quad(quad: &[i16]) -> bool
    requires { length quad.now ≡ 4 }
    ensures { IsTrue result ↔ IsQuad quad.now }
{
    quad.iter().all(|x| x.unsigned_abs() <= 1)
}
