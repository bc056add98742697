//! Reading the code that stands at a bit: a look-up by the next bits, then linbits and signs.

ghost use Rattle.std.specs.Prelude.{◌≡◌, ◌<◌, ◌≤◌, ◌+◌, ◌*◌, ◌^◌, ℕ, ℤ, List, IfNone, IfSome, None, length, unsigned_abs};
ghost use Rattle.l3_huff.specs.Tables.{IsTable, codes_of, quad_codes, width_of};
ghost use Rattle.l3_huff.specs.Reading.{entry_at, sign_at, tail_at};
ghost use Rattle.l3_huff.specs.Standing.{PairStands, QuadStands};
ghost use Rattle.l3_huff.specs.ReadingTables.{IsCellOf, IsIndexOf, longest_of};
ghost use Rattle.l3_huff.specs.Words.{GoesOn, between};

use crate::bits_ahead::bits_ahead;
use crate::pairs::{FIRST_LINBITS, base, linbits, place};
use crate::quads::{QuadTable, index_code};
use crate::{pair_tables, quad_tables, reading_tables};

/// Reads the pair whose code stands at bit `at`, whole before bit `end`: x, y and the bit after the
/// code.
///
/// None where no code of the table stands there. The table is one of the profile; values are at
/// most 8206 either way.
pub fn read_pair(table: u8, bytes: &[u8], at: u64, end: u64) -> Option<(i16, i16, u64)>
    requires table { IsTable table }
    requires order { at ≤ end }
    requires within { end ≤ 8 * length bytes.now }
    ensures found { IfSome result (λ r. PairStands table bytes.now at end r.0 r.1 r.2) }
    ensures limit { IfSome result (λ r. (unsigned_abs r.0 ≤ 8206) × (unsigned_abs r.1 ≤ 8206)) }
    ensures none { IfNone result ((x y : ℤ) (next : ℕ) → PairStands table bytes.now at end x y next → ⊥) }
{
    let (row, column, at) = read_entry(table, bytes, at, end)?;
    let (x, at) = read_value(table, row, bytes, at, end)?;
    let (y, at) = read_value(table, column, bytes, at, end)?;
    Some((x, y, at))
}

/// Reads the quadruple whose code stands at bit `at`, whole before bit `end`: its values and the
/// bit after the code.
///
/// None where no code of the table stands there.
pub fn read_quad(table: QuadTable, bytes: &[u8], at: u64, end: u64) -> Option<([i16; 4], u64)>
    requires order { at ≤ end }
    requires within { end ≤ 8 * length bytes.now }
    ensures found { IfSome result (λ r. QuadStands table bytes.now at end r.0 r.1) }
    ensures none { IfNone result ((quad : List ℤ) (next : ℕ) → QuadStands table bytes.now at end quad next → ⊥) }
{
    let (index, at) = read_index(table, bytes, at, end)?;
    let (v, at) = read_sign(index / 8, bytes, at, end)?;
    let (w, at) = read_sign(index / 4 % 2, bytes, at, end)?;
    let (x, at) = read_sign(index / 2 % 2, bytes, at, end)?;
    let (y, at) = read_sign(index % 2, bytes, at, end)?;
    Some(([v, w, x, y], at))
}

// Row and column of the table code that stands at a bit, and the bit after it.
fn read_entry(table: u8, bytes: &[u8], at: u64, end: u64) -> Option<(u16, u16, u64)>
    requires table { IsTable table }
    requires order { at ≤ end }
    requires within { end ≤ 8 * length bytes.now }
    ensures row { IfSome result (λ r. r.0 < width_of table) }
    ensures column { IfSome result (λ r. r.1 < width_of table) }
    ensures found { IfSome result (λ r. GoesOn (entry_at (codes_of table)) bytes.now at end (r.0 * width_of table + r.1) r.2) }
    ensures none { IfNone result (entry_at (codes_of table) (between bytes.now at end) ≡ None) }
{
    let width = u32::from(reading_tables::longest(base(table)));
    let cell = cell_ahead(table, bits_ahead(bytes, at, width));
    let row = u16::from(cell / 16);
    let column = u16::from(cell % 16);
    let length = u64::from(pair_tables::length(place(table, row, column)));
    if length <= end - at {
        Some((row, column, at + length))
    } else {
        None
    }
}

// The cell, 16 times the row and the column, whose code begins the bits ahead, as many as the
// table's longest code has.
fn cell_ahead(table: u8, ahead: u32) -> u8
    requires table { IsTable table }
    requires ahead { ahead < 2 ^ longest_of table }
    ensures { IsCellOf table ahead result }
{
    reading_tables::cell(usize::from(reading_tables::first_cell(base(table))) + ahead as usize)
}

// The value of a row or a column, and the bit after its linbits and its sign.
fn read_value(table: u8, entry: u16, bytes: &[u8], at: u64, end: u64) -> Option<(i16, u64)>
    requires table { IsTable table }
    requires entry { entry < width_of table }
    requires order { at ≤ end }
    requires within { end ≤ 8 * length bytes.now }
    ensures found { IfSome result (λ r. GoesOn (tail_at table entry) bytes.now at end r.0 r.1) }
    ensures none { IfNone result (tail_at table entry (between bytes.now at end) ≡ None) }
{
    if entry < FIRST_LINBITS {
        return read_sign(entry, bytes, at, end);
    }
    let linbits = u32::from(linbits(table));
    if end - at < u64::from(linbits) {
        return None;
    }
    let above = bits_ahead(bytes, at, linbits) as u16;
    read_sign(FIRST_LINBITS + above, bytes, at + u64::from(linbits), end)
}

// The value of an absolute value, and the bit after its sign; 0 has none.
fn read_sign(value: u16, bytes: &[u8], at: u64, end: u64) -> Option<(i16, u64)>
    requires value { value < 2 ^ 15 }
    requires order { at ≤ end }
    requires within { end ≤ 8 * length bytes.now }
    ensures found { IfSome result (λ r. GoesOn (sign_at value) bytes.now at end r.0 r.1) }
    ensures none { IfNone result (sign_at value (between bytes.now at end) ≡ None) }
{
    if value == 0 {
        return Some((0, at));
    }
    if at == end {
        return None;
    }
    let signed = value as i16;
    if bits_ahead(bytes, at, 1) == 1 {
        Some((-signed, at + 1))
    } else {
        Some((signed, at + 1))
    }
}

// The index of the quadruple code that stands at a bit, and the bit after it.
fn read_index(table: QuadTable, bytes: &[u8], at: u64, end: u64) -> Option<(u16, u64)>
    requires order { at ≤ end }
    requires within { end ≤ 8 * length bytes.now }
    ensures index { IfSome result (λ r. r.0 < 16) }
    ensures found { IfSome result (λ r. GoesOn (entry_at (quad_codes table)) bytes.now at end r.0 r.1) }
    ensures none { IfNone result (entry_at (quad_codes table) (between bytes.now at end) ≡ None) }
{
    let index = index_ahead(table, bits_ahead(bytes, at, 6));
    let length = u64::from(index_code(table, index).length);
    if length <= end - at {
        Some((index as u16, at + length))
    } else {
        None
    }
}

// The index whose code begins the 6 bits ahead.
fn index_ahead(table: QuadTable, ahead: u32) -> usize
    requires { ahead < 64 }
    ensures { IsIndexOf table ahead result }
{
    match table {
        QuadTable::A => usize::from(quad_tables::index(ahead as usize)),
        QuadTable::B => 15 - ahead as usize / 4,
    }
}
