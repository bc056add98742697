//! The codes of pairs: table code, linbits of x, sign of x, linbits of y, sign of y.

ghost use Rattle.std.specs.Prelude.{◌≡◌, ◌<◌, ◌≤◌, ◌+◌, ◌*◌, ◌^◌, ◌++◌, ◌↔◌, IsTrue, length, min, pos, unsigned_abs};
ghost use Rattle.l3_bits.specs.Bits.{digits};
ghost use Rattle.l3_huff.specs.Tables.{Holds, IsTable, base_of, first_at, greatest_of, linbits_of, table_code, width_of};
ghost use Rattle.l3_huff.specs.Codes.{linbits_code, pair_code_of, sign_code, tail_code};

use crate::code::Code;
use crate::pair_tables::{self, SHARED};

/// From this value on a pair's table code stands for all values, and linbits tell them apart.
pub const FIRST_LINBITS: u16 = 15;

/// Whether `table` is a table of pairs of the profile: 0 to 3, 5 to 12, 24 to 31.
pub fn is_table(table: u8) -> bool
    ensures { IsTrue result ↔ IsTable table }
{
    table < 32 && pair_tables::width(base(table)) != 0
}

/// Whether the table has codes for this absolute value; false for a table that the profile doesn't
/// have.
pub fn holds(table: u8, value: u16) -> bool
    ensures { IsTrue result ↔ Holds table value }
{
    is_table(table) && value <= greatest(table)
}

/// The length in bits of a pair's table code, without linbits and signs, for absolute values that
/// the table holds.
#[inline(always)]
pub fn code_length(table: u8, x: u16, y: u16) -> u8
    requires holds_x { Holds table x }
    requires holds_y { Holds table y }
    ensures value { result ≡ length (table_code table (min x 15) (min y 15)) }
    ensures limit { result ≤ 12 }
{
    pair_tables::length(place(table, x.min(FIRST_LINBITS), y.min(FIRST_LINBITS)))
}

/// The length in bits of a pair's code, for absolute values that the table holds.
#[inline]
pub fn pair_bits(table: u8, x: u16, y: u16) -> u32
    requires holds_x { Holds table x }
    requires holds_y { Holds table y }
    ensures value { result ≡ length (pair_code_of table (pos x) (pos y)) }
    ensures limit { result ≤ 40 }
{
    u32::from(code_length(table, x, y)) + (tail_bits(table, x) + tail_bits(table, y))
}

/// The code of a pair of values whose absolute values the table holds.
pub fn pair_code(table: u8, x: i16, y: i16) -> Code
    requires holds_x { Holds table (unsigned_abs x) }
    requires holds_y { Holds table (unsigned_abs y) }
    ensures code { digits result.length result.value ≡ pair_code_of table x y }
    ensures small { result.value < 2 ^ result.length }
    ensures length { result.length ≡ length (pair_code_of table x y) }
    ensures limit { result.length ≤ 40 }
{
    let row = x.unsigned_abs().min(FIRST_LINBITS);
    let column = y.unsigned_abs().min(FIRST_LINBITS);
    let code = entry_code(table, row, column);
    with_tail(table, with_tail(table, code, x), y)
}

/// The table that has the codes of this one.
#[inline(always)]
pub fn base(table: u8) -> usize
    ensures { result ≡ base_of table }
{
    usize::from(table.min(SHARED))
}

/// How many bits a linbits field of the table has; 0 where it has none.
#[inline(always)]
pub fn linbits(table: u8) -> u8
    requires { IsTable table }
    ensures value { result ≡ linbits_of table }
    ensures limit { result ≤ 13 }
{
    pair_tables::linbits(usize::from(table))
}

// The greatest value of a table.
fn greatest(table: u8) -> u16
    requires { IsTable table }
    ensures { result ≡ greatest_of table }
{
    u16::from(pair_tables::width(base(table))) - 1 + ((1u16 << linbits(table)) - 1)
}

/// The place of a row and a column among the entries of all tables.
#[inline(always)]
pub fn place(table: u8, row: u16, column: u16) -> usize
    requires table { IsTable table }
    requires row { row < width_of table }
    requires column { column < width_of table }
    ensures value { result ≡ first_at (base_of table) + (row * width_of table + column) }
    ensures within { result < 611 }
{
    let base = base(table);
    usize::from(pair_tables::first(base))
        + (usize::from(row) * usize::from(pair_tables::width(base)) + usize::from(column))
}

// The table code of a row and a column.
fn entry_code(table: u8, row: u16, column: u16) -> Code
    requires table { IsTable table }
    requires row { row < width_of table }
    requires column { column < width_of table }
    ensures code { digits result.length result.value ≡ table_code table row column }
    ensures small { result.value < 2 ^ result.length }
    ensures limit { result.length ≤ 12 }
{
    let place = place(table, row, column);
    Code {
        value: u64::from(pair_tables::value(place)),
        length: pair_tables::length(place),
    }
}

// The length in bits of the linbits and the sign of an absolute value.
#[inline(always)]
fn tail_bits(table: u8, value: u16) -> u32
    requires { Holds table value }
    ensures value { result ≡ length (tail_code table (pos value)) }
    ensures limit { result ≤ 14 }
{
    linbits_bits(table, value) + sign_bits(value)
}

// The length in bits of the linbits of an absolute value.
#[inline(always)]
fn linbits_bits(table: u8, value: u16) -> u32
    requires { Holds table value }
    ensures value { result ≡ length (linbits_code table value) }
    ensures limit { result ≤ 13 }
{
    if value >= FIRST_LINBITS {
        u32::from(linbits(table))
    } else {
        0
    }
}

/// The length in bits of the sign of an absolute value.
#[inline(always)]
pub fn sign_bits(value: u16) -> u32
    ensures { result ≡ min value 1 }
{
    if value == 0 { 0 } else { 1 }
}

// A code, and after it the linbits and the sign of a value.
fn with_tail(table: u8, code: Code, x: i16) -> Code
    requires holds { Holds table (unsigned_abs x) }
    requires code { code.value < 2 ^ code.length }
    requires room { code.length ≤ 49 }
    ensures code { digits result.length result.value ≡ digits code.length code.value ++ tail_code table x }
    ensures small { result.value < 2 ^ result.length }
    ensures limit { result.length ≤ code.length + 14 }
{
    with_sign(with_linbits(table, code, x.unsigned_abs()), x)
}

// A code, and after it the linbits of an absolute value.
fn with_linbits(table: u8, code: Code, value: u16) -> Code
    requires holds { Holds table value }
    requires code { code.value < 2 ^ code.length }
    requires room { code.length ≤ 49 }
    ensures code { digits result.length result.value ≡ digits code.length code.value ++ linbits_code table value }
    ensures small { result.value < 2 ^ result.length }
    ensures limit { result.length ≤ code.length + 13 }
{
    if value >= FIRST_LINBITS {
        code.followed_by(u64::from(value - FIRST_LINBITS), linbits(table))
    } else {
        code
    }
}

/// A code, and after it the sign of a value.
pub fn with_sign(code: Code, x: i16) -> Code
    requires code { code.value < 2 ^ code.length }
    requires room { code.length ≤ 62 }
    ensures code { digits result.length result.value ≡ digits code.length code.value ++ sign_code x }
    ensures small { result.value < 2 ^ result.length }
    ensures limit { result.length ≤ code.length + 1 }
{
    if x == 0 {
        code
    } else if x < 0 {
        code.followed_by(1, 1)
    } else {
        code.followed_by(0, 1)
    }
}
