//! The codes of quadruples: the code of the index, then the signs.

ghost use Rattle.std.specs.Prelude.{◌≡◌, ◌<◌, ◌≤◌, ◌^◌, All, length, slice_index_or, unsigned_abs, []};
ghost use Rattle.l3_bits.specs.Bits.{digits};
ghost use Rattle.l3_huff.specs.Tables.{quad_codes};
ghost use Rattle.l3_huff.specs.Codes.{quad_code_of, quad_index};

use crate::code::Code;
use crate::pairs::{sign_bits, with_sign};
use crate::quad_tables;

/// `count1table_select`: the table of a unit's quadruples.
#[derive(Clone, Copy, Debug, PartialEq, Eq)]
pub enum QuadTable {
    A,
    B,
}

/// The length in bits of a quadruple's code, for values of at most 1 in absolute value.
pub fn quad_bits(table: QuadTable, quad: [i16; 4]) -> u32
    requires { All (λ x. unsigned_abs x ≤ 1) quad }
    ensures value { result ≡ length (quad_code_of table quad) }
    ensures limit { result ≤ 10 }
{
    let [v, w, x, y] = quad;
    let signs = sign_bits(v.unsigned_abs())
        + (sign_bits(w.unsigned_abs())
            + (sign_bits(x.unsigned_abs()) + sign_bits(y.unsigned_abs())));
    u32::from(index_code(table, index(quad)).length) + signs
}

/// The code of a quadruple of values of at most 1 in absolute value.
pub fn quad_code(table: QuadTable, quad: [i16; 4]) -> Code
    requires { All (λ x. unsigned_abs x ≤ 1) quad }
    ensures code { digits result.length result.value ≡ quad_code_of table quad }
    ensures small { result.value < 2 ^ result.length }
    ensures length { result.length ≡ length (quad_code_of table quad) }
    ensures limit { result.length ≤ 10 }
{
    let [v, w, x, y] = quad;
    let code = index_code(table, index(quad));
    with_sign(with_sign(with_sign(with_sign(code, v), w), x), y)
}

// The index of a quadruple's code.
fn index(quad: [i16; 4]) -> usize
    requires { All (λ x. unsigned_abs x ≤ 1) quad }
    ensures value { result ≡ quad_index quad }
    ensures within { result < 16 }
{
    let [v, w, x, y] = quad;
    8 * usize::from(v.unsigned_abs())
        + 4 * usize::from(w.unsigned_abs())
        + 2 * usize::from(x.unsigned_abs())
        + usize::from(y.unsigned_abs())
}

/// The code of an index, without signs.
pub fn index_code(table: QuadTable, index: usize) -> Code
    requires { index < 16 }
    ensures code { digits result.length result.value ≡ slice_index_or (quad_codes table) index [] }
    ensures small { result.value < 2 ^ result.length }
    ensures limit { result.length ≤ 6 }
{
    match table {
        QuadTable::A => Code {
            value: u64::from(quad_tables::value(index)),
            length: quad_tables::length(index),
        },
        QuadTable::B => Code {
            value: 15 - index as u64,
            length: 4,
        },
    }
}
