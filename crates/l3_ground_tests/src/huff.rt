//! Codes of pairs and quadruples, written and read again.

ghost use Rattle.std.specs.Prelude.{◌≤◌};
ghost use Rattle.l3_huff.specs.Tables.{IsTable};

use l3_bits::put_bits;
use l3_huff::{
    Code, QuadTable, holds, pair_bits, pair_code, quad_bits, quad_code, read_pair, read_quad,
};

// Where the codes begin in the bytes of the tests.
const START: u64 = 3;

// The bytes 0xFF with a code written over them.
fn written(code: Code) -> [u8; 8]
    requires { code.length ≤ 40 }
{
    let mut bytes = [0xFF; 8];
    put_bits(&mut bytes, START, code.value, u32::from(code.length));
    bytes
}

// What is read first as the end moves on over a code, bit by bit: x, y and the place behind them.
// With it stands how many bits of the code were then there.
fn first_pair(table: u8, code: Code) -> Option<((i16, i16, u64), u8)>
    requires table { IsTable table }
    requires length { code.length ≤ 40 }
{
    let bytes = written(code);
    for length in 0..code.length + 1 {
        let end = START + u64::from(length);
        if let Some(pair) = read_pair(table, &bytes, START, end) {
            return Some((pair, length));
        }
    }
    None
}

// Whether a pair has this code and so many bits, and is read of the whole code alone: where the end
// cuts it short, in its table code, its linbits or its signs, nothing is read.
fn has_pair_code(table: u8, x: i16, y: i16, code: Code) -> bool {
    let (left, right) = (x.unsigned_abs(), y.unsigned_abs());
    if !holds(table, left) || !holds(table, right) {
        return false;
    }
    let made = pair_code(table, x, y);
    let end = START + u64::from(code.length);
    made == code
        && pair_bits(table, left, right) == u32::from(code.length)
        && first_pair(table, made) == Some(((x, y, end), code.length))
}

// Table, x, y and the code's bits, put together from the printed tables apart from this source.
static PAIRS: [(u8, i16, i16, u64, u8); 22] = [
    (0, 0, 0, 0b0, 0),
    (1, 1, 0, 0b010, 3),
    (2, -2, 1, 0b0001010, 7),
    (3, 0, -2, 0b0000011, 7),
    (5, 3, -3, 0b0000000001, 10),
    (6, -1, 2, 0b001110, 6),
    (7, 5, 4, 0b000000001000, 12),
    (8, -4, -4, 0b000000010111, 12),
    (9, 2, 5, 0b0000010100, 10),
    (10, 7, -6, 0b0000000001001, 13),
    (11, -7, 0, 0b000010111, 9),
    (12, 4, 7, 0b00000010100, 11),
    (24, 15, 0, 0b0010101100000, 13),
    (24, -14, 30, 0b00000000111110, 14),
    (25, 46, -46, 0b0011111110111111, 16),
    (26, -78, 3, 0b001000111111110, 15),
    (27, 0, 142, 0b00101100011111110, 17),
    (28, 270, 15, 0b0011111111110000000000, 22),
    (29, -16, -526, 0b001100000000111111111111, 24),
    (30, 2062, 1, 0b00101001111111111100, 20),
    (31, 8191, 0, 0b0010101111111111100000, 22),
    (31, -8206, 8206, 0b00111111111111111111111111111110, 32),
];

#[test]
fn one_code_of_each_table(rt: HostRuntime) {
    for row in 0..22 {
        let (table, x, y, value, length) = PAIRS[row];
        assert!(rt;
            has_pair_code(table, x, y, Code { value, length }),
            "row {row}"
        );
    }
}

// The same of quadruples.
fn first_quad(table: QuadTable, code: Code) -> Option<(([i16; 4], u64), u8)>
    requires { code.length ≤ 10 }
{
    let bytes = written(code);
    for length in 0..code.length + 1 {
        let end = START + u64::from(length);
        if let Some(quad) = read_quad(table, &bytes, START, end) {
            return Some((quad, length));
        }
    }
    None
}

fn has_quad_code(table: QuadTable, quad: [i16; 4], code: Code) -> bool {
    if !quad.iter().all(|x| x.unsigned_abs() <= 1) {
        return false;
    }
    let made = quad_code(table, quad);
    let end = START + u64::from(code.length);
    made == code
        && quad_bits(table, quad) == u32::from(code.length)
        && first_quad(table, made) == Some(((quad, end), code.length))
}

static QUADS: [(QuadTable, [i16; 4], u64, u8); 6] = [
    (QuadTable::A, [0, 0, 0, -1], 0b01011, 5),
    (QuadTable::A, [1, 0, -1, 1], 0b000000010, 9),
    (QuadTable::A, [0, 0, 0, 0], 0b1, 1),
    (QuadTable::B, [0, 0, 0, -1], 0b11101, 5),
    (QuadTable::B, [-1, 1, 1, -1], 0b00001001, 8),
    (QuadTable::B, [0, 0, 0, 0], 0b1111, 4),
];

#[test]
fn one_code_of_each_quadruple_table(rt: HostRuntime) {
    for row in 0..6 {
        let (table, quad, value, length) = QUADS[row];
        assert!(rt;
            has_quad_code(table, quad, Code { value, length }),
            "row {row}"
        );
    }
}
