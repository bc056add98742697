//! The code table A of quadruples (ISO/IEC 11172-3, Annex B, the Huffman code tables of Layer III).
//!
//! Entries go by the index `8|v| + 4|w| + 2|x| + |y|`. Table B needs none: its codes are 15 less
//! the index.

ghost use Rattle.std.specs.Prelude.{◌≡◌, ◌<◌};
ghost use Rattle.l3_huff.specs.ReadingTables.{quad_index_at};
ghost use Rattle.l3_huff.specs.Tables.{quad_length_at, quad_value_at};

// The lengths of the codes of table A, in bits, without signs.
#[rattlefmt::skip]
static QUAD_LENGTHS: [u8; 16] = [
    1, 4, 4, 5, 4, 6, 5, 6, 4, 5, 5, 6, 5, 6, 6, 6,
];

// The codes of table A as numbers of so many bits, the first bit being the most significant.
#[rattlefmt::skip]
static QUAD_VALUES: [u8; 16] = [
    1, 5, 4, 5, 6, 5, 4, 4, 7, 3, 6, 0, 7, 2, 3, 1,
];

// The index whose code in table A begins the 6 bits ahead, by their number.
#[rattlefmt::skip]
static QUAD_INDICES: [u8; 64] = [
    11, 15, 13, 14,  7,  5,  9,  9,  6,  6,  3,  3, 10, 10, 12, 12,
     2,  2,  2,  2,  1,  1,  1,  1,  4,  4,  4,  4,  8,  8,  8,  8,
     0,  0,  0,  0,  0,  0,  0,  0,  0,  0,  0,  0,  0,  0,  0,  0,
     0,  0,  0,  0,  0,  0,  0,  0,  0,  0,  0,  0,  0,  0,  0,  0,
];

/// The length of an index's code in table A.
#[inline(always)]
pub fn length(index: usize) -> u8
    requires { index < 16 }
    ensures { result ≡ quad_length_at index }
{
    QUAD_LENGTHS[index]
}

/// An index's code in table A, as a number.
#[inline(always)]
pub fn value(index: usize) -> u8
    requires { index < 16 }
    ensures { result ≡ quad_value_at index }
{
    QUAD_VALUES[index]
}

/// The index whose code in table A begins the 6 bits ahead.
#[inline(always)]
pub fn index(ahead: usize) -> u8
    requires { ahead < 64 }
    ensures { result ≡ quad_index_at ahead }
{
    QUAD_INDICES[ahead]
}
