//! The code tables of pairs (ISO/IEC 11172-3, Annex B, the Huffman code tables of Layer III).
//!
//! The entries of all tables stand one table after the other, each row by row: x is the row, y the
//! column.
//! A table with linbits stands for the values above its last row too.

ghost use Rattle.std.specs.Prelude.{◌≡◌, ◌<◌};
ghost use Rattle.l3_huff.specs.Tables.{width_at, linbits_at, first_at, length_at, value_at};

/// Tables 24 to 31 have the codes of this table, and differ in their linbits.
pub const SHARED: u8 = 24;

// How many rows and columns the tables 0 to 24 have; 0 where the profile has no such table.
#[rattlefmt::skip]
static WIDTHS: [u8; 25] = [
    1, 2, 3, 3, 0, 4, 4, 6, 6, 6, 8, 8, 8, 0, 0, 0, 0, 0, 0, 0, 0, 0, 0, 0, 16,
];

// Where the entries of the tables 0 to 24 begin.
#[rattlefmt::skip]
static FIRSTS: [u16; 25] = [
    0, 1, 5, 14, 0, 23, 39, 55, 91, 127, 163, 227, 291, 0, 0, 0, 0, 0, 0, 0, 0, 0, 0, 0, 355,
];

// How many linbits the tables 0 to 31 have.
#[rattlefmt::skip]
static LINBITS: [u8; 32] = [
    0, 0, 0, 0, 0, 0, 0, 0, 0, 0, 0, 0, 0, 0, 0, 0, 0, 0, 0, 0, 0, 0, 0, 0,
    4, 5, 6, 7, 8, 9, 11, 13,
];

// The lengths of the codes, in bits, without linbits and signs.
#[rattlefmt::skip]
static LENGTHS: [u8; 611] = [
    // table 0: value 0 alone, without bits
     0,
    // table 1: values to 1
     1,  3,
     2,  3,
    // table 2: values to 2
     1,  3,  6,
     3,  3,  5,
     5,  5,  6,
    // table 3: values to 2
     2,  2,  6,
     3,  2,  5,
     5,  5,  6,
    // table 5: values to 3
     1,  3,  6,  7,
     3,  3,  6,  7,
     6,  6,  7,  8,
     7,  6,  7,  8,
    // table 6: values to 3
     3,  3,  5,  7,
     3,  2,  4,  5,
     4,  4,  5,  6,
     6,  5,  6,  7,
    // table 7: values to 5
     1,  3,  6,  8,  8,  9,
     3,  4,  6,  7,  7,  8,
     6,  5,  7,  8,  8,  9,
     7,  7,  8,  9,  9,  9,
     7,  7,  8,  9,  9, 10,
     8,  8,  9, 10, 10, 10,
    // table 8: values to 5
     2,  3,  6,  8,  8,  9,
     3,  2,  4,  8,  8,  8,
     6,  4,  6,  8,  8,  9,
     8,  8,  8,  9,  9, 10,
     8,  7,  8,  9, 10, 10,
     9,  8,  9,  9, 11, 11,
    // table 9: values to 5
     3,  3,  5,  6,  8,  9,
     3,  3,  4,  5,  6,  8,
     4,  4,  5,  6,  7,  8,
     6,  5,  6,  7,  7,  8,
     7,  6,  7,  7,  8,  9,
     8,  7,  8,  8,  9,  9,
    // table 10: values to 7
     1,  3,  6,  8,  9,  9,  9, 10,
     3,  4,  6,  7,  8,  9,  8,  8,
     6,  6,  7,  8,  9, 10,  9,  9,
     7,  7,  8,  9, 10, 10,  9, 10,
     8,  8,  9, 10, 10, 10, 10, 10,
     9,  9, 10, 10, 11, 11, 10, 11,
     8,  8,  9, 10, 10, 10, 11, 11,
     9,  8,  9, 10, 10, 11, 11, 11,
    // table 11: values to 7
     2,  3,  5,  7,  8,  9,  8,  9,
     3,  3,  4,  6,  8,  8,  7,  8,
     5,  5,  6,  7,  8,  9,  8,  8,
     7,  6,  7,  9,  8, 10,  8,  9,
     8,  8,  8,  9,  9, 10,  9, 10,
     8,  8,  9, 10, 10, 11, 10, 11,
     8,  7,  7,  8,  9, 10, 10, 10,
     8,  7,  8,  9, 10, 10, 10, 10,
    // table 12: values to 7
     4,  3,  5,  7,  8,  9,  9,  9,
     3,  3,  4,  5,  7,  7,  8,  8,
     5,  4,  5,  6,  7,  8,  7,  8,
     6,  5,  6,  6,  7,  8,  8,  8,
     7,  6,  7,  7,  8,  8,  8,  9,
     8,  7,  8,  8,  8,  9,  8,  9,
     8,  7,  7,  8,  8,  9,  9, 10,
     9,  8,  8,  9,  9,  9,  9, 10,
    // table 24: values to 15 before linbits; tables 24 to 31 share it
     4,  4,  6,  7,  8,  9,  9, 10, 10, 11, 11, 11, 11, 11, 12,  9,
     4,  4,  5,  6,  7,  8,  8,  9,  9,  9, 10, 10, 10, 10, 10,  8,
     6,  5,  6,  7,  7,  8,  8,  9,  9,  9,  9, 10, 10, 10, 11,  7,
     7,  6,  7,  7,  8,  8,  8,  9,  9,  9,  9, 10, 10, 10, 10,  7,
     8,  7,  7,  8,  8,  8,  8,  9,  9,  9, 10, 10, 10, 10, 11,  7,
     9,  7,  8,  8,  8,  8,  9,  9,  9,  9, 10, 10, 10, 10, 10,  7,
     9,  8,  8,  8,  8,  9,  9,  9,  9, 10, 10, 10, 10, 10, 11,  7,
    10,  8,  8,  8,  9,  9,  9,  9, 10, 10, 10, 10, 10, 11, 11,  8,
    10,  9,  9,  9,  9,  9,  9,  9,  9, 10, 10, 10, 10, 11, 11,  8,
    10,  9,  9,  9,  9,  9,  9, 10, 10, 10, 10, 10, 11, 11, 11,  8,
    11,  9,  9,  9,  9, 10, 10, 10, 10, 10, 10, 11, 11, 11, 11,  8,
    11, 10,  9,  9,  9, 10, 10, 10, 10, 10, 10, 11, 11, 11, 11,  8,
    11, 10, 10, 10, 10, 10, 10, 10, 10, 10, 11, 11, 11, 11, 11,  8,
    11, 10, 10, 10, 10, 10, 10, 10, 11, 11, 11, 11, 11, 11, 11,  8,
    12, 10, 10, 10, 10, 10, 10, 11, 11, 11, 11, 11, 11, 11, 11,  8,
     8,  7,  7,  7,  7,  7,  7,  7,  7,  7,  7,  8,  8,  8,  8,  4,
];

// The codes as numbers of so many bits, the first bit being the most significant.
#[rattlefmt::skip]
static VALUES: [u16; 611] = [
    // table 0: value 0 alone, without bits
       0,
    // table 1: values to 1
       1,    1,
       1,    0,
    // table 2: values to 2
       1,    2,    1,
       3,    1,    1,
       3,    2,    0,
    // table 3: values to 2
       3,    2,    1,
       1,    1,    1,
       3,    2,    0,
    // table 5: values to 3
       1,    2,    6,    5,
       3,    1,    4,    4,
       7,    5,    7,    1,
       6,    1,    1,    0,
    // table 6: values to 3
       7,    3,    5,    1,
       6,    2,    3,    2,
       5,    4,    4,    1,
       3,    3,    2,    0,
    // table 7: values to 5
       1,    2,   10,   19,   16,   10,
       3,    3,    7,   10,    5,    3,
      11,    4,   13,   17,    8,    4,
      12,   11,   18,   15,   11,    2,
       7,    6,    9,   14,    3,    1,
       6,    4,    5,    3,    2,    0,
    // table 8: values to 5
       3,    4,    6,   18,   12,    5,
       5,    1,    2,   16,    9,    3,
       7,    3,    5,   14,    7,    3,
      19,   17,   15,   13,   10,    4,
      13,    5,    8,   11,    5,    1,
      12,    4,    4,    1,    1,    0,
    // table 9: values to 5
       7,    5,    9,   14,   15,    7,
       6,    4,    5,    5,    6,    7,
       7,    6,    8,    8,    8,    5,
      15,    6,    9,   10,    5,    1,
      11,    7,    9,    6,    4,    1,
      14,    4,    6,    2,    6,    0,
    // table 10: values to 7
       1,    2,   10,   23,   35,   30,   12,   17,
       3,    3,    8,   12,   18,   21,   12,    7,
      11,    9,   15,   21,   32,   40,   19,    6,
      14,   13,   22,   34,   46,   23,   18,    7,
      20,   19,   33,   47,   27,   22,    9,    3,
      31,   22,   41,   26,   21,   20,    5,    3,
      14,   13,   10,   11,   16,    6,    5,    1,
       9,    8,    7,    8,    4,    4,    2,    0,
    // table 11: values to 7
       3,    4,   10,   24,   34,   33,   21,   15,
       5,    3,    4,   10,   32,   17,   11,   10,
      11,    7,   13,   18,   30,   31,   20,    5,
      25,   11,   19,   59,   27,   18,   12,    5,
      35,   33,   31,   58,   30,   16,    7,    5,
      28,   26,   32,   19,   17,   15,    8,   14,
      14,   12,    9,   13,   14,    9,    4,    1,
      11,    4,    6,    6,    6,    3,    2,    0,
    // table 12: values to 7
       9,    6,   16,   33,   41,   39,   38,   26,
       7,    5,    6,    9,   23,   16,   26,   11,
      17,    7,   11,   14,   21,   30,   10,    7,
      17,   10,   15,   12,   18,   28,   14,    5,
      32,   13,   22,   19,   18,   16,    9,    5,
      40,   17,   31,   29,   17,   13,    4,    2,
      27,   12,   11,   15,   10,    7,    4,    1,
      27,   12,    8,   12,    6,    3,    1,    0,
    // table 24: values to 15 before linbits; tables 24 to 31 share it
      15,   13,   46,   80,  146,  262,  248,  434,  426,  669,  653,  649,  621,  517, 1032,   88,
      14,   12,   21,   38,   71,  130,  122,  216,  209,  198,  327,  345,  319,  297,  279,   42,
      47,   22,   41,   74,   68,  128,  120,  221,  207,  194,  182,  340,  315,  295,  541,   18,
      81,   39,   75,   70,  134,  125,  116,  220,  204,  190,  178,  325,  311,  293,  271,   16,
     147,   72,   69,  135,  127,  118,  112,  210,  200,  188,  352,  323,  306,  285,  540,   14,
     263,   66,  129,  126,  119,  114,  214,  202,  192,  180,  341,  317,  301,  281,  262,   12,
     249,  123,  121,  117,  113,  215,  206,  195,  185,  347,  330,  308,  291,  272,  520,   10,
     435,  115,  111,  109,  211,  203,  196,  187,  353,  332,  313,  298,  283,  531,  381,   17,
     427,  212,  208,  205,  201,  193,  186,  177,  169,  320,  303,  286,  268,  514,  377,   16,
     335,  199,  197,  191,  189,  181,  174,  333,  321,  305,  289,  275,  521,  379,  371,   11,
     668,  184,  183,  179,  175,  344,  331,  314,  304,  290,  277,  530,  383,  373,  366,   10,
     652,  346,  171,  168,  164,  318,  309,  299,  287,  276,  263,  513,  375,  368,  362,    6,
     648,  322,  316,  312,  307,  302,  292,  284,  269,  261,  512,  376,  370,  364,  359,    4,
     620,  300,  296,  294,  288,  282,  273,  266,  515,  380,  374,  369,  365,  361,  357,    2,
    1033,  280,  278,  274,  267,  264,  259,  382,  378,  372,  367,  363,  360,  358,  356,    0,
      43,   20,   19,   17,   15,   13,   11,    9,    7,    6,    4,    7,    5,    3,    1,    3,
];

/// How many rows, and columns, a table of codes has.
#[inline(always)]
pub fn width(base: usize) -> u8
    requires { base < 25 }
    ensures { result ≡ width_at base }
{
    WIDTHS[base]
}

/// Where the entries of a table of codes begin.
#[inline(always)]
pub fn first(base: usize) -> u16
    requires { base < 25 }
    ensures { result ≡ first_at base }
{
    FIRSTS[base]
}

/// How many linbits a table has.
#[inline(always)]
pub fn linbits(table: usize) -> u8
    requires { table < 32 }
    ensures { result ≡ linbits_at table }
{
    LINBITS[table]
}

/// The length of the code at a place among all entries.
#[inline(always)]
pub fn length(place: usize) -> u8
    requires { place < 611 }
    ensures { result ≡ length_at place }
{
    LENGTHS[place]
}

/// The code at a place among all entries, as a number.
#[inline(always)]
pub fn value(place: usize) -> u16
    requires { place < 611 }
    ensures { result ≡ value_at place }
{
    VALUES[place]
}
