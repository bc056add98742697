//! The 59 bits of a unit in the side information, as one number (ISO/IEC 11172-3, 2.4, the audio
//! data of Layer III).

ghost use Rattle.std.specs.Prelude.{◌≡◌, ◌<◌, ◌≤◌, ◌^◌, ◌/◌, ◌%◌, true, false};
ghost use Rattle.l3_bits.specs.Bits.{digits};
ghost use Rattle.l3_stream.specs.Units.{HasFields};
ghost use Rattle.l3_stream.specs.Frames.{blank};
ghost use Rattle.l3_stream.specs.Side.{unit_side, unit_widths};
ghost use Rattle.l3_stream.specs.SideReading.{quad_from, unit_from, PassesRule};
ghost use Rattle.l3_stream.specs.Numbers.{fields_of_number, HasZeros};

use crate::unit::Unit;
use l3_huff::{QuadTable, is_table};

// The greatest `big_values`: pairs are within 576 lines.
const BIG_LIMIT: u64 = 288;

// The greatest number of scale factor bands before region 2.
const BANDS_LIMIT: u64 = 22;

// The fields of a unit as a number of 59 bits, the first field most significant.
pub(crate) fn unit_number(unit: &Unit) -> u64
    requires { HasFields unit.now }
    ensures { digits 59 result ≡ unit_side unit.now }
{
    let size = (u64::from(unit.length) * 512 + u64::from(unit.big)) * 256 + u64::from(unit.gain);
    let [first, second, third] = unit.tables;
    let tables = (u64::from(first) * 32 + u64::from(second)) * 32 + u64::from(third);
    let regions = u64::from(unit.region0) * 8 + u64::from(unit.region1);
    let quad = match unit.quad {
        QuadTable::A => 0,
        QuadTable::B => 1,
    };

    // scalefac_compress and window_switching_flag, five bits before the tables, are 0, and so are
    // preflag and scalefac_scale, two bits before the last.
    ((size * 1_048_576 + tables) * 128 + regions) * 8 + quad
}

// Whether a unit's number has fields of the profile.
pub(crate) fn passes(number: u64) -> bool
    ensures yes { result ≡ true → PassesRule (fields_of_number unit_widths number) }
    ensures no { result ≡ false → PassesRule (fields_of_number unit_widths number) → ⊥ }
{
    has_zero_fields(number)
        && field(number, 38, 9) <= BIG_LIMIT
        && field(number, 6, 4) + field(number, 3, 3) + 2 <= BANDS_LIMIT
        && is_table(field(number, 20, 5) as u8)
        && is_table(field(number, 15, 5) as u8)
        && is_table(field(number, 10, 5) as u8)
}

// Sets the fields of a blank unit to those of a number.
pub(crate) fn set_fields(unit: &mut Unit, number: u64)
    requires { unit.old ≡ blank }
    ensures { unit.new ≡ unit_from (fields_of_number unit_widths number) }
{
    unit.length = field(number, 47, 12) as u16;
    unit.big = field(number, 38, 9) as u16;
    unit.gain = field(number, 30, 8) as u8;
    unit.tables = [
        field(number, 20, 5) as u8,
        field(number, 15, 5) as u8,
        field(number, 10, 5) as u8,
    ];
    unit.region0 = field(number, 6, 4) as u8;
    unit.region1 = field(number, 3, 3) as u8;
    unit.quad = quad_table(field(number, 0, 1));
}

// Whether scalefac_compress, window_switching_flag, preflag and scalefac_scale are 0.
fn has_zero_fields(number: u64) -> bool
    ensures yes { result ≡ true → HasZeros (fields_of_number unit_widths number) }
    ensures no { result ≡ false → HasZeros (fields_of_number unit_widths number) → ⊥ }
{
    field(number, 26, 4) == 0
        && field(number, 25, 1) == 0
        && field(number, 2, 1) == 0
        && field(number, 1, 1) == 0
}

// The field of so many bits that has so many bits below it.
fn field(number: u64, below: u32, width: u32) -> u64
    requires below { below < 64 }
    requires width { width ≤ 12 }
    ensures value { result ≡ number / 2 ^ below % 2 ^ width }
    ensures small { result < 2 ^ width }
{
    (number >> below) % (1 << width)
}

// The table of a `count1table_select`.
fn quad_table(number: u64) -> QuadTable
    ensures { result ≡ quad_from number }
{
    if number == 0 {
        QuadTable::A
    } else {
        QuadTable::B
    }
}
