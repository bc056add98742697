//! Whether a frame is coded: its fields are ones that the side information can say, and its codes
//! spell its lines.

ghost use Rattle.std.specs.Prelude.{◌≡◌, ◌≤◌, ◌+◌, ◌-◌, ◌*◌, ◌↔◌, true, false, All, IsTrue, drop, length, pos};
ghost use Rattle.l3_stream.specs.Units.{HasFields, IsCodedUnit, pairs_of, quads_of};
ghost use Rattle.l3_stream.specs.Frames.{IsCoded, blank};
ghost use Rattle.l3_stream.specs.Coded.{HasZeroFields, IsCodedGranule};

use crate::code_bits::{bits_of_pairs, bits_of_quads};
use crate::unit::{ChosenFrame, Unit};
use l3_base::{Channels, Settings};
use l3_huff::{QuadTable, is_table};

/// Whether the frame is coded under these settings, `main_data_begin` aside.
///
/// The places of pairs and quadruples are within the 576 lines, all lines past them are 0, the
/// table of each pair holds it, quadruples hold at most 1, and each unit's `length` is the number
/// of its code bits. In mono the second channel's units are zero.
pub fn is_coded(settings: &Settings, frame: &ChosenFrame) -> bool
    ensures coded { result ≡ true → IsCoded settings.now frame.now }
    ensures refused { result ≡ false → IsCoded settings.now frame.now → ⊥ }
{
    is_coded_granule(settings, &frame.units[0]) && is_coded_granule(settings, &frame.units[1])
}

// Whether both units of a granule are coded, or in mono the second is blank.
fn is_coded_granule(settings: &Settings, units: &[Unit; 2]) -> bool
    ensures coded { result ≡ true → IsCodedGranule settings.now settings.now.channels units.now }
    ensures refused { result ≡ false → IsCodedGranule settings.now settings.now.channels units.now → ⊥ }
{
    let second = match settings.channels {
        Channels::Mono => is_blank(&units[1]),
        Channels::Stereo => is_coded_unit(settings, &units[1]),
    };
    second && is_coded_unit(settings, &units[0])
}

// Whether one channel of one granule is coded.
fn is_coded_unit(settings: &Settings, unit: &Unit) -> bool
    ensures coded { result ≡ true → IsCodedUnit settings.now unit.now }
    ensures refused { result ≡ false → IsCodedUnit settings.now unit.now → ⊥ }
{
    if !has_fields(unit) || !has_places(unit) || !are_zero(unit.past_lines()) {
        return false;
    }
    match bits_of_pairs(settings, unit, unit.pair_lines()) {
        None => false,
        Some(first) => match bits_of_quads(unit.quad, unit.quads, unit.quad_lines()) {
            None => false,
            Some(second) => u32::from(unit.length) == first + second,
        },
    }
}

// Whether the side information can say the unit's fields.
fn has_fields(unit: &Unit) -> bool
    ensures fields { result ≡ true → HasFields unit.now }
    ensures refused { result ≡ false → HasFields unit.now → ⊥ }
{
    unit.length < 4096
        && unit.big <= 288
        && unit.region0 < 16
        && unit.region1 < 8
        && unit.region0 + unit.region1 + 2 <= 22
        && is_table(unit.tables[0])
        && is_table(unit.tables[1])
        && is_table(unit.tables[2])
}

// Whether pairs and quadruples are within the lines.
fn has_places(unit: &Unit) -> bool
    ensures places { result ≡ true → 2 * unit.now.big + 4 * unit.now.quads ≤ 576 }
    ensures refused { result ≡ false → 2 * unit.now.big + 4 * unit.now.quads ≤ 576 → ⊥ }
{
    2 * u32::from(unit.big) + 4 * u32::from(unit.quads) <= 576
}

// Whether all lines are 0.
fn are_zero(lines: &[i16]) -> bool
    ensures { IsTrue result ↔ All (λ x. x ≡ pos 0) lines.now }
{
    lines.iter().all(|x| *x == 0)
}

// Whether a unit is zero in every field, with table A.
fn is_blank(unit: &Unit) -> bool
    ensures blank { result ≡ true → unit.now ≡ blank }
    ensures refused { result ≡ false → unit.now ≡ blank → ⊥ }
{
    has_zero_fields(unit) && are_zero(&unit.lines)
}

// Whether all fields are 0, and the table of the quadruples is A.
fn has_zero_fields(unit: &Unit) -> bool
    ensures fields { result ≡ true → HasZeroFields unit.now }
    ensures refused { result ≡ false → HasZeroFields unit.now → ⊥ }
{
    unit.length == 0
        && unit.big == 0
        && unit.quads == 0
        && unit.gain == 0
        && unit.region0 == 0
        && unit.region1 == 0
        && unit.tables[0] == 0
        && unit.tables[1] == 0
        && unit.tables[2] == 0
        && unit.quad == QuadTable::A
}
