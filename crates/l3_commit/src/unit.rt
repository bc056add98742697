//! The unit of a count: its fields, and the quantised values that it counts.

ghost use Rattle.std.specs.Prelude.{◌≡◌, pos};
ghost use Rattle.l3_quant.specs.Quantiser.{quantised_lines};
ghost use Rattle.l3_commit.specs.Units.{ChosenUnitsAreCoded, IsCountIn, unit_of};

use l3_base::Spectrum;
use l3_quant::all;
use l3_search::Count;
use l3_stream::Unit;

// Writes the unit of a count of this spectrum: the fields that the count says, and the quantised
// values of the lines at its gain.
pub(crate) fn write_unit(spec: &Spectrum, count: &Count, unit: &mut Unit)
    requires own { IsCountIn spec.now count.now }
    ensures { unit.new ≡ unit_of count.now (quantised_lines (pos count.now.gain) spec.now) }
{
    let split = count.split();
    let regions = count.regions();
    let tables = regions.tables;
    let gain = count.gain();
    if !all(spec, i16::from(gain), &mut unit.lines) {
        unreachable!();
    }
    unit.length = count.bits() as u16;
    unit.big = split.big;
    unit.quads = split.quads;
    unit.gain = gain;
    unit.region0 = regions.region0;
    unit.region1 = regions.region1;
    unit.tables = tables;
    unit.quad = regions.quad;
}

/// A unit that is picked within a budget of at most 4095 bits is coded, is within the budget, and
/// holds the quantised values at its gain.
pub fn chosen_units_are_coded()
    ensures { ChosenUnitsAreCoded }
{}
