//! The units of a frame, one after the other in the main data.

ghost use Rattle.std.specs.Prelude.{◌≡◌, ◌<◌, ◌≤◌, ◌+◌, ◌*◌, ◌^◌, OnOk, IfOk, drop, length, slice_index};
ghost use Rattle.std.specs.List.{AllByRecursion};
ghost use Rattle.l3_bits.specs.Bits.{bits_of};
ghost use Rattle.l3_huff.specs.Words.{between};
ghost use Rattle.l3_base.specs.declared.rate.Channels.{Channels};
ghost use Rattle.l3_stream.specs.Units.{HasFields, lengths};
ghost use Rattle.l3_stream.specs.Frames.{placed, units_number, units_of};
ghost use Rattle.l3_stream.specs.UnitReading.{unit_at, main_units_at};
ghost use Rattle.l3_stream.specs.FieldReading.{IsBare};
ghost use Rattle.l3_frames.specs.Steps.{gives};

use crate::StreamFault;
use crate::quantised::{read_pairs, read_quads};
use l3_base::{Channels, Settings};
use l3_stream::{ChosenFrame, Regions, Unit};

// Reads the lines of a unit that has its side information, from bit `at` on, and gives the bit
// behind it.
fn read_unit(
    settings: &Settings,
    first: u64,
    bytes: &[u8],
    at: u64,
    unit: &mut Unit,
) -> Result<u64, StreamFault>
    requires first { first + 8 * length bytes.now < 2 ^ 64 }
    requires fields { HasFields unit.old }
    requires bare { IsBare unit.old }
    requires within { at + unit.old.length ≤ 8 * length bytes.now }
    ensures value { unit_at settings.now (first + (at + unit.old.length)) unit.old
        (between bytes.now at (at + unit.old.length)) ≡ gives (λ _. unit.new) result }
    ensures next { IfOk result (λ next. next ≡ at + unit.old.length) }
{
    let end = at + u64::from(unit.length);
    let regions = Regions::of(settings, unit);
    let table = unit.quad;
    let lines = 2 * usize::from(unit.big);
    let next = read_pairs(&regions, first, bytes, at, end, &mut unit.lines[..lines])?;
    let count = read_quads(table, first, bytes, next, end, &mut unit.lines[lines..])?;
    unit.quads = count as u16;
    Ok(end)
}

// Reads the units of both channels of a granule, and gives the bit behind them.
fn read_granule(
    settings: &Settings,
    first: u64,
    bytes: &[u8],
    at: u64,
    units: &mut [Unit; 2],
) -> Result<u64, StreamFault>
    requires first { first + 8 * length bytes.now < 2 ^ 64 }
    requires fields { AllByRecursion HasFields units.old }
    requires bare { AllByRecursion IsBare units.old }
    requires within { at + lengths units.old ≤ 8 * length bytes.now }
    ensures value { main_units_at settings.now (first + at) units.old (drop at (bits_of bytes.now))
        ≡ gives (λ _. units.new) result }
    ensures next { IfOk result (λ next. next ≡ at + lengths units.old) }
    ensures two { length units.new ≡ 2 }
{
    let next = read_unit(settings, first, bytes, at, &mut units[0])?;
    let end = read_unit(settings, first, bytes, next, &mut units[1])?;
    Ok(end)
}

// Reads the two units of a frame in mono.
fn read_mono(
    settings: &Settings,
    first: u64,
    bytes: &[u8],
    at: u64,
    units: &mut [[Unit; 2]; 2],
) -> Result<u64, StreamFault>
    requires first { first + 8 * length bytes.now < 2 ^ 64 }
    requires shape { units.old ≡ placed Channels.Mono (units_of Channels.Mono units.old) }
    requires number { length (units_of Channels.Mono units.old) ≡ units_number Channels.Mono }
    requires fields { AllByRecursion HasFields (units_of Channels.Mono units.old) }
    requires bare { AllByRecursion IsBare (units_of Channels.Mono units.old) }
    requires within { at + lengths (units_of Channels.Mono units.old) ≤ 8 * length bytes.now }
    ensures value { main_units_at settings.now (first + at) (units_of Channels.Mono units.old)
        (drop at (bits_of bytes.now)) ≡ gives (λ _. units_of Channels.Mono units.new) result }
    ensures shape { OnOk result (units.new ≡ placed Channels.Mono
        (units_of Channels.Mono units.new)) }
    ensures next { IfOk result (λ next. next ≡ at + lengths (units_of Channels.Mono units.old)) }
{
    let next = read_unit(settings, first, bytes, at, &mut units[0][0])?;
    let end = read_unit(settings, first, bytes, next, &mut units[1][0])?;
    Ok(end)
}

// Reads the four units of a frame in stereo.
fn read_stereo(
    settings: &Settings,
    first: u64,
    bytes: &[u8],
    at: u64,
    units: &mut [[Unit; 2]; 2],
) -> Result<u64, StreamFault>
    requires first { first + 8 * length bytes.now < 2 ^ 64 }
    requires shape { units.old ≡ placed Channels.Stereo (units_of Channels.Stereo units.old) }
    requires number { length (units_of Channels.Stereo units.old) ≡ units_number Channels.Stereo }
    requires fields { AllByRecursion HasFields (units_of Channels.Stereo units.old) }
    requires bare { AllByRecursion IsBare (units_of Channels.Stereo units.old) }
    requires within { at + lengths (units_of Channels.Stereo units.old) ≤ 8 * length bytes.now }
    ensures value { main_units_at settings.now (first + at) (units_of Channels.Stereo units.old)
        (drop at (bits_of bytes.now)) ≡ gives (λ _. units_of Channels.Stereo units.new) result }
    ensures shape { OnOk result (units.new ≡ placed Channels.Stereo
        (units_of Channels.Stereo units.new)) }
    ensures next { IfOk result (λ next. next ≡ at + lengths (units_of Channels.Stereo units.old)) }
{
    let next = read_granule(settings, first, bytes, at, &mut units[0])?;
    let end = read_granule(settings, first, bytes, next, &mut units[1])?;
    Ok(end)
}

// Reads the units of a frame that has its side information, from bit `at` on, and gives the bit
// behind them.
pub(crate) fn read_units(
    settings: &Settings,
    first: u64,
    bytes: &[u8],
    at: u64,
    frame: &mut ChosenFrame,
) -> Result<u64, StreamFault>
    requires first { first + 8 * length bytes.now < 2 ^ 64 }
    requires shape { frame.old.units ≡ placed settings.now.channels
        (units_of settings.now.channels frame.old.units) }
    requires number { length (units_of settings.now.channels frame.old.units)
        ≡ units_number settings.now.channels }
    requires fields { AllByRecursion HasFields (units_of settings.now.channels frame.old.units) }
    requires bare { AllByRecursion IsBare (units_of settings.now.channels frame.old.units) }
    requires within { at + lengths (units_of settings.now.channels frame.old.units) ≤ 8 * length
        bytes.now }
    ensures value { main_units_at settings.now (first + at)
        (units_of settings.now.channels frame.old.units) (drop at (bits_of bytes.now)) ≡ gives
        (λ _. units_of settings.now.channels frame.new.units) result }
    ensures shape { OnOk result (frame.new.units ≡ placed settings.now.channels
        (units_of settings.now.channels frame.new.units)) }
    ensures next { IfOk result (λ next. next ≡ at + lengths
        (units_of settings.now.channels frame.old.units)) }
    ensures begin { frame.new.begin ≡ frame.old.begin }
{
    match settings.channels {
        Channels::Mono => read_mono(settings, first, bytes, at, &mut frame.units),
        Channels::Stereo => read_stereo(settings, first, bytes, at, &mut frame.units),
    }
}
