//! The main data of a frame: the codes of its units, laid over the bits of the tape
//! (ISO/IEC 11172-3, 2.4).

ghost use Rattle.std.specs.Prelude.{◌≡◌, ◌+◌, ◌*◌, ◌<◌, ◌≤◌, ◌^◌, ◌++◌, length, All};
ghost use Rattle.l3_bits.specs.Bits.{bits_of, digits};
ghost use Rattle.l3_huff.specs.Codes.{IsQuad, pair_code_of, quad_code_of};
ghost use Rattle.l3_huff.specs.Laws.{HoldsPair};
ghost use Rattle.l3_stream.specs.Units.{HasFields, IsCodedUnit, PairsHold, QuadsHold, line_at, pairs_code, quads_code, table_at, unit_bits};
ghost use Rattle.l3_stream.specs.Frames.{IsCoded, code_bits};
ghost use Rattle.l3_stream.specs.Coded.{IsCodedGranule};
ghost use Rattle.l3_frames.specs.Laying.{granule_bits, laid_over};

use l3_base::{Channels, Settings};
use l3_bits::put_bits;
use l3_huff::{Code, QuadTable, pair_code, quad_code};
use l3_stream::{ChosenFrame, Regions, Unit, four_from, two_from};

// Lays the codes of a coded frame over the bits from bit `at` on, granule by granule.
pub(crate) fn write_codes(settings: &Settings, frame: &ChosenFrame, out: &mut [u8], at: u64)
    requires coded { IsCoded settings.now frame.now }
    requires within { at + length (code_bits settings.now frame.now) ≤ 8 * length out.old }
    requires room { length out.old ≤ 2 ^ 16 }
    ensures bits { bits_of out.new ≡ laid_over at (code_bits settings.now frame.now) (bits_of out.old) }
    ensures bytes { All (λ byte. byte < 2 ^ 8) out.new }
{
    let middle = write_granule(settings, &frame.units[0], out, at);
    write_granule(settings, &frame.units[1], out, middle);
}

// Lays the codes of a granule's units, and answers with the place behind them.
fn write_granule(settings: &Settings, units: &[Unit; 2], out: &mut [u8], at: u64) -> u64
    requires coded { IsCodedGranule settings.now settings.now.channels units.now }
    requires within { at + length (granule_bits settings.now settings.now.channels units.now) ≤ 8 * length out.old }
    requires room { length out.old ≤ 2 ^ 16 }
    ensures bits { bits_of out.new ≡ laid_over at (granule_bits settings.now settings.now.channels units.now) (bits_of out.old) }
    ensures place { result ≡ at + length (granule_bits settings.now settings.now.channels units.now) }
{
    match settings.channels {
        Channels::Mono => write_unit(settings, &units[0], out, at),
        Channels::Stereo => {
            let middle = write_unit(settings, &units[0], out, at);
            write_unit(settings, &units[1], out, middle)
        },
    }
}

// Lays the codes of a unit, and answers with the place behind them.
fn write_unit(settings: &Settings, unit: &Unit, out: &mut [u8], at: u64) -> u64
    requires coded { IsCodedUnit settings.now unit.now }
    requires within { at + length (unit_bits settings.now unit.now) ≤ 8 * length out.old }
    requires room { length out.old ≤ 2 ^ 16 }
    ensures bits { bits_of out.new ≡ laid_over at (unit_bits settings.now unit.now) (bits_of out.old) }
    ensures place { result ≡ at + length (unit_bits settings.now unit.now) }
{
    let middle = write_pairs(settings, unit, unit.pair_lines(), out, at);
    write_quads(unit.quad, unit.quads, unit.quad_lines(), out, middle)
}

// Lays the codes of a unit's pairs, and answers with the place behind them. `lines` are those of
// the pairs.
fn write_pairs(settings: &Settings, unit: &Unit, lines: &[i16], out: &mut [u8], at: u64) -> u64
    requires fields { HasFields unit.now }
    requires held { PairsHold (table_at settings.now unit.now) 0 lines.now }
    requires pairs { length lines.now ≡ 2 * unit.now.big }
    requires within { at + length (pairs_code (table_at settings.now unit.now) 0 lines.now) ≤ 8 * length out.old }
    requires room { length out.old ≤ 2 ^ 16 }
    ensures bits { bits_of out.new ≡ laid_over at (pairs_code (table_at settings.now unit.now) 0 lines.now) (bits_of out.old) }
    ensures place { result ≡ at + length (pairs_code (table_at settings.now unit.now) 0 lines.now) }
{
    let regions = Regions::of(settings, unit);
    let mut place = at;
    for k in 0..usize::from(unit.big) {
        place = write_pair(regions.table(2 * k), two_from(lines, 2 * k), out, place);
    }
    place
}

// Lays the codes of so many quadruples, and answers with the place behind them. `lines` are those
// of the quadruples.
fn write_quads(table: QuadTable, count: u16, lines: &[i16], out: &mut [u8], at: u64) -> u64
    requires held { QuadsHold lines.now }
    requires whole { length lines.now ≡ 4 * count }
    requires within { at + length (quads_code table lines.now) ≤ 8 * length out.old }
    requires room { length out.old ≤ 2 ^ 16 }
    ensures bits { bits_of out.new ≡ laid_over at (quads_code table lines.now) (bits_of out.old) }
    ensures place { result ≡ at + length (quads_code table lines.now) }
{
    let mut place = at;
    for k in 0..usize::from(count) {
        place = write_quad(table, four_from(lines, 4 * k), out, place);
    }
    place
}

// Lays the code of a pair, and answers with the place behind it.
fn write_pair(table: u8, pair: [i16; 2], out: &mut [u8], at: u64) -> u64
    requires held { HoldsPair table (line_at pair 0) (line_at pair 1) }
    requires within { at + length (pair_code_of table (line_at pair 0) (line_at pair 1)) ≤ 8 * length out.old }
    requires room { length out.old ≤ 2 ^ 16 }
    ensures bits { bits_of out.new ≡ laid_over at (pair_code_of table (line_at pair 0) (line_at pair 1)) (bits_of out.old) }
    ensures place { result ≡ at + length (pair_code_of table (line_at pair 0) (line_at pair 1)) }
{
    write_code(pair_code(table, pair[0], pair[1]), out, at)
}

// Lays the code of a quadruple, and answers with the place behind it.
fn write_quad(table: QuadTable, quad: [i16; 4], out: &mut [u8], at: u64) -> u64
    requires small { IsQuad quad }
    requires within { at + length (quad_code_of table quad) ≤ 8 * length out.old }
    requires room { length out.old ≤ 2 ^ 16 }
    ensures bits { bits_of out.new ≡ laid_over at (quad_code_of table quad) (bits_of out.old) }
    ensures place { result ≡ at + length (quad_code_of table quad) }
{
    write_code(quad_code(table, quad), out, at)
}

// Lays one code, and answers with the place behind it.
fn write_code(code: Code, out: &mut [u8], at: u64) -> u64
    requires short { code.length ≤ 64 }
    requires within { at + code.length ≤ 8 * length out.old }
    requires room { length out.old ≤ 2 ^ 16 }
    ensures bits { bits_of out.new ≡ laid_over at (digits code.length code.value) (bits_of out.old) }
    ensures place { result ≡ at + code.length }
{
    put_bits(out, at, code.value, u32::from(code.length));
    at + u64::from(code.length)
}
