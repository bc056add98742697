//! The quantised values of a unit: pairs, each with its region's table, and quadruples until no bit
//! is left.

ghost use Rattle.std.specs.Prelude.{◌≡◌, ◌≤◌, ◌<◌, ◌+◌, ◌-◌, ◌*◌, ◌/◌, ◌^◌, IfOk, drop, length, slice_index, take};
ghost use Rattle.l3_huff.specs.Words.{between};
ghost use Rattle.l3_stream.specs.Units.{table_by, zero_lines};
ghost use Rattle.l3_stream.specs.UnitReading.{pairs_at, quads_at};
ghost use Rattle.l3_frames.specs.Steps.{gives};

use crate::StreamFault;
use l3_huff::{QuadTable, read_pair, read_quad};
use l3_stream::Regions;

// Reads pairs into lines, from bit `at` on, and gives the bit behind them. Bit 0 of the bytes is
// bit `first` of the tape.
pub(crate) fn read_pairs(
    regions: &Regions,
    first: u64,
    bytes: &[u8],
    at: u64,
    end: u64,
    lines: &mut [i16],
) -> Result<u64, StreamFault>
    requires first { first + 8 * length bytes.now < 2 ^ 64 }
    requires order { at ≤ end }
    requires within { end ≤ 8 * length bytes.now }
    requires room { length lines.old ≤ 576 }
    requires even { length lines.old ≡ 2 * (length lines.old / 2) }
    ensures value { pairs_at (table_by regions.now) (first + end) 0 (length lines.old / 2)
        (between bytes.now at end) ≡ gives (λ next. (lines.new, between bytes.now next end)) result }
    ensures within { IfOk result (λ next. next ≤ end) }
    ensures size { length lines.new ≡ length lines.old }
{
    let mut place = at;
    for k in 0..lines.len() / 2 {
        match read_pair(regions.table(2 * k), bytes, place, end) {
            None => return Err(StreamFault::BadCode(first + place)),
            Some((x, y, next)) => {
                lines[2 * k] = x;
                lines[2 * k + 1] = y;
                place = next;
            }
        }
    }
    Ok(place)
}

// Reads quadruples into lines of value 0 until no bit is left, and says how many.
pub(crate) fn read_quads(
    table: QuadTable,
    first: u64,
    bytes: &[u8],
    at: u64,
    end: u64,
    lines: &mut [i16],
) -> Result<usize, StreamFault>
    requires first { first + 8 * length bytes.now < 2 ^ 64 }
    requires order { at ≤ end }
    requires within { end ≤ 8 * length bytes.now }
    requires room { length lines.old ≤ 576 }
    requires zeros { lines.old ≡ zero_lines (length lines.old) }
    ensures value { quads_at table (first + end) (length lines.old / 4) (between bytes.now at end)
        ≡ gives (λ count. take (4 * count) lines.new) result }
    ensures count { IfOk result (λ count. 4 * count ≤ length lines.old) }
    ensures past { IfOk result (λ count. drop (4 * count) lines.new ≡ zero_lines
        (length lines.old - 4 * count)) }
    ensures size { length lines.new ≡ length lines.old }
{
    let mut place = at;
    let mut count = 0;
    while place < end {
        if lines.len() - 4 * count < 4 {
            return Err(StreamFault::WrongLength(first + place));
        }
        match read_quad(table, bytes, place, end) {
            None => return Err(StreamFault::BadCode(first + place)),
            Some(found) => {
                let quad = found.0;
                lines[4 * count..4 * count + 4].copy_from_slice(&quad);
                count += 1;
                place = found.1;
            }
        }
    }
    Ok(count)
}
