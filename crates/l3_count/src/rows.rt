ghost use Rattle.std.specs.Prelude.{◌≡◌, ℕ, List, ℤ, ◌+◌, ◌*◌, ◌/◌, ◌%◌, ◌<◌, ◌≤◌, ◌≤ℤ◌, ◌-ℤ◌, All, length, pos, slice_index, slice_index_or};
ghost use Rattle.l3_base.specs.Spectrum.{IsLine};
ghost use Rattle.l3_count.specs.Planes.{IsRanked};
ghost use Rattle.l3_count.specs.Rows.{line_at, AreRanked, IsStored, AreRows, AreTops};

use crate::line::{plane, ranked_line};

// The line of a cell: each block of 32 has its even lines first.
#[inline(always)]
fn line_of(cell: usize) -> usize
    requires { cell < 576 }
    ensures value { result ≡ line_at cell }
    ensures within { result < 576 }
{
    32 * (cell / 32) + 2 * (cell % 16) + cell % 32 / 16
}

// Writes the octaves and ranks of all lines, in the order of cells.
pub(crate) fn rank_lines(lines: &[i32; 576], octaves: &mut [u8; 576], ranks: &mut [u8; 576])
    requires { All IsLine lines.now }
    ensures { AreRanked lines.now octaves.new ranks.new }
{
    for i in 0..576 {
        let ranked = ranked_line(lines[line_of(i)].unsigned_abs());
        octaves[i] = ranked.octave;
        ranks[i] = ranked.rank;
    }
}

// A plane as it is stored, so that signed numbers are compared.
#[inline(always)]
fn signed(plane: u8) -> i8
    ensures { result ≡ pos plane -ℤ pos 128 }
{
    (i16::from(plane) - 128) as i8
}

// The stored plane of the value `k + 1`.
#[inline(always)]
fn stored(octave: u8, rank: u8, k: usize) -> i8
    requires value { k < 15 }
    requires small { octave ≤ 242 }
    ensures { (x : ℕ) → IsRanked x octave rank → IsStored (k + 1) x result }
{
    signed(plane(octave, rank, k))
}

// Writes the planes of one value for a block of 32 cells.
#[inline(always)]
fn write_row(octaves: &[u8; 576], ranks: &[u8; 576], row: usize, out: &mut [i8; 8640])
    requires small { (i : ℕ) → i < 576 → slice_index octaves.now i ≤ 242 }
    requires row { row < 270 }
    requires long { length out.old ≡ 8640 }
    ensures long { length out.new ≡ 8640 }
    ensures value { (j : ℕ) → j < 32 → (x : ℕ) → IsRanked x (slice_index octaves.now (32 * (row / 15) + j)) (slice_index ranks.now (32 * (row / 15) + j)) → IsStored (row % 15 + 1) x (slice_index_or out.new (32 * row + j) (pos 0)) }
    ensures before { (i : ℕ) → i < 32 * row → slice_index_or out.new i (pos 0) ≡ slice_index_or out.old i (pos 0) }
{
    for j in 0..32 {
        let cell = 32 * (row / 15) + j;
        out[32 * row + j] = stored(octaves[cell], ranks[cell], row % 15);
    }
}

// Writes the planes of all values and blocks.
pub(crate) fn write_rows(octaves: &[u8; 576], ranks: &[u8; 576], out: &mut [i8; 8640])
    requires { (i : ℕ) → i < 576 → slice_index octaves.now i ≤ 242 }
    ensures { (lines : List ℤ) → AreRanked lines octaves.now ranks.now → AreRows lines out.new }
{
    for row in 0..270 {
        write_row(octaves, ranks, row, out);
    }
}

// The greatest plane of a row.
#[inline(always)]
fn top(rows: &[i8; 8640], row: usize) -> i8
    requires { row < 270 }
    ensures { (j : ℕ) → j < 32 → slice_index_or rows.now (32 * row + j) (pos 0) ≤ℤ result }
{
    let mut top = -128i8;
    for j in 0..32 {
        top = top.max(rows[32 * row + j]);
    }
    top
}

// Writes the greatest plane of each row.
pub(crate) fn write_tops(rows: &[i8; 8640], out: &mut [i8; 270])
    ensures { AreTops rows.now out.new }
{
    for row in 0..270 {
        out[row] = top(rows, row);
    }
}
