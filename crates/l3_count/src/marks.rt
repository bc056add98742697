ghost use Rattle.std.specs.Prelude.{◌≡◌, ◌<◌, ◌≤◌, ◌-ℤ◌, ℕ, List, pos, slice_index, slice_index_or};
ghost use Rattle.l3_base.specs.Rates.{hertz_index_of};
ghost use Rattle.l3_count.specs.Rows.{line_at};
ghost use Rattle.l3_count.specs.Marks.{AreKeys, AreMarks, line_steps};

use crate::keys::{keys_at, least_key};
use l3_base::{Amp, SampleRate, edge};

// What the stored planes that reach a key are above.
#[inline(always)]
pub(crate) fn mark(key: u8) -> i8
    requires { 0 < key }
    ensures { result ≡ pos key -ℤ pos 129 }
{
    (i16::from(key) - 129) as i8
}

// The cell of a line: each block of 32 has its even lines first.
#[inline(always)]
fn cell_of(line: usize) -> usize
    requires { line < 576 }
    ensures value { line_at result ≡ line }
    ensures within { result < 576 }
{
    32 * (line / 32) + 16 * (line % 2) + line % 32 / 2
}

// Writes one mark to the cells of the lines from one to before another.
fn mark_lines(from: usize, to: usize, mark: i8, marks: &mut [i8; 576])
    requires { to ≤ 576 }
    ensures here { (cell : ℕ) → cell < 576 → from ≤ line_at cell → line_at cell < to → slice_index_or marks.new cell (pos 0) ≡ mark }
    ensures before { (cell : ℕ) → cell < 576 → line_at cell < from → slice_index_or marks.new cell (pos 0) ≡ slice_index_or marks.old cell (pos 0) }
{
    for line in from..to {
        marks[cell_of(line)] = mark;
    }
}

// Writes the marks of all cells, each from the key of its line's band, and gives one that is no
// greater than any of them.
fn write_marks(keys: &[u8; 32], rate: SampleRate, marks: &mut [i8; 576]) -> i8
    requires { (b : ℕ) → b < 22 → 0 < slice_index keys.now b }
    ensures { (amp : List ℕ) (gain : ℕ) → AreKeys amp gain keys.now → AreMarks (line_steps (hertz_index_of rate) amp gain) marks.new result }
{
    let frequency = rate.index();
    for band in 0..22 {
        let from = usize::from(edge(frequency, band));
        let to = usize::from(edge(frequency, band + 1));
        mark_lines(from, to, mark(keys[band]), marks);
    }
    mark(least_key(keys))
}

// Writes the marks of all cells at a gain, and gives one that is no greater than any of them.
#[inline(always)]
pub(crate) fn marks_at(rate: SampleRate, amp: &Amp, gain: u8, marks: &mut [i8; 576]) -> i8
    ensures { AreMarks (line_steps (hertz_index_of rate) amp.now gain) marks.new result }
{
    write_marks(&keys_at(amp, gain), rate, marks)
}
