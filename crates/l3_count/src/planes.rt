ghost use Rattle.std.specs.Prelude.{true, ◌≡◌, ◌↔◌, ℕ, List, ℤ, ◌+◌, ◌*◌, ◌<◌, ◌≤◌, ◌^◌, All, pos, slice_index, slice_range};
ghost use Rattle.l3_base.specs.Amp.{no_amp};
ghost use Rattle.l3_base.specs.declared.rate.SampleRate.{SampleRate};
ghost use Rattle.l3_base.specs.Bands.{band_edges};
ghost use Rattle.l3_quant.specs.Quantiser.{IsCodable};
ghost use Rattle.l3_quant.specs.Amplified.{quantised_bands};
ghost use Rattle.l3_quant.specs.Magnitudes.{AreLinePeaks};
ghost use Rattle.l3_region.specs.Lanes.{IsClass};
ghost use Rattle.l3_region.specs.Split.{split_of};
ghost use Rattle.l3_count.specs.Marks.{ArePacked};
ghost use Rattle.l3_count.specs.Units.{ArePlanesOf};

use crate::bands::{band_classes, is_coded, write_classes};
use crate::keys::{equal_key, is_plain, keys_at};
use crate::marks::{mark, marks_at};
use crate::plane_count::{count_pairs, count_pairs_above};
use crate::rows::{rank_lines, write_rows, write_tops};
use crate::split::{split, write_ends};
use l3_base::{Amp, SampleRate, Spectrum};
use l3_region::Split;

/// The planes of a spectrum, at most 16 KB.
#[derive(Drop)]
pub struct Planes {
    // For each block of 32 cells and each value of 1 to 15 the planes, 128 less.
    rows: [i8; 8640],
    // The greatest of each row.
    tops: [i8; 270],
    // For each pair the greatest plane of the value 1 from there on.
    nonzero: [u8; 288],
    // The same of the value 2.
    above_one: [u8; 288],
    // The planes of the bands' classes.
    classes: [u8; 448],
}

/// Room for planes; nothing is promised of them before `set`.
pub fn no_planes() -> Planes {
    Planes {
        rows: [0; 8640],
        tops: [0; 270],
        nonzero: [0; 288],
        above_one: [0; 288],
        classes: [0; 448],
    }
}

/// Makes the planes of a spectrum, whose greatest line of each band `line_peaks` gives. They serve
/// all gains and amplifications.
pub fn set(planes: &mut Planes, spec: &Spectrum, peaks: &[u32; 22])
    requires { All (λ p. p < 2 ^ 29) peaks.now }
    ensures { (rate : SampleRate) → AreLinePeaks (band_edges rate) spec.now peaks.now → ArePlanesOf (band_edges rate) spec.now planes.new }
{
    let mut octaves = [0u8; 576];
    let mut ranks = [0u8; 576];
    rank_lines(spec.lines(), &mut octaves, &mut ranks);
    write_rows(&octaves, &ranks, &mut planes.rows);
    write_tops(&planes.rows, &mut planes.tops);
    write_ends(&planes.rows, 0, &mut planes.nonzero);
    write_ends(&planes.rows, 1, &mut planes.above_one);
    write_classes(peaks, &mut planes.classes);
}

// Room for marks.
#[inline(always)]
fn no_marks() -> [i8; 576] {
    [0; 576]
}

/// Writes the pairs of quantised values, each cut at 15: 16 times the first and the second.
///
/// Each line is quantised at the gain of its band: `gain`, less 2 for each of the amplification.
pub fn pairs_at(planes: &Planes, rate: SampleRate, amp: &Amp, gain: u8, out: &mut [u8; 288])
    ensures { (lines : List ℤ) → ArePlanesOf (band_edges rate) lines planes.now → ArePacked (quantised_bands (band_edges rate) amp.now (pos gain) lines) out.new }
{
    if is_plain(amp) {
        count_pairs_above(&planes.rows, &planes.tops, mark(equal_key(gain)), out);
    } else {
        let mut marks = no_marks();
        let least = marks_at(rate, amp, gain, &mut marks);
        count_pairs(&planes.rows, &planes.tops, &marks, least, out);
    }
}

/// The split of the quantised values at a gain, where no band is amplified.
pub fn split_at(planes: &Planes, gain: u8) -> Split
    ensures places { 2 * result.big + 4 * result.quads ≤ 576 }
    ensures value { (rate : SampleRate) (lines : List ℤ) → ArePlanesOf (band_edges rate) lines planes.now → result ≡ split_of (quantised_bands (band_edges rate) no_amp (pos gain) lines) }
{
    split(&planes.nonzero, &planes.above_one, equal_key(gain))
}

/// The class of each band's quantised values, which can be coded.
pub fn classes_at(planes: &Planes, amp: &Amp, gain: u8) -> [u8; 32]
    ensures value { (rate : SampleRate) (lines : List ℤ) → ArePlanesOf (band_edges rate) lines planes.now → IsCodable (quantised_bands (band_edges rate) amp.now (pos gain) lines) → (b : ℕ) → b < 22 →
        IsClass (slice_range (quantised_bands (band_edges rate) amp.now (pos gain) lines) (slice_index (band_edges rate) b) (slice_index (band_edges rate) (b + 1))) (slice_index result b) }
    ensures small { (b : ℕ) → b < 32 → slice_index result b < 14 }
{
    band_classes(&planes.classes, &keys_at(amp, gain))
}

/// Whether all quantised values can be coded.
pub fn is_codable_at(planes: &Planes, amp: &Amp, gain: u8) -> bool
    ensures { (rate : SampleRate) (lines : List ℤ) → ArePlanesOf (band_edges rate) lines planes.now → (result ≡ true) ↔ IsCodable (quantised_bands (band_edges rate) amp.now (pos gain) lines) }
{
    is_coded(&planes.classes, &keys_at(amp, gain))
}
