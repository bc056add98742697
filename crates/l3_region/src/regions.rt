ghost use Rattle.std.specs.Prelude.{◌≡◌, ℤ, List, ◌≤◌, ◌<◌, ◌+◌, ◌*◌, ℕ, All, length, replicate, slice_index, unsigned_abs};
ghost use Rattle.l3_base.specs.Bands.{band_edges};
ghost use Rattle.l3_region.specs.Split.{split_of};
ghost use Rattle.l3_region.specs.Pairs.{ArePairsOf};
ghost use Rattle.l3_region.specs.Regions.{regions_of};
ghost use Rattle.l3_region.specs.Laws.{HoldsAll, region};

use crate::choice::{best_pair, range_table};
use crate::cut::{cut_of, peaks_of};
use crate::lanes::{band_classes, no_classes};
use crate::pairs::pairs_of;
use crate::quads::best_quads;
use crate::split::Split;
use crate::sums::{Sums, sum_bands};
use l3_base::SampleRate;
use l3_huff::QuadTable;

/// The regions and tables of a unit, and the bits of all its codes.
#[derive(Clone, Copy, Debug, PartialEq, Eq)]
pub struct Regions {
    /// `region0_count`: the bands of region 0 less one, 0 to 15.
    pub region0: u8,
    /// `region1_count`: the bands of region 1 less one, 0 to 7.
    pub region1: u8,
    /// `table_select`: the tables of the three regions.
    pub tables: [u8; 3],
    /// `count1table_select`: the table of the quadruples.
    pub quad: QuadTable,
    /// The bits of all pairs and quadruples, linbits and signs included.
    pub bits: u32,
}

// Room for the sums up to each band.
#[inline(always)]
fn no_sums() -> Sums
    ensures { result ≡ replicate 16 (replicate 32 0) }
{
    [[0; 32]; 16]
}

/// The regions and tables that take the fewest bits, of values that are known by their packed
/// pairs, 16 times the first and the second, each cut at 15, by the class of each whole band, and
/// by their split.
///
/// It is what `best` gives for the values themselves. Errors: none.
pub fn best_of_pairs(
    pairs: &[u8; 288],
    classes: &[u8; 32],
    split: Split,
    rate: SampleRate,
) -> Regions
    requires known { (q : List ℤ) × ArePairsOf (band_edges rate) q pairs.now classes.now × (split ≡ split_of q) }
    ensures value { (q : List ℤ) → ArePairsOf (band_edges rate) q pairs.now classes.now → result ≡ regions_of (band_edges rate) q }
    ensures limit { result.bits ≤ 9216 }
    ensures first { result.region0 ≤ 15 }
    ensures second { result.region1 ≤ 7 }
    ensures within { result.region0 + result.region1 + 2 ≤ 22 }
    ensures three { length result.tables ≡ 3 }
    ensures held { (q : List ℤ) → ArePairsOf (band_edges rate) q pairs.now classes.now → (r : ℕ) → r < 3 → HoldsAll (slice_index result.tables r) (region (band_edges rate) q result.region0 result.region1 r) }
{
    let big = usize::from(split.big);
    let mut sums = no_sums();
    let mut parts = no_classes();
    sum_bands(pairs, classes, 2 * big, rate.index(), &mut sums, &mut parts);
    let pair = best_pair(&sums, &parts);
    let region0 = pair.place / 8;
    let region1 = pair.place % 8;
    let second = usize::from(region0) + 1;
    let third = second + usize::from(region1) + 1;
    let tables = [
        range_table(&sums, &parts, 0, second),
        range_table(&sums, &parts, second, third),
        range_table(&sums, &parts, third, 22),
    ];
    let quads = best_quads(pairs, big, usize::from(split.quads));
    Regions {
        region0,
        region1,
        tables,
        quad: quads.table,
        bits: pair.bits + quads.bits,
    }
}

/// The regions and tables that take the fewest bits, for values of at most 8191 in absolute value.
///
/// Of equal choices it is the one of least `region0_count`, then `region1_count`, with tables of
/// least number, and table A for quadruples.
/// Bands are those of long blocks at the sampling frequency. Errors: none.
pub fn best(q: &[i16; 576], split: Split, rate: SampleRate) -> Regions
    requires small { All (λ x. unsigned_abs x ≤ 8191) q.now }
    requires split { split ≡ split_of q.now }
    ensures value { result ≡ regions_of (band_edges rate) q.now }
    ensures limit { result.bits ≤ 9216 }
    ensures first { result.region0 ≤ 15 }
    ensures second { result.region1 ≤ 7 }
    ensures within { result.region0 + result.region1 + 2 ≤ 22 }
    ensures three { length result.tables ≡ 3 }
    ensures held { (r : ℕ) → r < 3 → HoldsAll (slice_index result.tables r) (region (band_edges rate) q.now result.region0 result.region1 r) }
{
    let pairs = pairs_of(&cut_of(q));
    let peaks = peaks_of(q, rate.index());
    best_of_pairs(&pairs, &band_classes(&peaks), split, rate)
}
