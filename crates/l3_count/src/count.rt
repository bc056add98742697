ghost use Rattle.std.specs.Prelude.{◌≡◌, ◌≤◌, ◌<◌, ◌+◌, ◌*◌, ℕ, ℤ, List, length, slice_index};
ghost use Rattle.l3_region.specs.Bands.{band_edges};
ghost use Rattle.l3_region.specs.Pairs.{ArePairsOf};
ghost use Rattle.l3_region.specs.Split.{split_of};
ghost use Rattle.l3_huff.specs.Tables.{IsTable};

use l3_base::{Amp, SampleRate};
use l3_region::{QuadTable, Regions, Split, best_of_pairs};
use std::marker::Model;

// All that a count says but its amplification, in 12 bytes. There are at most 144 quadruples.
#[derive(Clone, Copy, Debug)]
pub(crate) struct Cost {
    pub(crate) bits: u16,
    pub(crate) big: u16,
    pub(crate) quads: u8,
    pub(crate) gain: u8,
    pub(crate) region0: u8,
    pub(crate) region1: u8,
    pub(crate) tables: [u8; 3],
    pub(crate) quad: QuadTable,
}

/// What a unit costs at a gain under an amplification, with the split, regions and tables that its
/// bits are for. It has at most 40 bytes.
#[derive(Clone, Copy, Debug)]
pub struct Count {
    amp: Amp,
    cost: Cost,
}

impl Model for Count {
    ghost use Rattle.l3_count.specs.Count.{Counted, IsCounted};
    ghost use Rattle.l3_count.specs.Cost.{cost_in, counted_with};

    ghost Value = { Counted };

    ghost view = { λ c. counted_with c.amp c.cost };

    ghost invariant = { λ c. IsCounted (counted_with c.amp c.cost) };

    ghost inverse = { λ c. record { amp = c.amp; cost = cost_in c } };
}

impl Count {
    ghost use Rattle.l3_count.specs.Count.{IsCounted, counted, regions_in, split_in};
    ghost use Rattle.l3_count.specs.Cost.{cost_in, counted_with};

    /// The amplification of the bands.
    pub fn amp(&self) -> Amp
        ensures value { result ≡ self.now.amp }
        ensures counted { IsCounted self.now }
    {
        self.amp
    }

    /// The `global_gain`, 0 to 255.
    pub fn gain(&self) -> u8
        ensures value { result ≡ self.now.gain }
        ensures counted { IsCounted self.now }
    {
        self.cost.gain
    }

    /// The bits of all codes of the unit, at most 9216.
    pub fn bits(&self) -> u32
        ensures value { result ≡ self.now.bits }
        ensures counted { IsCounted self.now }
    {
        u32::from(self.cost.bits)
    }

    /// How many pairs and quadruples there are, of together at most 576 values.
    pub fn split(&self) -> Split
        ensures value { result ≡ split_in self.now }
        ensures counted { IsCounted self.now }
    {
        Split {
            big: self.cost.big,
            quads: u16::from(self.cost.quads),
        }
    }

    /// The regions and tables, and the bits again.
    pub fn regions(&self) -> Regions
        ensures value { result ≡ regions_in self.now }
        ensures counted { IsCounted self.now }
    {
        Regions {
            region0: self.cost.region0,
            region1: self.cost.region1,
            tables: self.cost.tables,
            quad: self.cost.quad,
            bits: u32::from(self.cost.bits),
        }
    }

    // All but the amplification.
    #[inline(always)]
    pub(crate) fn cost(&self) -> Cost
        ensures value { result ≡ cost_in self.now }
        ensures counted { IsCounted self.now }
    {
        self.cost
    }

    // The count of a cost under an amplification.
    #[inline(always)]
    pub(crate) fn of_cost(amp: Amp, cost: Cost) -> Count
        requires { IsCounted (counted_with amp cost) }
        ensures { result ≡ counted_with amp cost }
    {
        Count { amp, cost }
    }

    // The count under an amplification and at a gain of quantised values that are known by their
    // pairs, the classes of their bands and their split.
    #[inline(always)]
    pub(crate) fn of_pairs(
        pairs: &[u8; 288],
        classes: &[u8; 32],
        split: Split,
        rate: SampleRate,
        amp: &Amp,
        gain: u8,
    ) -> Count
        requires known { (q : List ℤ) × ArePairsOf (band_edges rate) q pairs.now classes.now × (split ≡ split_of q) }
        requires places { 2 * split.big + 4 * split.quads ≤ 576 }
        ensures { (q : List ℤ) → ArePairsOf (band_edges rate) q pairs.now classes.now → split ≡ split_of q → result ≡ counted (band_edges rate) amp.now gain q }
    {
        // For the proof: an amplification is 21 numbers of 0 to 3.
        let _first = amp.get(0);
        let regions = best_of_pairs(pairs, classes, split, rate);
        let tables = regions.tables;
        Count {
            amp: *amp,
            cost: Cost {
                bits: regions.bits as u16,
                big: split.big,
                quads: split.quads as u8,
                gain,
                region0: regions.region0,
                region1: regions.region1,
                tables,
                quad: regions.quad,
            },
        }
    }
}
