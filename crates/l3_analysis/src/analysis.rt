ghost use Rattle.std.specs.Prelude.{◌≡◌, ◌≤◌, ◌<◌, ◌+◌, ◌^◌, All, Some, replicate, pos};
ghost use Rattle.l3_base.specs.Amp.{no_amp};
ghost use Rattle.l3_base.specs.Rates.{hertz_index_of};
ghost use Rattle.l3_transform.specs.Sums.{IsWithin};
ghost use Rattle.l3_transform.specs.Spectrum.{lines_of, spectrum_of};
ghost use Rattle.l3_transform.specs.Demand.{demand_of};
ghost use Rattle.l3_count.specs.Bands.{band_edges};
ghost use Rattle.l3_count.specs.Gains.{first_gain_of};
ghost use Rattle.l3_count.specs.Memo.{IsMemoOf, empty_memo, lane_of};
ghost use Rattle.l3_search.specs.Gain.{HasLaneTo, lacking, picked, picked_gain};
ghost use Rattle.l3_analysis.specs.Presumed.{budget_under, reserve_after};

use l3_base::{Amp, SampleRate, Settings, Slots36, Spectrum, Steps};
use l3_count::Memo;
use l3_search::{Picked, Reserve, pick};
use l3_transform::{Kept, demand, slots36, spectrum};
use std::sync::ledger::Ledger;

// What is made of one channel of a granule.
#[derive(Drop)]
pub(crate) struct Analysis {
    pub(crate) spectrum: Spectrum,
    pub(crate) demand: u32,
    pub(crate) memo: Memo,
}

impl Analysis {
    // Nothing was made yet.
    pub(crate) fn new() -> Analysis
        ensures { result.memo ≡ empty_memo }
    {
        Analysis {
            spectrum: Spectrum::zero(),
            demand: 0,
            memo: Memo::new(),
        }
    }

    // Makes spectrum and demand of a window's samples.
    pub(crate) fn transform(&mut self, samples: &[i16; 1632], rate: SampleRate)
        ensures spectrum { self.new.spectrum ≡ spectrum_of samples.now }
        ensures demand { self.new.demand ≡ demand_of (hertz_index_of rate) (spectrum_of samples.now) }
        ensures memo { self.new.memo ≡ self.old.memo }
    {
        let mut slots = Slots36::zero();
        slots36(samples, &mut slots);
        self.take(&slots, rate);
    }

    // The same, but for the slots that the samples share with the window that is kept.
    pub(crate) fn transform_after(
        &mut self,
        samples: &[i16; 1632],
        kept: &mut Kept,
        rate: SampleRate,
    )
        ensures spectrum { self.new.spectrum ≡ spectrum_of samples.now }
        ensures demand { self.new.demand ≡ demand_of (hertz_index_of rate) (spectrum_of samples.now) }
        ensures memo { self.new.memo ≡ self.old.memo }
        ensures kept { kept.new ≡ samples.now }
    {
        kept.go_on(samples);
        self.take(kept.slots(), rate);
    }

    // Makes spectrum and demand of a window's slots.
    fn take(&mut self, slots: &Slots36, rate: SampleRate)
        requires { All (All (IsWithin 44598016)) slots.now }
        ensures spectrum { self.new.spectrum ≡ lines_of slots.now }
        ensures demand { self.new.demand ≡ demand_of (hertz_index_of rate) (lines_of slots.now) }
        ensures memo { self.new.memo ≡ self.old.memo }
    {
        spectrum(slots, &mut self.spectrum);
        self.demand = demand(&self.spectrum, rate);
    }

    // Picks the gain for a budget, with the counts that the memo has.
    pub(crate) fn choose<L: Ledger + Send>(
        &mut self,
        rate: SampleRate,
        budget: u32,
        steps: &mut Steps<L>,
    ) -> Picked
        requires memo { IsMemoOf (band_edges rate) self.old.spectrum self.old.memo }
        requires plain { (lane_of self.old.memo 0).amp ≡ no_amp }
        ensures count { picked (band_edges rate) no_amp self.old.spectrum budget ≡ Some result.count }
        ensures gain { result.count.gain ≡ picked_gain (band_edges rate) no_amp self.old.spectrum budget }
        ensures within { result.count.bits ≤ budget }
        ensures made { result.made ≡ lacking (lane_of self.old.memo 0).counts (first_gain_of (band_edges rate) no_amp self.old.spectrum) (picked_gain (band_edges rate) no_amp self.old.spectrum budget) }
        ensures limit { result.made ≤ 256 }
        ensures ticks { steps.new ≡ steps.old + result.made }
        ensures memo { HasLaneTo (band_edges rate) no_amp self.old.spectrum 0 (first_gain_of (band_edges rate) no_amp self.old.spectrum) (picked_gain (band_edges rate) no_amp self.old.spectrum budget) self.old.memo self.new.memo }
        ensures kept { IsMemoOf (band_edges rate) self.old.spectrum self.new.memo }
        ensures spectrum { self.new.spectrum ≡ self.old.spectrum }
        ensures demand { self.new.demand ≡ self.old.demand }
    {
        let amp = Amp::zero();
        pick(&self.spectrum, rate, &amp, 0, budget, &mut self.memo, steps)
    }

    // Picks the gain for the budget under a reserve, and spends the bits of its count.
    pub(crate) fn presume<L: Ledger + Send>(
        &mut self,
        settings: &Settings,
        frame: u64,
        reserve: &mut Reserve,
        steps: &mut Steps<L>,
    )
        requires frame { frame ≤ 2 ^ 32 }
        requires reserve { reserve.old < 2 ^ 33 }
        requires memo { IsMemoOf (band_edges settings.now.sample_rate) self.old.spectrum self.old.memo }
        requires plain { (lane_of self.old.memo 0).amp ≡ no_amp }
        ensures reserve { reserve.new ≡ reserve_after settings.now frame reserve.old self.old.demand self.old.spectrum }
        ensures bound { reserve.new < reserve.old + 2 ^ 32 }
        ensures ticks { steps.new ≡ steps.old + lacking (lane_of self.old.memo 0).counts (first_gain_of (band_edges settings.now.sample_rate) no_amp self.old.spectrum) (picked_gain (band_edges settings.now.sample_rate) no_amp self.old.spectrum (budget_under settings.now frame reserve.old self.old.demand)) }
        ensures memo { HasLaneTo (band_edges settings.now.sample_rate) no_amp self.old.spectrum 0 (first_gain_of (band_edges settings.now.sample_rate) no_amp self.old.spectrum) (picked_gain (band_edges settings.now.sample_rate) no_amp self.old.spectrum (budget_under settings.now frame reserve.old self.old.demand)) self.old.memo self.new.memo }
        ensures kept { IsMemoOf (band_edges settings.now.sample_rate) self.old.spectrum self.new.memo }
        ensures spectrum { self.new.spectrum ≡ self.old.spectrum }
        ensures demand { self.new.demand ≡ self.old.demand }
    {
        // For the proof: the mean fits 32 bits, which bounds the reserve.
        let _mean = settings.mean_bits(frame);
        let budget = reserve.budget(settings, frame, self.demand);
        let picked = self.choose(settings.sample_rate, budget, steps);
        reserve.spend(settings, frame, picked.count.bits());
    }
}
