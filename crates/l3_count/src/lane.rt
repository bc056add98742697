ghost use Rattle.std.specs.Prelude.{◌≡◌};
ghost use Rattle.l3_count.specs.Cost.{no_costs};

use crate::count::{Cost, Count};
use l3_base::Amp;
use std::marker::Model;

// The counts of a spectrum under an amplification, by gain: at most one for each gain of 0 to 255.
#[derive(Drop)]
pub(crate) struct Lane {
    amp: Amp,
    // Whether a count was put since the lane was last empty: one that was not has none to take out.
    used: bool,
    costs: [Option<Cost>; 256],
}

impl Model for Lane {
    ghost use Rattle.l3_count.specs.Memo.{LaneView};
    ghost use Rattle.l3_count.specs.Cost.{HoldsCosts, lane_with};

    ghost Value = { LaneView };

    ghost view = { λ l. lane_with l.amp l.costs };

    ghost invariant = { λ l. HoldsCosts l.amp l.used l.costs };
}

// No entry for any gain.
#[inline(always)]
fn none() -> [Option<Cost>; 256]
    ensures { result ≡ no_costs }
{
    [None; 256]
}

impl Lane {
    ghost use Rattle.l3_base.specs.Amp.{no_amp};
    ghost use Rattle.l3_count.specs.Memo.{IsLane, empty_lane, kept_at, with_count};

    // A lane without a count, under no amplification.
    pub(crate) fn new() -> Lane
        ensures { result ≡ empty_lane no_amp }
    {
        let costs = none();
        Lane {
            amp: Amp::zero(),
            used: false,
            costs,
        }
    }

    // Takes all counts out, and turns to an amplification.
    pub(crate) fn clear(&mut self, amp: &Amp)
        ensures value { self.new ≡ empty_lane amp.now }
        ensures lane { IsLane self.new }
    {
        // For the proof: an amplification is 21 numbers of 0 to 3.
        let _first = amp.get(0);
        if self.used {
            let costs = none();
            self.costs = costs;
            self.used = false;
        }
        self.amp = *amp;
    }

    // The amplification.
    pub(crate) fn amp(&self) -> Amp
        ensures value { result ≡ self.now.amp }
        ensures lane { IsLane self.now }
    {
        self.amp
    }

    // Puts a count under the lane's amplification at its gain.
    pub(crate) fn put(&mut self, count: Count)
        requires { count.amp ≡ self.old.amp }
        ensures value { self.new ≡ with_count self.old count }
        ensures lane { IsLane self.new }
    {
        let cost = count.cost();
        self.costs[usize::from(cost.gain)] = Some(cost);
        self.used = true;
    }

    // The count for a gain, or `None` where none was put since the lane was last empty.
    pub(crate) fn get(&self, gain: u8) -> Option<Count>
        ensures value { result ≡ kept_at self.now.counts gain }
        ensures lane { IsLane self.now }
    {
        match self.costs[usize::from(gain)] {
            Some(cost) => Some(Count::of_cost(self.amp, cost)),
            None => None,
        }
    }
}
