ghost use Rattle.std.specs.Prelude.{◌≡◌, ◌≢◌, ◌<◌, ℕ, ℤ, List, slice_set};

use crate::count::Count;
use crate::lane::Lane;
use l3_base::Amp;
use std::marker::Model;

/// The counts of a spectrum, where they were made: four lanes, each with an amplification and at
/// most one count for each gain of 0 to 255. It has at most 16 KB.
///
/// A lane that holds no count costs nothing to empty.
#[derive(Drop)]
pub struct Memo {
    lanes: [Lane; 4],
}

impl Model for Memo {
    ghost use Rattle.std.specs.Prelude.{List};
    ghost use Rattle.l3_count.specs.Memo.{IsMemo, LaneView};

    ghost Value = { List LaneView };

    ghost view = { λ m. m.lanes };

    ghost invariant = { λ m. IsMemo m.lanes };
}

impl Memo {
    ghost use Rattle.l3_count.specs.Memo.{IsMemo, IsMemoOf, empty_lane, empty_memo, lane_of, memo_at, with_count};

    /// A memo with no count, all lanes under no amplification.
    pub fn new() -> Memo
        ensures { result ≡ empty_memo }
    {
        let lanes = [Lane::new(), Lane::new(), Lane::new(), Lane::new()];
        Memo { lanes }
    }

    /// Takes all counts out, and leaves all lanes under no amplification.
    pub fn clear(&mut self)
        ensures { self.new ≡ empty_memo }
    {
        let amp = Amp::zero();
        for lane in 0..4 {
            self.lanes[lane].clear(&amp);
        }
    }

    /// The amplification of a lane.
    pub fn amp(&self, lane: u8) -> Amp
        requires { lane < 4 }
        ensures value { result ≡ (lane_of self.now lane).amp }
        ensures memo { IsMemo self.now }
    {
        self.lanes[usize::from(lane)].amp()
    }

    /// Turns a lane to an amplification. Where it had another, the lane is empty then; where it had
    /// this one, nothing changes.
    pub fn turn_to(&mut self, lane: u8, amp: &Amp)
        requires { lane < 4 }
        ensures same { (lane_of self.old lane).amp ≡ amp.now → self.new ≡ self.old }
        ensures other { (lane_of self.old lane).amp ≢ amp.now → self.new ≡ slice_set self.old lane (empty_lane amp.now) }
        ensures amp { (lane_of self.new lane).amp ≡ amp.now }
        ensures others { (k : ℕ) → k ≢ lane → lane_of self.new k ≡ lane_of self.old k }
        ensures memo { IsMemo self.new }
        ensures kept { (edges : List ℕ) (lines : List ℤ) → IsMemoOf edges lines self.old → IsMemoOf edges lines self.new }
    {
        if self.amp(lane) != *amp {
            self.lanes[usize::from(lane)].clear(amp);
        }
    }

    /// Puts a count into a lane at its gain, in place of one that stood there.
    pub fn put(&mut self, lane: u8, count: Count)
        requires lane { lane < 4 }
        requires amp { count.amp ≡ (lane_of self.old lane).amp }
        ensures value { self.new ≡ slice_set self.old lane (with_count (lane_of self.old lane) count) }
        ensures memo { IsMemo self.new }
    {
        self.lanes[usize::from(lane)].put(count);
    }

    /// The count that was put into a lane for a gain, or `None` where none was since the lane was
    /// last empty.
    pub fn get(&self, lane: u8, gain: u8) -> Option<Count>
        requires { lane < 4 }
        ensures value { result ≡ memo_at self.now lane gain }
        ensures memo { IsMemo self.now }
    {
        self.lanes[usize::from(lane)].get(gain)
    }
}
