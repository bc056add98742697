// How a worker's seat looks through the cells for a granule on offer.
ghost use Rattle.std.specs.Prelude.{◌≡◌, ℕ, Option, ◌%◌, ◌<◌, ◌≤◌, None, Some, IfSome, IfNone};
ghost use Rattle.l3_board.specs.declared.event.Event.TheVariants as event;
ghost use Rattle.l3_board.specs.declared.event.Answer.TheVariants as answer;
ghost use Rattle.l3_board.specs.declared.event.Claim.TheVariants.{Job};
ghost use Rattle.l3_lanes.specs.History.{Extends, HasSeenOpen};
ghost use Rattle.l3_lanes.specs.Views.{words_at};
ghost use Rattle.l3_lanes.specs.Calls.{IsSeatOf, WasClaimed, WasLost, IsTried};

use crate::seats::{LaneBoard, LaneSeat};
use crate::worker_calls::claim_offered;
use crate::worker_steps::load;
use l3_board::Numbered;

impl<T: Numbered> LaneBoard<T> {
    // Tries one cell, by one load, and one exchange where it is on offer.
    fn try_cell(&self, seat: &mut LaneSeat<T>, cell: usize) -> Option<T>
        requires cell { cell < self.now.cells }
        requires made { IsSeatOf self.now seat.old }
        requires free { seat.old.claim ≡ None }
        requires seen_open { HasSeenOpen self.now.cells seat.old.token.me.0.past }
        ensures made { IsSeatOf self.now seat.new }
        ensures job { IfSome result (λ x. seat.new.claim ≡ Some (cell, T.number_of x)) }
        ensures nothing { IfNone result (seat.new.claim ≡ None) }
        ensures claimed { IfSome result (λ x. WasClaimed cell (T.number_of x) seat.old.token.me.0.view seat.new.token.me.0.view) }
        ensures lost { IfNone result (WasLost cell seat.old.token.me.0.view seat.new.token.me.0.view) }
        ensures others { (k : ℕ) → (k ≡ cell → ⊥) → words_at seat.new.token.me.0.view k ≡ words_at seat.old.token.me.0.view k }
        ensures moved { IfSome result (λ x. Extends self.now.cells seat.old.token.me.0.past event.Claim (answer.Claim (Job (T.number_of x))) seat.new.token.me.0.past) }
        ensures unmoved { IfNone result (seat.new.token.me.0.past ≡ seat.old.token.me.0.past) }
    {
        let row = &self.lanes.shared;
        let word = load(row, &mut seat.token, cell);
        if word % 8 != 1 {
            return None;
        }
        let number = word / 8;
        let job = claim_offered(row, &mut seat.token, cell, number)?;
        seat.claim = Some((cell, number));
        Some(job)
    }

    // Tries the cells one after another, until one is claimed.
    pub(crate) fn try_all(&self, seat: &mut LaneSeat<T>) -> Option<T>
        requires made { IsSeatOf self.now seat.old }
        requires free { seat.old.claim ≡ None }
        requires seen_open { HasSeenOpen self.now.cells seat.old.token.me.0.past }
        ensures made { IsSeatOf self.now seat.new }
        ensures job { IfSome result (λ x. seat.new.claim ≡ Some (T.number_of x % self.now.cells, T.number_of x)) }
        ensures nothing { IfNone result (seat.new.claim ≡ None) }
        ensures claimed { IfSome result (λ x. WasClaimed (T.number_of x % self.now.cells) (T.number_of x) seat.old.token.me.0.view seat.new.token.me.0.view) }
        ensures lost { IfNone result ((c : ℕ) → c < self.now.cells → WasLost c seat.old.token.me.0.view seat.new.token.me.0.view) }
        ensures tried { (c : ℕ) → c < self.now.cells → IsTried c seat.old.token.me.0.view seat.new.token.me.0.view }
        ensures others { (k : ℕ) → self.now.cells ≤ k → words_at seat.new.token.me.0.view k ≡ words_at seat.old.token.me.0.view k }
        ensures moved { IfSome result (λ x. Extends self.now.cells seat.old.token.me.0.past event.Claim (answer.Claim (Job (T.number_of x))) seat.new.token.me.0.past) }
        ensures unmoved { IfNone result (seat.new.token.me.0.past ≡ seat.old.token.me.0.past) }
    {
        for cell in 0..usize::from(self.cells) {
            if let Some(job) = self.try_cell(seat, cell) {
                return Some(job);
            }
        }
        None
    }
}
