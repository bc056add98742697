ghost use Rattle.std.specs.Prelude.{◌≡◌, ◌≢◌, ◌≤◌, ◌<◌, ℕ, List, Option, Some, None, length};
ghost use Rattle.l3_board.specs.declared.event.Offer.TheVariants.{Busy};
ghost use Rattle.l3_board.specs.declared.event.Claim.TheVariants.{Job, Nothing, Shut};
ghost use Rattle.l3_board.specs.declared.event.Deposit.TheVariants.{Stray};
ghost use Rattle.l3_board.specs.declared.event.Take.TheVariants.{Got, Revoked, InWork, NotOffered};
ghost use Rattle.l3_board.specs.declared.entry.Entry.{Entry};
ghost use Rattle.l3_board.specs.Desk.{entry_of, last_after_offer, last_after_take, served_after, got_after};

use crate::event::{Claim, Deposit, Offer, Take};
use crate::item::Numbered;
use l3_base::GranuleNo;
use std::sync::Wait;

/// A board of cells between one desk, which offers granules and takes them, and workers' seats,
/// which claim them and hand them in.
///
/// Contracts say which item an answer hands out or back, and how each answer moves the desk's
/// record and the seat's claim. They say nothing of which answer comes, but that `claim_wait` never
/// answers `Nothing`.
pub trait Board {
    /// What passes through the board.
    type Item: Numbered;

    /// The token of the one who offers and takes.
    type Desk: Send + Drop;

    /// The token of a worker.
    type Seat: Send + Drop;

    /// How many cells it has.
    ghost cells: { Self → ℕ };

    /// The desk was made with this board.
    ghost has_desk: { Self → Self.Desk → Type 0 };

    /// The seat was made with this board.
    ghost has_seat: { Self → Self.Seat → Type 0 };

    /// What the desk was last told of each cell.
    ghost last: { Self.Desk → List Entry };

    /// The number up to which granules were served, in order from 0.
    ghost served: { Self.Desk → ℕ };

    /// The work of the item that the last granule served came with, and 0 where it came with none.
    ghost got: { Self.Desk → ℕ };

    /// The number of the granule that the seat has claimed and not handed in, if there is one.
    ghost claimed: { Self.Seat → Option ℕ };

    /// A desk has an entry for each cell of its board, and there is at least one.
    ghost desk_entries: { (board : Self) (desk : Self.Desk) → has_desk board desk → (length (last desk) ≡ cells board) × (0 < cells board) };

    /// The number of cells: how many granules may be on the board at once.
    fn ahead(&self) -> u8
        ensures { result ≡ cells self.now };

    /// Puts an item on offer, and hands out a spent one, to be loaded anew; or hands the item back.
    fn offer(&self, desk: &mut Self::Desk, item: Self::Item) -> Offer<Self::Item>
        requires made { has_desk self.now desk.old }
        requires number { Self.Item.number_of item ≤ 8589934592 }
        ensures made { has_desk self.now desk.new }
        ensures busy { (x : Self.Item) → result ≡ Busy x → x ≡ item }
        ensures last { last desk.new ≡ last_after_offer (cells self.now) (last desk.old) (Self.Item.number_of item) result }
        ensures served { served desk.new ≡ served desk.old }
        ensures got { got desk.new ≡ got desk.old };

    /// Hands out an item on offer, to be handed in again.
    fn claim(&self, seat: &mut Self::Seat) -> Claim<Self::Item>
        requires made { has_seat self.now seat.old }
        requires free { claimed seat.old ≡ None }
        ensures made { has_seat self.now seat.new }
        ensures job { (x : Self.Item) → result ≡ Job x → claimed seat.new ≡ Some (Self.Item.number_of x) }
        ensures nothing { result ≡ Nothing → claimed seat.new ≡ None }
        ensures shut { result ≡ Shut → claimed seat.new ≡ None };

    /// Waits until an item is on offer or the board is shut. It never answers `Nothing`.
    fn claim_wait<R: Wait>(&self, rt: &R, seat: &mut Self::Seat) -> Claim<Self::Item>
        requires made { has_seat self.now seat.old }
        requires free { claimed seat.old ≡ None }
        ensures made { has_seat self.now seat.new }
        ensures job { (x : Self.Item) → result ≡ Job x → claimed seat.new ≡ Some (Self.Item.number_of x) }
        ensures something { result ≢ Nothing }
        ensures shut { result ≡ Shut → claimed seat.new ≡ None };

    /// Hands in the item of the granule that the seat has claimed.
    fn deposit(&self, seat: &mut Self::Seat, item: Self::Item) -> Deposit<Self::Item>
        requires made { has_seat self.now seat.old }
        requires claim { claimed seat.old ≡ Some (Self.Item.number_of item) }
        ensures made { has_seat self.now seat.new }
        ensures free { claimed seat.new ≡ None }
        ensures stray { (x : Self.Item) → result ≡ Stray x → x ≡ item };

    /// Takes a granule off the board. The spare stays where an item goes out, and comes back else;
    /// its own number is never looked at.
    fn take(&self, desk: &mut Self::Desk, number: GranuleNo, spare: Self::Item) -> Take<Self::Item>
        requires made { has_desk self.now desk.old }
        ensures made { has_desk self.now desk.new }
        ensures got_number { (x : Self.Item) → result ≡ Got x → Self.Item.number_of x ≡ number }
        ensures revoked_number { (x : Self.Item) → result ≡ Revoked x → Self.Item.number_of x ≡ number }
        ensures in_work { (x : Self.Item) → result ≡ InWork x → x ≡ spare }
        ensures not_offered { (x : Self.Item) → result ≡ NotOffered x → x ≡ spare }
        ensures last { last desk.new ≡ last_after_take (cells self.now) (last desk.old) number result }
        ensures served { served desk.new ≡ served_after (served desk.old) number (entry_of (cells self.now) (last desk.old) number) }
        ensures got { got desk.new ≡ got_after Self.Item.work_of (got desk.old) (served desk.old) number (entry_of (cells self.now) (last desk.old) number) result };

    /// Shuts the board for good: nothing is put on offer or claimed from then on.
    fn shut(&self, desk: &mut Self::Desk)
        requires made { has_desk self.now desk.old }
        ensures made { has_desk self.now desk.new }
        ensures last { last desk.new ≡ last desk.old }
        ensures served { served desk.new ≡ served desk.old }
        ensures got { got desk.new ≡ got desk.old };
}
