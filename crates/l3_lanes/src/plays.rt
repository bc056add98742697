// The rule of the board, and what each kind of step tells.
use crate::view::Knowledge;
use atomic_table::{Play, Seat, Shared, Split, Table, TableRule};
use l3_board::Numbered;
use std::alloc::Global;
use std::marker::PhantomData;

// The rule of the board, for items of one type. It is told the number of cells.
pub(crate) struct Rule<T>(PhantomData<T>);

impl<T: Numbered> TableRule<Option<T>, Knowledge, usize> for Rule<T> {
    ghost use Rattle.l3_lanes.specs.History.{HoldsRecorded};
    ghost use Rattle.l3_lanes.specs.Moves.{opening_knowledge};

    ghost holds = { λ _. HoldsRecorded T.number_of };

    ghost first = { opening_knowledge };
}

// A worker's load of a cell or of the word for shut.
pub(crate) struct Loading<T>(PhantomData<T>);

impl<T: Numbered> Play<Option<T>, Knowledge> for Loading<T> {
    ghost use Rattle.l3_lanes.specs.Moves.{Looked};
    ghost use Rattle.l3_lanes.specs.Steps.{Loads};

    ghost then = { Looked (Loads T.number_of) };
}

// A worker claims a granule on offer.
pub(crate) struct Claiming<T>(PhantomData<T>);

impl<T: Numbered> Play<Option<T>, Knowledge> for Claiming<T> {
    ghost use Rattle.l3_lanes.specs.Moves.{ClaimsMove};
    ghost use Rattle.l3_lanes.specs.Steps.{Claims};

    ghost then = { ClaimsMove (Claims T.number_of) };
}

// The desk loads a cell, and takes the slot of an empty one.
pub(crate) struct Looking<T>(PhantomData<T>);

impl<T: Numbered> Play<Option<T>, Knowledge> for Looking<T> {
    ghost use Rattle.l3_lanes.specs.Moves.{LooksBusy};
    ghost use Rattle.l3_lanes.specs.Steps.{Looks};

    ghost then = { LooksBusy (Looks T.number_of) };
}

// The desk offers a granule.
pub(crate) struct Offering<T>(PhantomData<T>);

impl<T: Numbered> Play<Option<T>, Knowledge> for Offering<T> {
    ghost use Rattle.l3_lanes.specs.Moves.{OffersMove};
    ghost use Rattle.l3_lanes.specs.Steps.{Offers};

    ghost then = { OffersMove (Offers T.number_of) };
}

// The desk takes back a granule that nobody has claimed.
pub(crate) struct Revoking<T>(PhantomData<T>);

impl<T: Numbered> Play<Option<T>, Knowledge> for Revoking<T> {
    ghost use Rattle.l3_lanes.specs.Moves.{RevokesMove};
    ghost use Rattle.l3_lanes.specs.Steps.{Revokes};

    ghost then = { RevokesMove (Revokes T.number_of) };
}

// The desk leaves a claimed granule to its worker.
pub(crate) struct Withdrawing<T>(PhantomData<T>);

impl<T: Numbered> Play<Option<T>, Knowledge> for Withdrawing<T> {
    ghost use Rattle.l3_lanes.specs.Moves.{WithdrawsMove};
    ghost use Rattle.l3_lanes.specs.Steps.{Withdraws};

    ghost then = { WithdrawsMove (Withdraws T.number_of) };
}

// The desk loads an empty cell, and its slot goes home.
pub(crate) struct Returning<T>(PhantomData<T>);

impl<T: Numbered> Play<Option<T>, Knowledge> for Returning<T> {
    ghost use Rattle.l3_lanes.specs.Moves.{Unmoved};
    ghost use Rattle.l3_lanes.specs.Steps.{Returns};

    ghost then = { Unmoved (Returns T.number_of) };
}

// A worker hands in the item of its claim.
pub(crate) struct Depositing<T>(PhantomData<T>);

impl<T: Numbered> Play<Option<T>, Knowledge> for Depositing<T> {
    ghost use Rattle.l3_lanes.specs.Moves.{DepositsMove};
    ghost use Rattle.l3_lanes.specs.Steps.{Deposits};

    ghost then = { DepositsMove (Deposits T.number_of) };
}

// A worker sets a withdrawn cell free.
pub(crate) struct Freeing<T>(PhantomData<T>);

impl<T: Numbered> Play<Option<T>, Knowledge> for Freeing<T> {
    ghost use Rattle.l3_lanes.specs.Moves.{FreesMove};
    ghost use Rattle.l3_lanes.specs.Steps.{Frees};

    ghost then = { FreesMove (Frees T.number_of) };
}

// The desk shuts the board.
pub(crate) struct Shutting<T>(PhantomData<T>);

impl<T: Numbered> Play<Option<T>, Knowledge> for Shutting<T> {
    ghost use Rattle.l3_lanes.specs.Moves.{ShutsMove};
    ghost use Rattle.l3_lanes.specs.Steps.{Shuts};

    ghost then = { ShutsMove (Shuts T.number_of) };
}

// The desk raises the bell.
pub(crate) struct Ringing<T>(PhantomData<T>);

impl<T: Numbered> Play<Option<T>, Knowledge> for Ringing<T> {
    ghost use Rattle.l3_lanes.specs.Moves.{Unmoved};
    ghost use Rattle.l3_lanes.specs.Steps.{Rings};

    ghost then = { Unmoved (Rings T.number_of) };
}

// The desk takes a ready granule.
pub(crate) struct Taking<T>(PhantomData<T>);

impl<T: Numbered> Play<Option<T>, Knowledge> for Taking<T> {
    ghost use Rattle.l3_lanes.specs.Moves.{TakesMove};
    ghost use Rattle.l3_lanes.specs.Steps.{TakesKnown};

    ghost then = { TakesMove (TakesKnown T.number_of) };
}

// A new worker's seat is split from the desk's.
pub(crate) struct Hire;

impl Split<Knowledge> for Hire {
    ghost use Rattle.l3_lanes.specs.Moves.{new_knowledge};

    ghost left = { λ v. v };

    ghost right = { new_knowledge };
}

// The words and the slots: a word for each cell, the word for shut, the bell, and a slot for each
// cell.
pub(crate) type Lanes<T> = Table<Option<T>, Knowledge, usize, Rule<T>, Global>;

// What a seat steps with. It takes no bytes.
pub(crate) type Token<T> = Seat<Option<T>, Knowledge>;

// The words and the slots as all seats share them.
pub(crate) type Row<T> = Shared<Option<T>, Knowledge, usize, Rule<T>>;
