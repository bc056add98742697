/// The answer to an offer.
#[derive(Drop)]
pub enum Offer<T> {
    /// The item is on offer; the spent item that stood there comes out.
    Placed(T),
    /// The cell is taken or the board is shut: the item comes back.
    Busy(T),
}

/// The answer to a claim.
#[derive(Drop)]
pub enum Claim<T> {
    /// The item of a granule on offer, to be handed in again.
    Job(T),
    /// Nothing is on offer now.
    Nothing,
    /// The board is shut: nothing will be handed out any more.
    Shut,
}

/// The answer to an item that is handed in.
#[derive(Drop)]
pub enum Deposit<T> {
    /// The granule is ready to be taken.
    Kept,
    /// The granule was taken before: the item stays as a spent one.
    Late,
    /// Nobody has claimed that granule: the item comes back.
    Stray(T),
}

/// The answer to a take.
#[derive(Drop)]
pub enum Take<T> {
    /// The item that was handed in; the spare stays as a spent one.
    Got(T),
    /// The item as it was offered, since nobody has claimed it; the spare stays as a spent one.
    Revoked(T),
    /// A claimant has the item, which is late from now on: the spare comes back.
    InWork(T),
    /// The board has nothing of that granule: the spare comes back.
    NotOffered(T),
}

/// One call of the board.
#[derive(Drop)]
pub enum Event<T> {
    Offer(T),
    Claim,
    Deposit(T),
    /// The granule's number, and a spare item to stay in place of the one taken.
    Take(u64, T),
    Shut,
}

/// The answer to an event.
#[derive(Drop)]
pub enum Answer<T> {
    Offer(Offer<T>),
    Claim(Claim<T>),
    Deposit(Deposit<T>),
    Take(Take<T>),
    Shut,
}
