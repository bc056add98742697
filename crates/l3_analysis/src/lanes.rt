/// How many threads analyse, and how far ahead of the committer.
#[derive(Clone, Copy, Debug, PartialEq, Eq)]
pub struct Lanes {
    /// The number of workers, each with a seat at the board: 1 to 16.
    pub workers: u8,
    /// The number of granules that may be on the board at once: 1 to 64.
    pub ahead: u8,
}
