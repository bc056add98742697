/// How far a piece has come.
#[derive(Clone, Copy, Debug, PartialEq, Eq)]
pub enum Stage {
    /// It has no granule yet.
    Blank,
    /// It has a granule's number and window, and a guess of the reserve.
    Loaded,
    /// It has the spectra of its window and their demands.
    Transformed,
    /// It has the counts up to the gains that are picked under the guess, too.
    Presumed,
}
