ghost use Rattle.std.specs.Prelude.{◌≡◌, ℕ};

/// What passes through a board: an item that tells the number of its granule.
pub trait Numbered: Drop {
    ghost number_of: { Self → ℕ };

    ghost work_of: { Self → ℕ };

    /// The granule that the item is about.
    fn number(&self) -> u64
        ensures { result ≡ number_of self.now };

    /// How far the item has come, by its own account. No answer of a board depends on it.
    fn work(&self) -> u64
        ensures { result ≡ work_of self.now };
}
