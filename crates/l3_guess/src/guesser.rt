ghost use Rattle.std.specs.Prelude.{◌≡◌, ◌≤◌, ◌++◌, ◌∷◌, ℕ, List, [], length};
ghost use Rattle.l3_guess.specs.Guesses.{last_eight, mean_of};

use arrayvec::ArrayVec;
use l3_base::GranuleNo;
use std::marker::Model;

/// Guesses the reserve, in bits, with which the commit of a granule begins.
///
/// Any guess is allowed: it decides what is counted ahead of time, and never what is encoded.
pub trait Guesser: Send + Drop {
    /// The guess for each granule's number, as things stand.
    ghost guesses: { Self → ℕ → ℕ };

    /// The guess for each granule's number once this number and reserve are told.
    ghost guesses_after: { Self → (number reserve : ℕ) → ℕ → ℕ };

    /// The commit of this granule begins with a reserve of so many bits.
    fn tell(&mut self, number: GranuleNo, reserve: u32)
        ensures after { (n : ℕ) → guesses self.new n ≡ guesses_after self.old number reserve n };

    /// The guess for this granule, in bits.
    fn guess(&self, number: GranuleNo) -> u32
        ensures { result ≡ guesses self.now number };
}

/// Always guesses the same.
#[derive(Debug, Drop)]
pub struct Flat(u32);

impl Model for Flat {
    ghost Value = { ℕ };

    ghost view = { λ flat. flat.0 };
}

impl Flat {
    /// The guesser of this value, in bits.
    pub fn new(value: u32) -> Flat
        ensures { result ≡ value }
    {
        Flat(value)
    }
}

impl Guesser for Flat {
    ghost guesses = { λ flat _. flat };

    ghost guesses_after = { λ flat _ _ _. flat };

    fn tell(&mut self, _number: GranuleNo, _reserve: u32)
        ensures { self.new ≡ self.old }
    {}

    fn guess(&self, _number: GranuleNo) -> u32
        ensures { result ≡ self.now }
    {
        self.0
    }
}

/// Guesses what it was told last, and 0 before.
#[derive(Debug, Drop)]
pub struct Last(u32);

impl Model for Last {
    ghost Value = { ℕ };

    ghost view = { λ last. last.0 };
}

impl Last {
    /// One that was told nothing yet.
    pub fn new() -> Last
        ensures { result ≡ 0 }
    {
        Last(0)
    }
}

impl Guesser for Last {
    ghost guesses = { λ last _. last };

    ghost guesses_after = { λ _ _ reserve _. reserve };

    fn tell(&mut self, _number: GranuleNo, reserve: u32)
        ensures { self.new ≡ reserve }
    {
        self.0 = reserve;
    }

    fn guess(&self, _number: GranuleNo) -> u32
        ensures { result ≡ self.now }
    {
        self.0
    }
}

/// Guesses the mean of the last eight that it was told, or of all where they are fewer, rounded
/// down, and 0 before.
#[derive(Debug, Drop)]
pub struct Mean {
    told: ArrayVec<u32, 8>,
}

impl Model for Mean {
    ghost Value = { List ℕ };

    ghost view = { λ mean. mean.told.items };
}

impl Mean {
    /// One that was told nothing yet.
    pub fn new() -> Mean
        ensures { result ≡ [] }
    {
        Mean {
            told: ArrayVec::new(),
        }
    }
}

impl Guesser for Mean {
    ghost guesses = { λ told _. mean_of told };

    ghost guesses_after = { λ told _ reserve _. mean_of (last_eight (told ++ reserve ∷ [])) };

    fn tell(&mut self, _number: GranuleNo, reserve: u32)
        ensures { self.new ≡ last_eight (self.old ++ reserve ∷ []) }
    {
        remember(&mut self.told, reserve);
    }

    fn guess(&self, _number: GranuleNo) -> u32
        ensures { result ≡ mean_of self.now }
    {
        mean_value(self.told.as_slice())
    }
}

// Puts a reserve behind those that were told before, and lets the oldest of nine go.
fn remember(told: &mut ArrayVec<u32, 8>, reserve: u32)
    ensures { told.new.items ≡ last_eight (told.old.items ++ reserve ∷ []) }
{
    if told.is_full() {
        told.remove(0);
    }
    told.push(reserve);
}

// Their mean, rounded down, and 0 of none.
fn mean_value(told: &[u32]) -> u32
    requires { length told.now ≤ 8 }
    ensures { result ≡ mean_of told.now }
{
    if told.is_empty() {
        return 0;
    }
    let mut all = 0u64;
    for reserve in told {
        all += u64::from(*reserve);
    }
    (all / told.len() as u64) as u32
}

/// Hands its calls on to a boxed guesser.
#[derive(Drop)]
pub struct Chosen(pub Box<dyn Guesser>);

impl Guesser for Chosen {
    ghost guesses = { λ chosen number. (Guesser-box chosen.0).guesses chosen.0.value number };

    ghost guesses_after = { λ chosen number reserve n.
        (Guesser-box chosen.0).guesses_after chosen.0.value number reserve n };

    fn tell(&mut self, number: GranuleNo, reserve: u32) {
        self.0.tell(number, reserve);
    }

    fn guess(&self, number: GranuleNo) -> u32 {
        self.0.guess(number)
    }
}
