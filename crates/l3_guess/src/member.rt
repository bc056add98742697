ghost use Rattle.std.specs.Prelude.{◌≡◌, ℕ, map, replicate, vec_len, IfOk};
ghost use Rattle.l3_guess.specs.Scores.{risen, all_risen};

use crate::guesser::Guesser;
use l3_base::GranuleNo;
use std::alloc::{AllocError, Global};

/// A boxed guesser with its score.
#[derive(Drop)]
pub struct Member {
    pub guesser: Box<dyn Guesser>,
    pub score: u128,
}

impl Member {
    /// Its guess for this granule, in bits.
    pub fn guess(&self, number: GranuleNo) -> u32
        ensures { result ≡ guesses self.now.guesser number }
    {
        self.guesser.guess(number)
    }

    /// Compares its guess with the reserve, and then tells it.
    pub fn tell(&mut self, number: GranuleNo, reserve: u32)
        ensures score { self.new.score ≡ risen self.old.score (guesses self.old.guesser number) reserve }
        ensures after { (n : ℕ) → guesses self.new.guesser n ≡ guesses_after self.old.guesser number reserve n }
    {
        let guess = self.guess(number);
        let distance = u128::from(guess.abs_diff(reserve));
        self.score = self.score.saturating_add(distance);
        self.guesser.tell(number, reserve);
    }
}

/// Scores each member by its guess, and then tells it.
pub fn tell_each(members: &mut [Member], number: GranuleNo, reserve: u32)
    ensures scores { map (λ m. m.score) members.new ≡ all_risen
        (map (λ m. m.score) members.old)
        (map (λ m. guesses m.guesser number) members.old)
        reserve }
    ensures after { (n : ℕ) → map (λ m. guesses m.guesser n) members.new
        ≡ map (λ m. guesses_after m.guesser number reserve n) members.old }
{
    for place in 0..members.len() {
        let member = &mut members[place];
        member.tell(number, reserve);
    }
}

/// These guessers as members, in their order, with nothing scored.
pub fn unscored(alloc: Global, guessers: Vec<Box<dyn Guesser>>) -> Result<Vec<Member>, AllocError>
    ensures guessers { IfOk result (λ members. map (λ m. m.guesser) members.items ≡ guessers.items) }
    ensures scores { IfOk result (λ members. map (λ m. m.score) members.items ≡ replicate (vec_len guessers) 0) }
{
    let mut members = Vec::new(alloc);
    for guesser in guessers {
        members.push(Member { guesser, score: 0 })?;
    }
    Ok(members)
}
