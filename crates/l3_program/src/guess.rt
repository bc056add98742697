//! The guesser that words ask for.

ghost use Rattle.std.specs.Prelude.{◌≡◌, ◌≤◌, ◌<◌, ◌-◌, ℕ, IfErr, IfOk, Some, map, replicate, slice_get, vec_len};

use l3_base::GranuleNo;
use l3_guess::{Chosen, Guesser, Panel, Standings};
use std::alloc::{AllocError, Global};

/// One guesser, or all that there are, by one guesser over them.
#[derive(Drop)]
pub enum Asked<O: Guesser, A: Guesser> {
    /// One of them.
    One(O),
    /// All of them.
    All(A),
}

impl<O: Guesser, A: Guesser> Guesser for Asked<O, A> {
    ghost use Rattle.l3_program.specs.declared.guess.Asked.TheVariants.{All, One};

    ghost guesses = { λ asked number. elim asked [
      | One one ↦ O.guesses one number
      | All all ↦ A.guesses all number
    ] };

    ghost guesses_after = { λ asked number reserve n. elim asked [
      | One one ↦ O.guesses_after one number reserve n
      | All all ↦ A.guesses_after all number reserve n
    ] };

    fn tell(&mut self, number: GranuleNo, reserve: u32) {
        match self {
            Asked::One(one) => one.tell(number, reserve),
            Asked::All(all) => all.tell(number, reserve),
        }
    }

    fn guess(&self, number: GranuleNo) -> u32 {
        match self {
            Asked::One(one) => one.guess(number),
            Asked::All(all) => all.guess(number),
        }
    }
}

/// The guesser that a number asks for: one of these by its place, counted from 1, or with 0 a panel
/// of all. Those that are not asked for are dropped. Errors: no memory for the panel.
pub fn guesser_asked(
    alloc: Global,
    guessers: Vec<Box<dyn Guesser>>,
    number: u8,
) -> Result<Asked<Chosen, Panel>, AllocError>
    requires some { 0 < vec_len guessers }
    requires there { number ≤ vec_len guessers }
    ensures one { 1 ≤ number → IfOk result (λ asked. (chosen : _) × (asked ≡ Asked.One chosen)
        × (slice_get guessers.items (number - 1) ≡ Some chosen.0)) }
    ensures all { number ≡ 0 → IfOk result (λ asked. (panel : _) × (asked ≡ Asked.All panel)
        × (⟦<Panel as Standings>⟧.scores panel ≡ replicate (vec_len guessers) 0)
        × ((n : ℕ) → ⟦<Panel as Standings>⟧.answers panel n ≡ map (λ m. guesses m n) guessers.items)) }
    ensures memory { IfErr result (λ _. number ≡ 0) }
{
    if number == 0 {
        Ok(Asked::All(Panel::new(alloc, guessers)?))
    } else {
        let mut guessers = guessers;
        Ok(Asked::One(Chosen(guessers.swap_remove(usize::from(number) - 1))))
    }
}
