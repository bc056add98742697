ghost use Rattle.std.specs.Prelude.{◌≡◌, ℕ, ◌+◌, ◌%◌, ◌<◌, List, map, length, replicate, remove, vec_len, slice_index, IfOk, IfSome, IfNone};
ghost use Rattle.l3_guess.specs.Scores.{all_risen, guess_of, guess_after, worst_place, after_tell, kept_answers};

use crate::guesser::Guesser;
use crate::member::{Member, tell_each, unscored};
use crate::places::{best_member, worst_member};
use l3_base::GranuleNo;
use std::alloc::{AllocError, Global};

/// What contracts see of a panel.
pub trait Standings {
    /// The scores of its members, in their order.
    ghost scores: { Self → List ℕ };

    /// What each member guesses for a granule's number, in the same order.
    ghost answers: { Self → ℕ → List ℕ };

    /// The same once a number and a reserve are told.
    ghost answers_after: { Self → (number reserve : ℕ) → ℕ → List ℕ };

    /// How often it was told, modulo 256.
    ghost tells: { Self → ℕ };
}

/// Several guessers, of which the one that has done best so far is asked.
///
/// A member's score is the sum of the distances between its guesses and the reserves that were
/// told, each guess taken before the member is told; it stands at 2^128 - 1. After each 256th tell
/// the worst member is dropped, while there are others.
#[derive(Drop)]
pub struct Panel {
    members: Vec<Member>,
    // Tells so far, modulo 256.
    tells: u8,
    ghost some: { 0 < vec_len members },
}

impl Standings for Panel {
    ghost scores = { λ panel. map (λ m. m.score) panel.members.items };

    ghost answers = { λ panel number.
        map (λ m. (Guesser-box m.guesser).guesses m.guesser.value number) panel.members.items };

    ghost answers_after = { λ panel number reserve n.
        map (λ m. (Guesser-box m.guesser).guesses_after m.guesser.value number reserve n) panel.members.items };

    ghost tells = { λ panel. panel.tells };
}

impl Panel {
    /// A panel of these guessers, in their order, with nothing scored.
    pub fn new(alloc: Global, members: Vec<Box<dyn Guesser>>) -> Result<Panel, AllocError>
        requires { 0 < vec_len members }
        ensures scores { let standings = ⟦<Panel as Standings>⟧ in IfOk result (λ panel.
            standings.scores panel ≡ replicate (vec_len members) 0) }
        ensures answers { let standings = ⟦<Panel as Standings>⟧ in IfOk result (λ panel.
            (n : ℕ) → standings.answers panel n ≡ map (λ m. guesses m n) members.items) }
        ensures tells { let standings = ⟦<Panel as Standings>⟧ in IfOk result (λ panel. standings.tells panel ≡ 0) }
    {
        let members = unscored(alloc, members)?;
        Ok(Panel { members, tells: 0 })
    }

    /// The number of members that are left.
    pub fn members(&self) -> usize
        ensures number { let standings = ⟦<Panel as Standings>⟧ in result ≡ length (standings.scores self.now) }
        ensures some { 0 < result }
    {
        self.members.len()
    }

    /// The score of the member at this place.
    pub fn score(&self, place: usize) -> u128
        requires { let standings = ⟦<Panel as Standings>⟧ in place < length (standings.scores self.now) }
        ensures { let standings = ⟦<Panel as Standings>⟧ in result ≡ slice_index (standings.scores self.now) place }
    {
        self.members[place].score
    }

    /// Drops the member of greatest score, the last of several, and gives its place: `None` where
    /// only one is left.
    pub fn drop_worst(&mut self) -> Option<usize>
        ensures one { let standings = ⟦<Panel as Standings>⟧ in IfNone result
            (length (standings.scores self.old) ≡ 1) }
        ensures unchanged { IfNone result (self.new ≡ self.old) }

        ensures several { let standings = ⟦<Panel as Standings>⟧ in IfSome result (λ _.
            1 < length (standings.scores self.old)) }
        ensures place { let standings = ⟦<Panel as Standings>⟧ in IfSome result (λ place.
            place ≡ worst_place (standings.scores self.old)) }
        ensures scores { let standings = ⟦<Panel as Standings>⟧ in IfSome result (λ place.
            standings.scores self.new ≡ remove (standings.scores self.old) place) }
        ensures answers { let standings = ⟦<Panel as Standings>⟧ in IfSome result (λ place.
            (n : ℕ) → standings.answers self.new n ≡ remove (standings.answers self.old n) place) }
        ensures tells { let standings = ⟦<Panel as Standings>⟧ in standings.tells self.new ≡ standings.tells self.old }
    {
        if self.members.len() == 1 {
            return None;
        }
        let place = worst_member(&self.members);
        self.members.remove(place);
        Some(place)
    }
}

impl Guesser for Panel {
    // The answer of the member of the best score.
    ghost guesses = { λ panel number. guess_of
        (map (λ m. m.score) panel.members.items)
        (map (λ m. (Guesser-box m.guesser).guesses m.guesser.value number) panel.members.items) };

    // The same of the members that are left, each of which was told.
    ghost guesses_after = { λ panel number reserve n. guess_after
        ((panel.tells + 1) % 256)
        (all_risen (map (λ m. m.score) panel.members.items)
        (map (λ m. (Guesser-box m.guesser).guesses m.guesser.value number) panel.members.items) reserve)
        (map (λ m. (Guesser-box m.guesser).guesses_after m.guesser.value number reserve n) panel.members.items) };

    fn tell(&mut self, number: GranuleNo, reserve: u32)
        ensures tells { let standings = ⟦<Panel as Standings>⟧ in
            standings.tells self.new ≡ (standings.tells self.old + 1) % 256 }
        ensures scores { let standings = ⟦<Panel as Standings>⟧ in
            let risen = all_risen (standings.scores self.old) (standings.answers self.old number) reserve in
            standings.scores self.new ≡ after_tell (standings.tells self.new) risen }
        ensures answers { let standings = ⟦<Panel as Standings>⟧ in
            let risen = all_risen (standings.scores self.old) (standings.answers self.old number) reserve in
            (n : ℕ) → standings.answers self.new n
            ≡ kept_answers (standings.tells self.new) risen (standings.answers_after self.old number reserve n) }
        ensures after { let guesser = ⟦<Panel as Guesser>⟧ in
            (n : ℕ) → guesser.guesses self.new n ≡ guesser.guesses_after self.old number reserve n }
    {
        tell_each(&mut self.members, number, reserve);
        self.tells = self.tells.wrapping_add(1);
        if self.tells == 0 {
            self.drop_worst();
        }
    }

    fn guess(&self, number: GranuleNo) -> u32
        ensures { let standings = ⟦<Panel as Standings>⟧ in
            result ≡ guess_of (standings.scores self.now) (standings.answers self.now number) }
    {
        let best = best_member(&self.members);
        self.members[best].guess(number)
    }
}
