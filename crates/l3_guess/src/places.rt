ghost use Rattle.std.specs.Prelude.{◌≡◌, ◌<◌, length, map};
ghost use Rattle.l3_guess.specs.Scores.{best_place, worst_place};

use crate::member::Member;

/// The place of the first member of least score.
pub fn best_member(members: &[Member]) -> usize
    requires { 0 < length members.now }
    ensures place { result ≡ best_place (map (λ m. m.score) members.now) }
    ensures among { result < length members.now }
{
    let mut best = 0;
    for place in 1..members.len() {
        if members[place].score < members[best].score {
            best = place;
        }
    }
    best
}

/// The place of the last member of greatest score.
pub fn worst_member(members: &[Member]) -> usize
    requires { 0 < length members.now }
    ensures place { result ≡ worst_place (map (λ m. m.score) members.now) }
    ensures among { result < length members.now }
{
    let mut worst = 0;
    for place in 1..members.len() {
        if members[place].score >= members[worst].score {
            worst = place;
        }
    }
    worst
}
