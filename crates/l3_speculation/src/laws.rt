ghost use Rattle.l3_speculation.specs.Laws.{BoardHandsOutSound, FramesAreAFront, RunsAreAlike, RunsAreCounted, RunsAreWhole, RunsGoOn, TrackIsProgress};
ghost use Rattle.l3_speculation.specs.Pieces.{BringsExact, BringsSound, BringsSpared};

/// In every run over right pieces, whatever the guesses and the board, the frames that ended are a
/// front of the chosen ones, and the counts made and reused are the gains that the choice tries.
pub fn speculative_runs_commit_the_choice()
    ensures front { FramesAreAFront }
    ensures progress { TrackIsProgress }
    ensures counted { RunsAreCounted }
    ensures whole { RunsAreWhole }
    ensures alike { RunsAreAlike }
    ensures goes_on { RunsGoOn }
    ensures handed { BoardHandsOutSound }
{}

/// The counts that a piece brings along are the spectrum's own, and just those under its guess;
/// with a guess of the true reserve they are all that the choice tries.
pub fn pieces_bring_exact_counts()
    ensures sound { BringsSound }
    ensures exact { BringsExact }
    ensures spared { BringsSpared }
{}
