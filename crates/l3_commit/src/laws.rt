ghost use Rattle.l3_commit.specs.Laws.{ChosenWell, ChosenFollow, ChosenFit, ChosenAlone};

/// The chosen frames of any settings and samples fit
/// one after the other, and so they spell the encoding.
pub fn chosen_frames_fit()
    ensures well { ChosenWell }
    ensures follow { ChosenFollow }
    ensures fit { ChosenFit }
{}

/// No other frames spell the encoding.
pub fn chosen_frames_are_alone()
    ensures { ChosenAlone }
{}
