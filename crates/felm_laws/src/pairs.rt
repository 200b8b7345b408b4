ghost use Rattle.felm_laws.specs.PairLaws.{StepsShareAtMostOne, StepsKeepSharedTypes, ProgramsNeverStick};

/// A step shares at most one signal, at the end.
pub fn steps_share_at_most_one()
    ensures { StepsShareAtMostOne }
{}

/// A step keeps the types of earlier shared signals.
pub fn steps_keep_shared_types()
    ensures { StepsKeepSharedTypes }
{}

/// A program never gets stuck, and comes to no value.
pub fn programs_never_stick()
    ensures { ProgramsNeverStick }
{}
