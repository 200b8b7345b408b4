ghost use Rattle.felm_laws.specs.StepLaws.{OneNextPair, ValuesStay, SignalTermsStay, SignalTermsAreFinished, OneEnd, StepsKeepTypes, StepsShareSignalTerms, PairsNeverStick, SimpleTermsNeverStick};

/// A pair has at most one next pair.
pub fn one_next_pair()
    ensures { OneNextPair }
{}

/// A value takes no step.
pub fn values_stay()
    ensures { ValuesStay }
{}

/// A signal term takes no step.
pub fn signal_terms_stay()
    ensures { SignalTermsStay }
{}

/// A signal term finishes a pair.
pub fn signal_terms_are_finished()
    ensures { SignalTermsAreFinished }
{}

/// A pair comes to one end at most, and by one number of steps.
pub fn one_end()
    ensures { OneEnd }
{}

/// Steps keep the type of a pair.
pub fn steps_keep_types()
    ensures { StepsKeepTypes }
{}

/// The shared signals stay signal terms.
pub fn steps_share_signal_terms()
    ensures { StepsShareSignalTerms }
{}

/// A typed pair never gets stuck.
pub fn pairs_never_stick()
    ensures { PairsNeverStick }
{}

/// A closed term of a simple type never gets stuck, and shares nothing.
pub fn simple_terms_never_stick()
    ensures { SimpleTermsNeverStick }
{}
