//! Laws of how runs end. Each function's contract states a law; its body does nothing.
ghost use Rattle.felm_plain.specs.Laws.{OneEnd, EndsAreExact, CompleteEndsAreComplete, StoppedEndsAreStopped, FullEndsAreFull, RunsComplete};

/// Two ends of one plan are of one kind, with the same parts.
pub fn one_end()
    ensures { OneEnd }
{}

/// The end of a plan is of the kind that its plain journal asks for.
pub fn ends_are_exact()
    ensures { EndsAreExact }
{}

/// A run that ends complete has a complete journal.
pub fn complete_ends_are_complete()
    ensures { CompleteEndsAreComplete }
{}

/// Where a run stops, the call of that node at that position is over budget.
pub fn stopped_ends_are_stopped()
    ensures { StoppedEndsAreStopped }
{}

/// Where a run is full, something was still to enter.
pub fn full_ends_are_full()
    ensures { FullEndsAreFull }
{}

/// A run is complete where every message is there and the limit is no less than any legal journal.
pub fn runs_complete()
    ensures { RunsComplete }
{}
