ghost use Rattle.felm_graph.specs.FinishedPair.{OneFinish};

/// A term comes to one finished pair at most, by one number of steps.
pub fn one_finish()
    ensures { OneFinish }
{}
