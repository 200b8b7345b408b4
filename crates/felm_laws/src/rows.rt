ghost use Rattle.felm_laws.specs.Rows.{HaveTypesOfRows, typing_rows, AreSteps, step_rows, HaveNoSteps, still_rows, AreCalls, call_rows};

/// Terms have the types that were worked out by hand, or none.
pub fn rows_of_types()
    ensures { HaveTypesOfRows typing_rows }
{}

/// Pairs step, or don't, as was worked out by hand.
pub fn rows_of_steps()
    ensures steps { AreSteps step_rows }
    ensures still { HaveNoSteps still_rows }
{}

/// Calls give what was worked out by hand.
pub fn rows_of_calls()
    ensures { AreCalls call_rows }
{}
