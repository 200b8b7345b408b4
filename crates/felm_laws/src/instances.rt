ghost use Rattle.felm_laws.specs.Instances.{AreValues, value_rows, AreFinished, finish_rows, AreGiven, operator_rows};

/// Terms come to values and to finished pairs in the numbers of steps that were worked out by hand.
pub fn runs_worked_by_hand()
    ensures values { AreValues value_rows }
    ensures finished { AreFinished finish_rows }
{}

/// Operators give the numbers that were worked out by hand.
pub fn operators_worked_by_hand()
    ensures { AreGiven operator_rows }
{}
