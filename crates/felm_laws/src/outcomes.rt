ghost use Rattle.felm_laws.specs.OutcomeLaws.{RunsAreUnique, EndedRunsAreLongest, ValuesAreUnique, ValuesHaveTheType, BudgetsDecide, OverIsExact};

/// The same number of steps leads to the same pair.
pub fn runs_are_unique()
    ensures { RunsAreUnique }
{}

/// No run is longer than one that ended.
pub fn ended_runs_are_longest()
    ensures { EndedRunsAreLongest }
{}

/// A term reaches at most one value, by one number of steps.
pub fn values_are_unique()
    ensures { ValuesAreUnique }
{}

/// A value has the type of the term that reaches it.
pub fn values_have_the_type()
    ensures { ValuesHaveTheType }
{}

/// A closed term of a simple type has a value within a budget, or takes more steps.
pub fn budgets_decide()
    ensures { BudgetsDecide }
{}

/// Such a term takes more steps than a budget exactly where it has no value within it.
pub fn over_is_exact()
    ensures { OverIsExact }
{}
