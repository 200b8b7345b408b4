ghost use Rattle.felm_laws.specs.CallLaws.{CallComputes, OneCall};

/// The call that is computed step by step is the one by reduction.
pub fn call_computes()
    ensures { CallComputes }
{}

/// A call gives one value, or none.
pub fn one_call()
    ensures { OneCall }
{}
