ghost use Rattle.felm_laws.specs.ContextLaws.{SharedAreSignals, TypesStay};

/// Shared signals are signals of simple types.
pub fn shared_are_signals()
    ensures { SharedAreSignals }
{}

/// More inputs, shared signals and outer binders don't change a term's type.
pub fn types_stay()
    ensures { TypesStay }
{}
