ghost use Rattle.felm_laws.specs.TypeLaws.{OneType, InputsAreSignals, TypesAreWellFormed, SubstitutionKeepsTypes, SimpleTermsNameNoSignals, SimpleFunctionsAreValues};

/// A term has at most one type.
pub fn one_type()
    ensures { OneType }
{}

/// Declared inputs are signals of simple types.
pub fn inputs_are_signals()
    ensures { InputsAreSignals }
{}

/// What has a type has a well-formed one.
pub fn types_are_well_formed()
    ensures { TypesAreWellFormed }
{}

/// The substitution of a closed term keeps types.
pub fn substitution_keeps_types()
    ensures { SubstitutionKeepsTypes }
{}

/// A term of a simple type names no signal.
pub fn simple_terms_name_no_signals()
    ensures { SimpleTermsNameNoSignals }
{}

/// A closed function of a simple type may be a value.
pub fn simple_functions_are_values()
    ensures { SimpleFunctionsAreValues }
{}
