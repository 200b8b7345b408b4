ghost use Rattle.felm_laws.specs.SubstitutionLaws.{OuterSubstitutionKeepsTypes, ValuesKeepTypes, ClosedTermsStay, SubstitutionsCommute};

/// The substitution of a closed term for the outermost variable keeps types.
pub fn outer_substitution_keeps_types()
    ensures { OuterSubstitutionKeepsTypes }
{}

/// The substitution of a value keeps types.
pub fn values_keep_types()
    ensures { ValuesKeepTypes }
{}

/// A substitution leaves a closed term as it is.
pub fn closed_terms_stay()
    ensures { ClosedTermsStay }
{}

/// Substitutions of closed terms for two variables may be made in either order.
pub fn substitutions_commute()
    ensures { SubstitutionsCommute }
{}
