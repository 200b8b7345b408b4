//! Laws on types and faults. Each function's contract is a law, and its body does nothing.
ghost use Rattle.std.specs.Prelude.{◌≡◌, ◌↔◌, List, Some, None};
ghost use Rattle.felm_term.specs.CoreType.{CoreType};
ghost use Rattle.felm_term.specs.declared.input.InputDecl.{InputDecl};
ghost use Rattle.felm_syntax.specs.Expression.{Expression};
ghost use Rattle.felm_types.specs.Binder.{Binder};
ghost use Rattle.felm_types.specs.Typed.{IsOfType};
ghost use Rattle.felm_types.specs.FirstFault.{type_in, first_fault};

/// The type of an expression by which faults are told is the one that typing gives.
pub fn types_are_by_typing()
    ensures { (inputs : List InputDecl) (g : List Binder) (e : Expression) (u : CoreType)
        → (type_in inputs g e ≡ Some u) ↔ IsOfType inputs g e u }
{}

/// An expression has a first fault exactly where it has no type.
#[tactic(auto, using(crate::proofs::FirstFaults::no_fault_typed))]
pub fn faults_are_of_the_untyped()
    ensures { (inputs : List InputDecl) (g : List Binder) (e : Expression)
        → (first_fault inputs g e ≡ None) ↔ ((u : CoreType) × IsOfType inputs g e u) }
{}
