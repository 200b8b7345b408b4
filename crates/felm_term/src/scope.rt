ghost use Rattle.std.specs.Prelude.{◌≡◌, slice_get};
ghost use Rattle.std.specs.Option.{option_copied};
ghost use Rattle.felm_term.specs.Scope.{types_in};

use crate::ty::Ty;

/// The binders around a term. Contracts see their types by `types_in`, the nearest first.
#[derive(Clone, Copy)]
pub enum Scope<'a> {
    /// No binder.
    Outside,
    /// One binder more.
    Under { ty: &'a Ty, outer: &'a Scope<'a> },
}

impl Scope<'_> {
    /// The type of the binder that is so many binders out.
    pub fn at(&self, binders: u32) -> Option<&Ty>
        ensures { option_copied result ≡ slice_get (types_in self.now) binders }
    {
        match self {
            Scope::Outside => None,
            Scope::Under { ty, outer } => {
                if binders == 0 {
                    Some(ty)
                } else {
                    outer.at(binders - 1)
                }
            }
        }
    }
}
