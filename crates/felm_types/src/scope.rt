//! The binders around an expression.
ghost use Rattle.std.specs.Prelude.{◌≡◌, ◌<◌, ◌^◌, Some, IfSome, IfNone, length, position, bytes_eq, slice_get};
ghost use Rattle.std.specs.Option.{option_map};
ghost use Rattle.felm_types.specs.Binder.{names, types};
ghost use Rattle.felm_types.specs.Scope.{binders_in};

use felm_term::{Name, Ty};

/// The binders around an expression. Contracts see them by `binders_in`, the nearest first.
#[derive(Clone, Copy)]
pub enum Scope<'a> {
    /// No binder.
    Outside,
    /// One binder more.
    Under {
        name: &'a Name,
        ty: &'a Ty,
        outer: &'a Scope<'a>,
    },
}

/// A binder that a name stands for.
#[derive(Drop)]
pub struct Found<'a> {
    /// How many other binders stand between the name and it.
    pub binders: u32,
    pub ty: &'a Ty,
}

impl Scope<'_> {
    /// The nearest binder of this name.
    pub fn find(&self, name: &Name) -> Option<Found<'_>>
        requires { length (binders_in self.now) < 2 ^ 31 }
        ensures binders { option_map (λ found. found.binders) result
            ≡ position (bytes_eq name.now) (names (binders_in self.now)) }
        ensures ty { IfSome result (λ found.
            slice_get (types (binders_in self.now)) found.binders ≡ Some found.ty.now) }
        ensures within { IfSome result (λ found. found.binders < length (binders_in self.now)) }
    {
        match self {
            Scope::Outside => None,
            Scope::Under {
                name: bound,
                ty,
                outer,
            } => {
                if name.as_str() == bound.as_str() {
                    return Some(Found { binders: 0, ty });
                }
                let found = outer.find(name)?;
                Some(Found {
                    binders: found.binders + 1,
                    ty: found.ty,
                })
            }
        }
    }
}
