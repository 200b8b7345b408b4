//! Faults of types.

use felm_term::Memory;
use thiserror::Error;

/// Why a program has no type. Places count bytes of its text from 0.
#[derive(Clone, Copy, Debug, PartialEq, Eq, Error)]
pub enum TypeFault {
    /// All parts of the expression have types, and it has none.
    #[error("no type at byte {at}")]
    Untyped { at: usize },
    /// A name that nothing binds.
    #[error("unknown name at byte {at}")]
    Unknown { at: usize },
    /// An annotation that is no well-formed type.
    #[error("ill-formed type at byte {at}")]
    IllFormed { at: usize },
    /// The program's expression has a type that is no signal of a simple type.
    #[error("main is no signal at byte {at}")]
    MainType { at: usize },
    /// There was no memory.
    #[error("out of memory")]
    Memory,
}

impl From<Memory> for TypeFault {
    ghost use Rattle.std.specs.Prelude.{◌≡◌};
    ghost use Rattle.felm_types.specs.declared.fault.TypeFault.TheVariants.{Memory as WantOfMemory};

    ghost from_gives = { λ _ fault. fault ≡ WantOfMemory };

    fn from(_: Memory) -> TypeFault {
        TypeFault::Memory
    }
}
