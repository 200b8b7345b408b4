//! Faults of a text.

use felm_term::Memory;
use thiserror::Error;

/// Why a text has no tokens. Places count bytes from 0.
#[derive(Clone, Copy, Debug, PartialEq, Eq, Error)]
pub enum LexFault {
    /// A byte that begins no token, blank or comment, or that a comment may not hold.
    #[error("no token at byte {at}")]
    Byte { at: usize },
    /// The first digit of a number over 9223372036854775808.
    #[error("number too wide at byte {at}")]
    Wide { at: usize },
    /// There was no memory for the tokens.
    #[error("out of memory")]
    Memory,
}

impl From<Memory> for LexFault {
    ghost use Rattle.std.specs.Prelude.{◌≡◌};
    ghost use Rattle.felm_lexer.specs.declared.fault.LexFault.TheVariants.{Memory as WantOfMemory};

    ghost from_gives = { λ _ fault. fault ≡ WantOfMemory };

    fn from(_: Memory) -> LexFault {
        LexFault::Memory
    }
}
