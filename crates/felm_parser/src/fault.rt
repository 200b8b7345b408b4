//! Faults of a list of tokens.

use felm_term::Memory;
use thiserror::Error;

/// Why tokens are no program. Places count bytes of the text from 0.
#[derive(Clone, Copy, Debug, PartialEq, Eq, Error)]
pub enum ParseFault {
    /// A token that can't follow those before it, or the end of the text where more must follow.
    #[error("syntax error at byte {at}")]
    Syntax { at: usize },
    /// A token that nests too deeply.
    #[error("nested too deeply at byte {at}")]
    Depth { at: usize },
    /// The name of an input that was declared before.
    #[error("input declared twice at byte {at}")]
    Twice { at: usize },
    /// There was no memory for the program.
    #[error("out of memory")]
    Memory,
}

impl From<Memory> for ParseFault {
    ghost use Rattle.std.specs.Prelude.{◌≡◌};
    ghost use Rattle.felm_parser.specs.declared.fault.ParseFault.TheVariants.{Memory as WantOfMemory};

    ghost from_gives = { λ _ fault. fault ≡ WantOfMemory };

    fn from(_: Memory) -> ParseFault {
        ParseFault::Memory
    }
}
