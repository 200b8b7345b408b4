//! Faults of a script.
ghost use Rattle.std.specs.Prelude.{◌≡◌};
ghost use Rattle.felm_script.specs.Script.{fault_of};

use felm_term::Memory;
use thiserror::Error;

/// Why a script is refused: the first of its lines that is, counted from 1.
#[derive(Clone, Copy, Debug, PartialEq, Eq, Error)]
pub enum ScriptFault {
    /// The line holds a byte that no text may hold, or isn't skipped and has more fields than an event.
    #[error("line {line} is no event")]
    Line { line: u64 },
    /// The first field of the line is no declared input.
    #[error("line {line} names no input")]
    Name { line: u64 },
    /// The second field isn't as the input's type asks, or it is missing.
    #[error("line {line} has a wrong value")]
    Literal { line: u64 },
    /// There was no memory for the events or for the table of names.
    #[error("out of memory")]
    Memory,
}

impl From<Memory> for ScriptFault {
    ghost use Rattle.std.specs.Prelude.{◌≡◌};
    ghost use Rattle.felm_script.specs.declared.fault.ScriptFault.TheVariants.{Memory as WantOfMemory};

    ghost from_gives = { λ _ fault. fault ≡ WantOfMemory };

    fn from(_: Memory) -> ScriptFault {
        ScriptFault::Memory
    }
}

/// Why a line is refused.
#[derive(Clone, Copy, Debug, PartialEq, Eq)]
pub enum Cause {
    /// It holds a byte that no text may hold, or isn't skipped and has too many fields.
    Line,
    /// Its first field is no declared input.
    Name,
    /// Its second field isn't as the input's type asks, or it is missing.
    Literal,
}

impl Cause {
    /// The fault of the line with this number.
    pub fn at(self, line: u64) -> ScriptFault
        ensures { result ≡ fault_of self line }
    {
        match self {
            Cause::Line => ScriptFault::Line { line },
            Cause::Name => ScriptFault::Name { line },
            Cause::Literal => ScriptFault::Literal { line },
        }
    }
}
