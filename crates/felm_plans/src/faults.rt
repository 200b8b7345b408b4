//! The statuses of what is wrong with texts.
ghost use Rattle.std.specs.Prelude.{◌≡◌};
ghost use Rattle.felm_plans.specs.Status.{status_of_lex_fault, status_of_parse_fault, status_of_type_fault, status_of_script_fault};

use felm_lexer::LexFault;
use felm_parser::ParseFault;
use felm_printer::{ScriptCause, Status, SyntaxCause, TypingCause};
use felm_script::ScriptFault;
use felm_types::TypeFault;

/// The status of a text that has no tokens.
pub fn status_of_lex_fault(fault: LexFault) -> Status
    ensures { result ≡ status_of_lex_fault fault }
{
    let (cause, at) = match fault {
        LexFault::Byte { at } => (SyntaxCause::NoToken, at),
        LexFault::Wide { at } => (SyntaxCause::Wide, at),
        LexFault::Memory => return Status::Memory,
    };
    Status::Syntax { cause, at }
}

/// The status of tokens that are no program.
pub fn status_of_parse_fault(fault: ParseFault) -> Status
    ensures { result ≡ status_of_parse_fault fault }
{
    let (cause, at) = match fault {
        ParseFault::Syntax { at } => (SyntaxCause::Grammar, at),
        ParseFault::Depth { at } => (SyntaxCause::Depth, at),
        ParseFault::Twice { at } => (SyntaxCause::Twice, at),
        ParseFault::Memory => return Status::Memory,
    };
    Status::Syntax { cause, at }
}

/// The status of a program that has no type.
pub fn status_of_type_fault(fault: TypeFault) -> Status
    ensures { result ≡ status_of_type_fault fault }
{
    let (cause, at) = match fault {
        TypeFault::Untyped { at } => (TypingCause::Untyped, at),
        TypeFault::Unknown { at } => (TypingCause::Unknown, at),
        TypeFault::IllFormed { at } => (TypingCause::IllFormed, at),
        TypeFault::MainType { at } => (TypingCause::MainType, at),
        TypeFault::Memory => return Status::Memory,
    };
    Status::Typing { cause, at }
}

/// The status of a script that is refused.
pub fn status_of_script_fault(fault: ScriptFault) -> Status
    ensures { result ≡ status_of_script_fault fault }
{
    let (cause, line) = match fault {
        ScriptFault::Line { line } => (ScriptCause::Line, line),
        ScriptFault::Name { line } => (ScriptCause::Name, line),
        ScriptFault::Literal { line } => (ScriptCause::Literal, line),
        ScriptFault::Memory => return Status::Memory,
    };
    Status::Script { cause, line }
}
