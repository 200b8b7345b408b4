//! All of the tokens.
ghost use Rattle.std.specs.Prelude.{◌≡◌, ◌+◌, ◌≤◌, [], length, IfOk, IfErr, IfSome, MatchResult};
ghost use Rattle.felm_lexer.specs.Readings.{Reads as Tokenizes, Whole};
ghost use Rattle.felm_syntax.specs.Binders.{binders};
ghost use Rattle.felm_syntax.specs.FirstFaults.{Fault, IsFirstFault};
ghost use Rattle.felm_syntax.specs.ProgramText.{IsProgram, nesting_limit};
ghost use Rattle.felm_reading.specs.Reading.{all_of, main_of, program_after};
ghost use Rattle.felm_parser.specs.Gives.{Gives, fault_of};

use crate::declarations::declaration;
use crate::expressions::whole;
use crate::fault::ParseFault;
use crate::head::{expect, expect_word, has_word};
use felm_lexer::{Symbol, Token, WordKind};
use felm_syntax::{Expr, InputMap, Program};
use std::alloc::Global;

/// How deeply a token may nest.
const DEEPEST: u32 = 200;

/// An expression to the end of the tokens.
#[tactic(auto, unfolding(felm_reading::specs::Reading::all_of))]
fn all_of(alloc: Global, text: &[u8], room: u32, tokens: &[Token]) -> Result<Expr, ParseFault>
    ensures { Gives (λ expr. expr) result (all_of text.now room tokens.now) }
{
    let (expr, rest) = whole(alloc, text, room, tokens)?;
    match rest {
        [] => Ok(expr),
        [first, ..] => Err(ParseFault::Syntax { at: first.start }),
    }
}

/// The expression of `main`, to the end of the tokens.
#[tactic(auto, unfolding(felm_reading::specs::Reading::main_of))]
fn main_of(alloc: Global, text: &[u8], room: u32, tokens: &[Token]) -> Result<Expr, ParseFault>
    ensures { Gives (λ expr. expr) result (main_of text.now room tokens.now) }
{
    let rest = expect_word(text, WordKind::Main, tokens)?;
    let rest = expect(text, Symbol::Equals, rest)?;
    all_of(alloc, text, room, rest)
}

/// The program that the tokens are, in which tokens may nest so deeply.
#[tactic(auto, using(crate::proofs::Declares::declares))]
fn program(alloc: Global, text: &[u8], room: u32, tokens: &[Token]) -> Result<Program, ParseFault>
    ensures { Gives (λ program. (program.inputs, program.main)) result
        (program_after text.now room [] tokens.now) }
{
    let mut inputs = InputMap::make(alloc);
    let mut rest = tokens;
    'declarations: while has_word(WordKind::Input, rest) {
        let (name, declared, more) = declaration(text, &inputs, rest)?;
        inputs.declare(alloc, name, declared)?;
        rest = more;
    }
    let main = main_of(alloc, text, room, rest)?;
    Ok(Program { inputs, main })
}

/// The program that the grammar reads the tokens of a text as. The tokens are judged from the left,
/// and the first fault stands. The time it takes is in proportion to the text's length.
pub fn parse(alloc: Global, text: &[u8], tokens: &[Token]) -> Result<Program, ParseFault>
    requires { Tokenizes text.now (Whole tokens.now) }

    // The program is the one that the grammar reads, and each program is read.
    ensures program { IfOk result (λ program. IsProgram text.now tokens.now program) }
    ensures accepts { (program : Program) → IsProgram text.now tokens.now program
        → MatchResult result (λ found. found ≡ program) (λ fault. fault ≡ ParseFault.Memory) }
    ensures size { IfOk result (λ program.
        length program.inputs + binders program.main ≤ length text.now) }

    // A refusal is the first fault, and the first fault is refused.
    ensures fault { IfErr result (λ fault. IfSome (fault_of fault)
        (λ first. IsFirstFault text.now nesting_limit tokens.now first)) }
    ensures refuses { (first : Fault) → IsFirstFault text.now nesting_limit tokens.now first
        → MatchResult result (λ _. ⊥) (λ fault. IfSome (fault_of fault) (λ found. found ≡ first)) }
{
    program(alloc, text, DEEPEST, tokens)
}
