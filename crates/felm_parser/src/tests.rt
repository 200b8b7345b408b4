use crate::{ParseFault, parse};
use felm_lexer::{LexFault, tokens};
use felm_syntax::{Expr, Exprs, ExprsForm, Form, Program};
use felm_term::{Ty, TyForm};
use std::alloc::{AllocError, Global};
use std::process::Abort;
use std::test::Fail;

/// The first line of most texts and the beginning of the second: the expression begins at byte 25.
const FRONT: &str = "input x : int = 0\nmain = ";

fn show_type(alloc: Global, ty: &Ty) -> Result<String, AllocError> {
    match &ty.form {
        TyForm::Unit => format!(in alloc; "unit"),
        TyForm::Int => format!(in alloc; "int"),
        TyForm::Arrow { from, to } => {
            let from = show_type(alloc, from)?;
            let to = show_type(alloc, to)?;
            format!(in alloc; "({from} -> {to})")
        }
        TyForm::Signal(of) => {
            let of = show_type(alloc, of)?;
            format!(in alloc; "(signal {of})")
        }
    }
}

/// An expression with all its brackets, and behind each form its place.
#[cycle(show)]
fn show(alloc: Global, expr: &Expr) -> Result<String, AllocError> {
    let at = expr.at;
    match &expr.form {
        Form::Unit => format!(in alloc; "()@{at}"),
        Form::Int(number) => format!(in alloc; "{number}@{at}"),
        Form::Name(name) => format!(in alloc; "{name}@{at}"),
        Form::Lam { name, param, body } => {
            let ty = show_type(alloc, &param.ty)?;
            let body = show(alloc, body)?;
            format!(in alloc; "(\\{name}:{ty}@{}. {body})@{at}", param.at)
        }
        Form::App { function, argument } => {
            let function = show(alloc, function)?;
            let argument = show(alloc, argument)?;
            format!(in alloc; "({function} {argument})@{at}")
        }
        Form::Bin { op, left, right } => {
            let left = show(alloc, left)?;
            let right = show(alloc, right)?;
            format!(in alloc; "({left} {op:?} {right})@{at}")
        }
        Form::If { condition, yes, no } => {
            let condition = show(alloc, condition)?;
            let yes = show(alloc, yes)?;
            let no = show(alloc, no)?;
            format!(in alloc; "(if {condition} then {yes} else {no})@{at}")
        }
        Form::Let { name, bound, body } => {
            let bound = show(alloc, bound)?;
            let body = show(alloc, body)?;
            format!(in alloc; "(let {name} = {bound} in {body})@{at}")
        }
        Form::Lift {
            function,
            arguments,
        } => {
            let function = show(alloc, function)?;
            let arguments = show_all(alloc, arguments)?;
            format!(in alloc; "(lift {function}{arguments})@{at}")
        }
        Form::Foldp {
            function,
            base,
            signal,
        } => {
            let function = show(alloc, function)?;
            let base = show(alloc, base)?;
            let signal = show(alloc, signal)?;
            format!(in alloc; "(foldp {function} {base} {signal})@{at}")
        }
        Form::Async { signal } => {
            let signal = show(alloc, signal)?;
            format!(in alloc; "(async {signal})@{at}")
        }
    }
}

#[cycle(show)]
fn show_all(alloc: Global, exprs: &Exprs) -> Result<String, AllocError> {
    match &exprs.form {
        ExprsForm::End => format!(in alloc; ""),
        ExprsForm::More { first, rest } => {
            let first = show(alloc, first)?;
            let rest = show_all(alloc, rest)?;
            format!(in alloc; " {first}{rest}")
        }
    }
}

/// The inputs with what is declared of them, and the expression.
fn show_program(alloc: Global, program: &Program) -> Result<String, AllocError> {
    let mut shown = String::new(alloc);
    for number in 0..program.inputs.len() {
        if let Some((name, declared)) = program.inputs.at(number) {
            let ty = declared.ty;
            let default = declared.default;
            write!(shown, "{name} {ty:?} {default}; ")?;
        }
    }
    let main = show(alloc, &program.main)?;
    write!(shown, "{main}")?;
    Ok(shown)
}

/// What a text reads as: the program as text, or the fault's message.
fn read(alloc: Global, text: &str) -> Result<String, AllocError> {
    let Ok(tokens) = tokens(alloc, text.as_bytes()) else {
        return format!(in alloc; "no tokens");
    };
    match parse(alloc, text.as_bytes(), tokens.as_slice()) {
        Ok(program) => show_program(alloc, &program),
        Err(fault) => format!(in alloc; "{fault}"),
    }
}

fn check_texts(rt: &impl Abort, alloc: Global, cases: &[(&str, &str)]) -> Result<(), AllocError> {
    for (text, want) in cases {
        let found = read(alloc, text)?;
        assert_eq!(rt; found.as_str(), *want, "in {text}");
    }
    Ok(())
}

/// The same for texts of which only the expression is given, with a line feed behind it.
fn check_expressions(
    rt: &impl Abort,
    alloc: Global,
    cases: &[(&str, &str)],
) -> Result<(), AllocError> {
    for (expression, want) in cases {
        let text = format!(in alloc; "{FRONT}{expression}\n")?;
        let found = read(alloc, text.as_str())?;
        let found = found.as_str();
        let shown = found.strip_prefix("x Int 0; ").unwrap_or(found);
        assert_eq!(rt; shown, *want, "in {expression}");
    }
    Ok(())
}

#[test]
fn every_form_reads_with_its_place(rt: HostRuntime) -> Result<(), Fail> {
    let cases = [
        ("x", "x@25"),
        ("7", "7@25"),
        ("()", "()@25"),
        ("(x)", "x@26"),
        ("((7))", "7@27"),
        ("-7", "-7@25"),
        ("- 7", "-7@25"),
        ("9223372036854775807", "9223372036854775807@25"),
        ("-9223372036854775808", "-9223372036854775808@25"),
        ("\\n:int. n", "(\\n:int@28. n@33)@25"),
        ("let y = x in y", "(let y = x@33 in y@38)@25"),
        ("if x then 1 else 2", "(if x@28 then 1@35 else 2@42)@25"),
        ("f x y", "((f@25 x@27)@27 y@29)@29"),
        ("f (x) ()", "((f@25 x@28)@27 ()@31)@31"),
        ("(f x) y", "((f@26 x@28)@28 y@31)@31"),
        ("f (g x)", "(f@25 (g@28 x@30)@30)@27"),
        ("1 ()", "(1@25 ()@27)@27"),
        ("lift0 x", "(lift0@25 x@31)@31"),
        ("lift1 f x", "(lift f@31 x@33)@25"),
        ("lift2 f 1 2", "(lift f@31 1@33 2@35)@25"),
        ("lift3 f 1 2 3", "(lift f@31 1@33 2@35 3@37)@25"),
        ("lift4 f 1 2 3 4", "(lift f@31 1@33 2@35 3@37 4@39)@25"),
        (
            "lift5 f 1 2 3 4 5",
            "(lift f@31 1@33 2@35 3@37 4@39 5@41)@25",
        ),
        (
            "lift6 f 1 2 3 4 5 6",
            "(lift f@31 1@33 2@35 3@37 4@39 5@41 6@43)@25",
        ),
        (
            "lift7 f 1 2 3 4 5 6 7",
            "(lift f@31 1@33 2@35 3@37 4@39 5@41 6@43 7@45)@25",
        ),
        (
            "lift8 f 1 2 3 4 5 6 7 8",
            "(lift f@31 1@33 2@35 3@37 4@39 5@41 6@43 7@45 8@47)@25",
        ),
        (
            "lift9 f 1 2 3 4 5 6 7 8 9",
            "(lift f@31 1@33 2@35 3@37 4@39 5@41 6@43 7@45 8@47 9@49)@25",
        ),
        ("foldp f 0 x", "(foldp f@31 0@33 x@35)@25"),
        ("async (async x)", "(async (async x@38)@32)@25"),
        (
            "\\f:int->signal int. f",
            "(\\f:(int -> (signal int))@28. f@45)@25",
        ),
        (
            "\\f:int->int->int. f",
            "(\\f:(int -> (int -> int))@28. f@43)@25",
        ),
        (
            "\\f:(int->unit)->signal(unit). f",
            "(\\f:((int -> unit) -> (signal unit))@28. f@55)@25",
        ),
        (
            "\\s:signal (int -> int) -> unit. s",
            "(\\s:((signal (int -> int)) -> unit)@28. s@57)@25",
        ),
        ("\\n:((int)). n", "(\\n:int@28. n@37)@25"),
    ];
    check_expressions(&rt, rt.alloc(), &cases)?;
    Ok(())
}

#[test]
fn operators_group_by_their_levels(rt: HostRuntime) -> Result<(), Fail> {
    let cases = [
        ("a || b", "(a@25 Or b@30)@27"),
        ("a && b", "(a@25 And b@30)@27"),
        ("a == b", "(a@25 Eq b@30)@27"),
        ("a /= b", "(a@25 Ne b@30)@27"),
        ("a < b", "(a@25 Lt b@29)@27"),
        ("a <= b", "(a@25 Le b@30)@27"),
        ("a > b", "(a@25 Gt b@29)@27"),
        ("a >= b", "(a@25 Ge b@30)@27"),
        ("a + b", "(a@25 Add b@29)@27"),
        ("a - b", "(a@25 Sub b@29)@27"),
        ("a * b", "(a@25 Mul b@29)@27"),
        ("a // b", "(a@25 Div b@30)@27"),
        ("a % b", "(a@25 Rem b@29)@27"),
        ("a || b || c", "((a@25 Or b@30)@27 Or c@35)@32"),
        ("a && b && c", "((a@25 And b@30)@27 And c@35)@32"),
        ("a + b - c", "((a@25 Add b@29)@27 Sub c@33)@31"),
        ("a - b + c", "((a@25 Sub b@29)@27 Add c@33)@31"),
        ("a * b // c", "((a@25 Mul b@29)@27 Div c@34)@31"),
        ("a % b * c", "((a@25 Rem b@29)@27 Mul c@33)@31"),
        ("a || b && c", "(a@25 Or (b@30 And c@35)@32)@27"),
        ("a && b || c", "((a@25 And b@30)@27 Or c@35)@32"),
        ("a && b == c", "(a@25 And (b@30 Eq c@35)@32)@27"),
        ("a == b && c", "((a@25 Eq b@30)@27 And c@35)@32"),
        ("a == b + c", "(a@25 Eq (b@30 Add c@34)@32)@27"),
        ("a + b < c", "((a@25 Add b@29)@27 Lt c@33)@31"),
        ("a + b * c", "(a@25 Add (b@29 Mul c@33)@31)@27"),
        ("a * b + c", "((a@25 Mul b@29)@27 Add c@33)@31"),
        ("f x * y", "((f@25 x@27)@27 Mul y@31)@29"),
        ("a * f x", "(a@25 Mul (f@29 x@31)@31)@27"),
        ("f -1", "(f@25 Sub 1@28)@27"),
        ("f (-1)", "(f@25 -1@28)@27"),
        ("a - -1", "(a@25 Sub -1@29)@27"),
        ("-1 - 1", "(-1@25 Sub 1@30)@28"),
        ("(a || b) * c", "((a@26 Or b@31)@28 Mul c@36)@34"),
        ("a * (b == c)", "(a@25 Mul (b@30 Eq c@35)@32)@27"),
        ("(a == b) == c", "((a@26 Eq b@31)@28 Eq c@37)@34"),
        ("lift1 f x + y", "((lift f@31 x@33)@25 Add y@37)@35"),
        (
            "1 + (\\n:int. n) x",
            "(1@25 Add ((\\n:int@33. n@38)@30 x@41)@41)@27",
        ),
        (
            "let y = x in y + 1",
            "(let y = x@33 in (y@38 Add 1@42)@40)@25",
        ),
    ];
    check_expressions(&rt, rt.alloc(), &cases)?;
    Ok(())
}

#[test]
fn expressions_are_refused_at_the_first_token_that_cannot_follow(
    rt: HostRuntime,
) -> Result<(), Fail> {
    let cases = [
        ("", "syntax error at byte 26"),
        ("x )", "syntax error at byte 27"),
        ("(x", "syntax error at byte 28"),
        ("lift2 f a", "syntax error at byte 35"),
        ("lift2 (\\n:int. n) x", "syntax error at byte 45"),
        ("if x then x", "syntax error at byte 37"),
        ("if x else 1", "syntax error at byte 30"),
        ("1 < 2 < 3", "syntax error at byte 31"),
        ("a == b == c", "syntax error at byte 32"),
        ("- x", "syntax error at byte 27"),
        ("-x", "syntax error at byte 26"),
        ("-(1)", "syntax error at byte 26"),
        ("--1", "syntax error at byte 29"),
        ("9223372036854775808", "syntax error at byte 25"),
        ("f 9223372036854775808", "syntax error at byte 27"),
        (
            "lift1 (\\n:int. 9223372036854775808) x",
            "syntax error at byte 40",
        ),
        ("merge x x", "syntax error at byte 25"),
        ("f sampleOn", "syntax error at byte 27"),
        ("f + dropRepeats", "syntax error at byte 29"),
        ("keepIf", "syntax error at byte 25"),
        ("(output)", "syntax error at byte 26"),
        ("let y = x", "syntax error at byte 35"),
        ("let y = x y", "syntax error at byte 37"),
        ("let y x", "syntax error at byte 31"),
        ("let in = x in x", "syntax error at byte 29"),
        ("a + let y = x in y", "syntax error at byte 29"),
        ("a + if a then a else a", "syntax error at byte 29"),
        ("a + \\n:int. n", "syntax error at byte 29"),
        ("f \\n:int. n", "syntax error at byte 27"),
        ("f foldp g 0 x", "syntax error at byte 27"),
        ("async async x", "syntax error at byte 31"),
        ("a +", "syntax error at byte 29"),
        ("a + * b", "syntax error at byte 29"),
        ("\\x. x", "syntax error at byte 27"),
        ("\\x:. x", "syntax error at byte 28"),
        ("\\x:int x", "syntax error at byte 32"),
        ("\\x:signal signal int. x", "syntax error at byte 35"),
        ("\\x:int->. x", "syntax error at byte 33"),
        ("\\x:(int. x", "syntax error at byte 32"),
        ("\\3:int. x", "syntax error at byte 26"),
        ("x = 1", "syntax error at byte 27"),
        ("x : int", "syntax error at byte 27"),
        ("x main", "syntax error at byte 27"),
        ("x -> y", "syntax error at byte 27"),
    ];
    check_expressions(&rt, rt.alloc(), &cases)?;
    Ok(())
}

#[test]
fn declarations_read_in_order(rt: HostRuntime) -> Result<(), Fail> {
    let cases = [
        ("main = 1", "1@7"),
        (
            "input b : int = 7 input a : unit = () input c : int = -5\nmain = a",
            "b Int 7; a Unit 0; c Int -5; a@64",
        ),
        (
            "input x : int = -9223372036854775808 main = x",
            "x Int -9223372036854775808; x@44",
        ),
        ("", "syntax error at byte 0"),
        ("x", "syntax error at byte 0"),
        ("main", "syntax error at byte 4"),
        ("main x", "syntax error at byte 5"),
        ("main = x input", "syntax error at byte 9"),
        ("input main : int = 0", "syntax error at byte 6"),
        ("input x int = 0", "syntax error at byte 8"),
        ("input x : signal int = 0", "syntax error at byte 10"),
        ("input x : unit = 0", "syntax error at byte 17"),
        ("input x : int = ()", "syntax error at byte 16"),
        ("input x : int = y", "syntax error at byte 16"),
        (
            "input x : int = 9223372036854775808",
            "syntax error at byte 16",
        ),
        ("input x : int = - -1", "syntax error at byte 18"),
        ("input x : unit = (1)", "syntax error at byte 18"),
        ("input x : int = 0", "syntax error at byte 17"),
        (
            "input x : int = 0\nmain = let y =",
            "syntax error at byte 32",
        ),
        (
            "input x : int = 0\ninput x : int = 1\nmain = x\n",
            "input declared twice at byte 24",
        ),
        (
            "input x : int = 0\ninput x ) merge",
            "input declared twice at byte 24",
        ),
        (
            "input x : int = 0\ninput x",
            "input declared twice at byte 24",
        ),
        (
            "input x : int = 0\ninput y : unit = ()\ninput y : int = 1",
            "input declared twice at byte 44",
        ),
        ("input x : int = 0\ninput (x", "syntax error at byte 24"),
    ];
    check_texts(&rt, rt.alloc(), &cases)?;
    Ok(())
}

/// A program in which no token can be left out. Blanks stand between all of them.
const SMALL: &str =
    "input x : int = - 5\ninput u : unit = ( )\nmain = let f = \\ n : signal int -> unit . if n then ( ) else ( n * 2 ) in foldp f 0 ( async x )\n";

#[test]
fn each_token_of_a_program_is_needed(rt: HostRuntime) -> Result<(), Fail> {
    let alloc = rt.alloc();
    let bytes = SMALL.as_bytes();
    let Ok(all) = tokens(alloc, bytes) else {
        assert!(&rt; false, "no tokens");
        return Ok(());
    };
    for token in all.as_slice() {
        let start = token.start;
        let before = SMALL.get(..token.start).unwrap_or("");
        let behind = SMALL.get(token.end..).unwrap_or("");
        let found = read(alloc, before)?;
        let want = format!(in alloc; "syntax error at byte {start}")?;
        assert_eq!(&rt; found.as_str(), want.as_str(), "cut at {start}");
        let replaced = format!(in alloc; "{before}output{behind}")?;
        let found = read(alloc, replaced.as_str())?;
        assert_eq!(&rt; found.as_str(), want.as_str(), "replaced at {start}");
    }
    Ok(())
}

/// Whether a text is read, or else the fault's message.
fn verdict(alloc: Global, text: &str) -> Result<String, AllocError> {
    let Ok(tokens) = tokens(alloc, text.as_bytes()) else {
        return format!(in alloc; "no tokens");
    };
    match parse(alloc, text.as_bytes(), tokens.as_slice()) {
        Ok(_) => format!(in alloc; "read"),
        Err(fault) => format!(in alloc; "{fault}"),
    }
}

/// A text with so many copies of a part in the middle of the expression.
fn repeated(
    alloc: Global,
    before: &str,
    part: &str,
    count: u32,
    behind: &str,
) -> Result<String, AllocError> {
    let mut text = String::new(alloc);
    text.push_str(FRONT)?;
    text.push_str(before)?;
    for _ in 0..count {
        text.push_str(part)?;
    }
    text.push_str(behind)?;
    Ok(text)
}

#[test]
fn tokens_nest_two_hundred_deep(rt: HostRuntime) -> Result<(), Fail> {
    let alloc = rt.alloc();
    let cases = [
        ("x", "+x", 199, "", "read"),
        ("x", "+x", 200, "", "nested too deeply at byte 425"),
        ("x", "+x", 201, "", "nested too deeply at byte 425"),
        ("x", "+x", 199, "+)", "syntax error at byte 425"),
        ("x", "*x", 200, "", "nested too deeply at byte 425"),
        ("x", "&&x", 199, "==x", "read"),
        ("x", "||x", 200, "", "nested too deeply at byte 625"),
        ("f", " x", 200, "", "read"),
        ("f", " x", 201, "", "nested too deeply at byte 427"),
        ("f", " x", 202, "", "nested too deeply at byte 427"),
        ("f", " x", 200, " )", "syntax error at byte 427"),
        ("f", " x", 200, "+x", "read"),
        ("", "(", 200, ")", "syntax error at byte 226"),
        ("", "(", 200, "+", "syntax error at byte 225"),
        ("", "(", 200, "x merge", "nested too deeply at byte 225"),
        ("\\t:", "(", 199, "", "syntax error at byte 227"),
        ("\\t:", "(", 199, "int", "nested too deeply at byte 227"),
        ("\\t:", "int->", 198, "int. x", "read"),
        (
            "\\t:",
            "int->",
            199,
            "int. x",
            "nested too deeply at byte 1023",
        ),
    ];
    for (before, part, count, behind, want) in cases {
        let text = repeated(alloc, before, part, count, behind)?;
        let found = verdict(alloc, text.as_str())?;
        assert_eq!(&rt; found.as_str(), want, "at {count} {part}");
    }
    Ok(())
}

#[test]
fn brackets_nest_199_deep(rt: HostRuntime) -> Result<(), Fail> {
    let alloc = rt.alloc();
    for (count, want) in [(199, "read"), (200, "nested too deeply at byte 225")] {
        let mut text = repeated(alloc, "", "(", count, "x")?;
        for _ in 0..count {
            text.push_str(")")?;
        }
        let found = verdict(alloc, text.as_str())?;
        assert_eq!(&rt; found.as_str(), want, "at {count}");
    }
    Ok(())
}

/// An ordinary program: a counter page with two buttons and a step field.
const PAGE: &str = "-- A counter page: two buttons and a step field.
input up : unit = ()
input down : unit = ()
input step : int = 1

main =
  let size = lift1 (\\n:int. if n < 1 then 1 else n) step in
  let ups = foldp (\\u:unit.\\c:int. c + 1) 0 up in
  let downs = foldp (\\u:unit.\\c:int. c + 1) 0 down in
  let slow = async (lift2 (\\a:int.\\b:int. a - b) ups downs) in
  lift2 (\\c:int.\\k:int. c * k) slow size
";

/// The place of a text's fault, if it has one.
fn fault_place(alloc: Global, text: &[u8]) -> Option<usize> {
    let tokens = match tokens(alloc, text) {
        Ok(tokens) => tokens,
        Err(LexFault::Byte { at }) => return Some(at),
        Err(LexFault::Wide { at }) => return Some(at),
        Err(LexFault::Memory) => return None,
    };
    match parse(alloc, text, tokens.as_slice()) {
        Err(ParseFault::Syntax { at }) => Some(at),
        Err(ParseFault::Depth { at }) => Some(at),
        Err(ParseFault::Twice { at }) => Some(at),
        _ => None,
    }
}

#[test]
fn cuts_after_each_byte_are_read_or_refused_within(rt: HostRuntime) -> Result<(), Fail> {
    let alloc = rt.alloc();
    let bytes = PAGE.as_bytes();
    for cut in 0..bytes.len() + 1 {
        let at = fault_place(alloc, bytes.get(..cut).unwrap_or(b"")).unwrap_or(0);
        assert!(&rt; at <= cut, "cut at {cut}");
    }
    assert!(&rt; fault_place(alloc, bytes).is_none(), "whole");
    Ok(())
}
