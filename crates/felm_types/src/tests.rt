//! Programs over the inputs `x` and `y` of numbers and `click` of units, with what was worked out by hand of each.
//!
//! A program is written in words with its operators in front: `\ n int e` is a function, `@ f a` an application, `lift2 f a b`
//! a lift. The place of an expression or an annotation is the number of its first word, counted from 0.
ghost use Rattle.std.specs.Prelude.{◌≡◌, ◌+◌, ◌≤◌, IsTrue, IfOk, length};
ghost use Rattle.felm_term.specs.CoreType.{is_simple_signal};
ghost use Rattle.felm_syntax.specs.Binders.{binders, binders_of_all};
ghost use Rattle.felm_syntax.specs.ExpressionView.{expression_of_form, expressions_of_form};

use crate::{Checked, TypeFault, check};
use felm_syntax::{Declared, Expr, Exprs, ExprsForm, Form, InputMap, Program, RawTy};
use felm_term::{InputTy, Memory, Name, Op, Ty, TyForm, boxed, same_ty};
use std::alloc::Global;
use std::process::Abort;
use std::str::SplitWhitespace;
use std::test::Fail;

/// How deeply the programs of the tests nest at most.
const DEEPEST: u32 = 40;

#[derive(Drop)]
struct Words<'a> {
    rest: SplitWhitespace<'a>,
    /// The number of the next word.
    at: usize,
    /// How many functions and lets may still come.
    binders: u32,
}

impl<'a> Words<'a> {
    fn of(text: &'a str) -> Self
        ensures { result.binders ≡ 100 }
    {
        Words {
            rest: text.split_whitespace(),
            at: 0,
            binders: 100,
        }
    }

    // The next word, which is empty behind the last one.
    fn take(&mut self) -> &'a str
        ensures { self.new.binders ≡ self.old.binders }
    {
        self.at = self.at.wrapping_add(1);
        self.rest.next().unwrap_or("")
    }
}

fn read_ty(alloc: Global, words: &mut Words, fuel: u32) -> Result<Ty, Memory>
    ensures { words.new.binders ≡ words.old.binders }
{
    if fuel == 0 {
        return Ok(Ty { form: TyForm::Unit });
    }
    match words.take() {
        "int" => Ok(Ty { form: TyForm::Int }),
        "signal" => {
            let of = boxed(alloc, read_ty(alloc, words, fuel - 1)?)?;
            Ok(Ty {
                form: TyForm::Signal(of),
            })
        }
        "->" => {
            let from = boxed(alloc, read_ty(alloc, words, fuel - 1)?)?;
            let to = boxed(alloc, read_ty(alloc, words, fuel - 1)?)?;
            Ok(Ty {
                form: TyForm::Arrow { from, to },
            })
        }
        _ => Ok(Ty { form: TyForm::Unit }),
    }
}

fn expr(alloc: Global, form: Form, at: usize) -> Result<Box<Expr>, Memory>
    ensures { IfOk result (λ expr. expr.value ≡ expression_of_form form at) }
{
    boxed(alloc, Expr { form, at })
}

#[cycle(read)]
fn read(alloc: Global, words: &mut Words, fuel: u32) -> Result<Box<Expr>, Memory>
    ensures { IfOk result (λ expr. binders expr.value + words.new.binders ≤ words.old.binders) }
{
    let at = words.at;
    if fuel == 0 {
        return expr(alloc, Form::Unit, at);
    }
    let fuel = fuel - 1;
    match words.take() {
        "()" => expr(alloc, Form::Unit, at),
        "\\" => read_function(alloc, words, at, fuel),
        "let" => read_let(alloc, words, at, fuel),
        "@" => {
            let function = read(alloc, words, fuel)?;
            let argument = read(alloc, words, fuel)?;
            expr(alloc, Form::App { function, argument }, at)
        }
        "+" => {
            let op = Op::Add;
            let left = read(alloc, words, fuel)?;
            let right = read(alloc, words, fuel)?;
            expr(alloc, Form::Bin { op, left, right }, at)
        }
        "if" => {
            let condition = read(alloc, words, fuel)?;
            let yes = read(alloc, words, fuel)?;
            let no = read(alloc, words, fuel)?;
            expr(alloc, Form::If { condition, yes, no }, at)
        }
        "foldp" => {
            let function = read(alloc, words, fuel)?;
            let base = read(alloc, words, fuel)?;
            let signal = read(alloc, words, fuel)?;
            let form = Form::Foldp {
                function,
                base,
                signal,
            };
            expr(alloc, form, at)
        }
        "async" => {
            let signal = read(alloc, words, fuel)?;
            expr(alloc, Form::Async { signal }, at)
        }
        word => match lift_count(word) {
            Some(count) => read_lift(alloc, words, at, count, fuel),
            None => leaf(alloc, word, at),
        },
    }
}

#[cycle(read)]
fn read_function(
    alloc: Global,
    words: &mut Words,
    at: usize,
    fuel: u32,
) -> Result<Box<Expr>, Memory>
    ensures { IfOk result (λ expr. binders expr.value + words.new.binders ≤ words.old.binders) }
{
    if words.binders == 0 {
        return expr(alloc, Form::Unit, at);
    }
    words.binders -= 1;
    let name = Name::of(alloc, words.take())?;
    let param_at = words.at;
    let ty = read_ty(alloc, words, DEEPEST)?;
    let body = read(alloc, words, fuel)?;
    let param = RawTy { ty, at: param_at };
    expr(alloc, Form::Lam { name, param, body }, at)
}

#[cycle(read)]
fn read_let(alloc: Global, words: &mut Words, at: usize, fuel: u32) -> Result<Box<Expr>, Memory>
    ensures { IfOk result (λ expr. binders expr.value + words.new.binders ≤ words.old.binders) }
{
    if words.binders == 0 {
        return expr(alloc, Form::Unit, at);
    }
    words.binders -= 1;
    let name = Name::of(alloc, words.take())?;
    let bound = read(alloc, words, fuel)?;
    let body = read(alloc, words, fuel)?;
    expr(alloc, Form::Let { name, bound, body }, at)
}

#[cycle(read)]
fn read_lift(
    alloc: Global,
    words: &mut Words,
    at: usize,
    count: u32,
    fuel: u32,
) -> Result<Box<Expr>, Memory>
    ensures { IfOk result (λ expr. binders expr.value + words.new.binders ≤ words.old.binders) }
{
    let function = read(alloc, words, fuel)?;
    let arguments = read_all(alloc, words, count, fuel)?;
    let form = Form::Lift {
        function,
        arguments,
    };
    expr(alloc, form, at)
}

#[cycle(read)]
fn read_all(alloc: Global, words: &mut Words, count: u32, fuel: u32) -> Result<Box<Exprs>, Memory>
    ensures { IfOk result (λ exprs. binders_of_all exprs.value + words.new.binders ≤ words.old.binders) }
{
    if count == 0 || fuel == 0 {
        return exprs(alloc, ExprsForm::End);
    }
    let first = read(alloc, words, fuel - 1)?;
    let rest = read_all(alloc, words, count - 1, fuel - 1)?;
    let form = ExprsForm::More {
        first: Box::into_inner(first),
        rest,
    };
    exprs(alloc, form)
}

fn exprs(alloc: Global, form: ExprsForm) -> Result<Box<Exprs>, Memory>
    ensures { IfOk result (λ exprs. exprs.value ≡ expressions_of_form form) }
{
    boxed(alloc, Exprs { form })
}

fn lift_count(word: &str) -> Option<u32> {
    word.strip_prefix("lift")?.parse().ok()
}

fn leaf(alloc: Global, word: &str, at: usize) -> Result<Box<Expr>, Memory>
    ensures { IfOk result (λ expr. binders expr.value ≡ 0) }
{
    match word.parse() {
        Ok(number) => expr(alloc, Form::Int(number), at),
        Err(_) => expr(alloc, Form::Name(Name::of(alloc, word)?), at),
    }
}

fn inputs(alloc: Global) -> Result<InputMap, Memory>
    ensures { IfOk result (λ inputs. length inputs ≡ 3) }
{
    let int = Declared {
        ty: InputTy::Int,
        default: 7,
    };
    let unit = Declared {
        ty: InputTy::Unit,
        default: 0,
    };
    let mut inputs = InputMap::make(alloc);
    inputs.declare(alloc, "x", int)?;
    inputs.declare(alloc, "y", int)?;
    inputs.declare(alloc, "click", unit)?;
    Ok(inputs)
}

fn checked(alloc: Global, text: &str) -> Result<Checked, TypeFault> {
    let mut words = Words::of(text);
    let main = read(alloc, &mut words, DEEPEST)?;
    let program = Program {
        inputs: inputs(alloc)?,
        main: Box::into_inner(main),
    };
    check(alloc, &program)
}

// A checked program's type is a signal, whoever made it.
fn main_type(checked: &Checked) -> &Ty
    ensures { IsTrue (is_simple_signal result.now) }
{
    &checked.ty
}

fn check_types(rt: &impl Abort, alloc: Global, rows: &[(&str, &str)]) -> Result<(), Memory> {
    for (text, ty) in rows {
        let want = read_ty(alloc, &mut Words::of(ty), DEEPEST)?;
        match checked(alloc, text) {
            Ok(found) => {
                assert!(rt; same_ty(main_type(&found), &want), "{text}");
                assert_eq!(rt; found.inputs.len(), 3, "{text}");
            }
            Err(fault) => panic!(rt; "{text}: {fault}"),
        }
    }
    Ok(())
}

fn check_fault(rt: &impl Abort, alloc: Global, text: &str, want: TypeFault) {
    match checked(alloc, text) {
        Ok(_) => panic!(rt; "{text}: no fault"),
        Err(fault) => assert!(rt; fault == want, "{text}: {fault}"),
    }
}

const TYPED: [(&str, &str); 25] = [
    ("x", "signal int"),
    ("click", "signal unit"),
    ("lift1 \\ n int + n 1 x", "signal int"),
    ("lift1 \\ n int () x", "signal unit"),
    ("lift2 \\ p int \\ q int + p q x y", "signal int"),
    ("lift2 \\ p int \\ u unit p x click", "signal int"),
    (
        "lift9 \\ a int \\ b int \\ c int \\ d int \\ e int \\ f int \\ g int \\ h int \\ i int i x x x x x x x x y",
        "signal int",
    ),
    // A function that takes more values than there are signals.
    ("lift1 \\ p int \\ q int + p q x", "signal -> int int"),
    (
        "lift1 \\ f -> int int @ f 1 lift1 \\ p int \\ q int p x",
        "signal int",
    ),
    ("foldp \\ n int \\ s int + n s 0 x", "signal int"),
    ("foldp \\ u unit \\ s int + s 1 0 click", "signal int"),
    ("foldp \\ n int \\ s unit s () x", "signal unit"),
    ("async x", "signal int"),
    ("async lift1 \\ n int n x", "signal int"),
    ("let s x s", "signal int"),
    ("let n 3 lift1 \\ m int + m n x", "signal int"),
    ("let f \\ n int n lift1 f x", "signal int"),
    ("if 1 x y", "signal int"),
    ("@ \\ s signal int s x", "signal int"),
    ("@ \\ n int x 3", "signal int"),
    (
        "@ \\ f -> signal int signal int @ f x \\ s signal int async s",
        "signal int",
    ),
    // The binder is nearer than the input, and the inner binder than the outer one.
    ("let x 3 lift1 \\ n int + n x y", "signal int"),
    ("lift1 \\ n unit @ \\ n int + n 1 2 click", "signal int"),
    (
        "lift2 \\ a int \\ b unit if let b a b a 0 x click",
        "signal int",
    ),
    // A binder ends with its body.
    ("let n let n () 3 lift1 \\ m int + m n x", "signal int"),
];

#[test]
fn typed_programs_are_accepted(rt: HostRuntime) -> Result<(), Fail> {
    check_types(&rt, rt.alloc(), &TYPED)?;
    Ok(())
}

const MAIN: TypeFault = TypeFault::MainType { at: 0 };

// Each has a type that is no signal of a simple type.
const NO_SIGNALS: [&str; 9] = [
    "3",
    "()",
    "+ 1 2",
    "if 1 2 3",
    "\\ n int n",
    "@ \\ n int n 3",
    "let n 3 + n n",
    "\\ s signal int s",
    "let f \\ s signal int s f",
];

#[test]
fn other_types_are_no_main(rt: HostRuntime) -> Result<(), Fail> {
    for text in &NO_SIGNALS {
        check_fault(&rt, rt.alloc(), text, MAIN);
    }
    Ok(())
}

const UNKNOWN: [(&str, usize); 7] = [
    ("z", 0),
    ("lift1 \\ n int z x", 4),
    // What a let binds is not in its scope, and a binder ends with its body.
    ("let n n x", 2),
    ("@ \\ n int x n", 5),
    // The left part is judged first, and a part before the whole.
    ("+ z w", 1),
    ("+ () z", 2),
    ("lift1 \\ s signal int s z", 6),
];

#[test]
fn names_that_nothing_binds_are_refused(rt: HostRuntime) -> Result<(), Fail> {
    for (text, at) in &UNKNOWN {
        check_fault(&rt, rt.alloc(), text, TypeFault::Unknown { at: *at });
    }
    Ok(())
}

const ILL_FORMED: [(&str, usize); 7] = [
    ("lift1 \\ s signal signal int 0 x", 3),
    ("\\ f -> signal int int 0", 2),
    ("\\ f -> int -> signal int int 0", 2),
    ("\\ s signal -> signal int signal int x", 2),
    // An annotation is judged before the body, and within a body that has no type.
    ("\\ s signal signal int z", 2),
    ("\\ n int + () \\ f -> signal int int z", 7),
    ("let n + 1 \\ s signal signal int 0 z", 6),
];

#[test]
fn ill_formed_annotations_are_refused(rt: HostRuntime) -> Result<(), Fail> {
    for (text, at) in &ILL_FORMED {
        check_fault(&rt, rt.alloc(), text, TypeFault::IllFormed { at: *at });
    }
    Ok(())
}

const UNTYPED: [(&str, usize); 39] = [
    // Functions whose own type is ill formed, alone and as a part.
    ("\\ s signal int 0", 0),
    ("lift1 \\ s signal int 0 x", 1),
    ("@ \\ f -> int int 0 \\ s signal int 0", 7),
    ("let f \\ s signal int 0 x", 2),
    // Applications of no function, and to a value of another type.
    ("@ 3 4", 0),
    ("@ x 4", 0),
    ("@ \\ n int n ()", 0),
    ("@ \\ s signal int s 3", 0),
    ("@ \\ f -> signal int signal int f \\ n int n", 0),
    // Operations on no numbers.
    ("+ () 1", 0),
    ("+ 1 ()", 0),
    ("+ x 1", 0),
    ("+ 1 \\ n int n", 0),
    // Conditions that are no number, and branches of two types.
    ("if () 1 2", 0),
    ("if x 1 2", 0),
    ("if 1 2 ()", 0),
    ("if 1 x click", 0),
    // A let that hides a signal.
    ("let n x 3", 0),
    ("let f \\ s signal int s 3", 0),
    ("let n 1 let s x + n 1", 3),
    // A let is judged by the type of what it binds.
    ("let x 3 lift1 \\ n int n x", 3),
    ("let x () + x 1", 3),
    // Lifts of no simple function, of no signals, of other values, of too many signals or none.
    ("lift1 \\ s signal int s x", 0),
    ("lift1 3 x", 0),
    ("lift1 \\ n int n 3", 0),
    ("lift1 \\ n int n click", 0),
    ("lift2 \\ p int \\ q int p x click", 0),
    ("lift2 \\ p int p x y", 0),
    ("lift0 3", 0),
    (
        "lift10 \\ a int \\ b int \\ c int \\ d int \\ e int \\ f int \\ g int \\ h int \\ i int \\ j int j x x x x x x x x x y",
        0,
    ),
    // Foldps with two parts in each other's places, and of other values.
    ("foldp \\ n int \\ s int + n s x 0", 0),
    ("foldp 0 \\ n int \\ s int + n s x", 0),
    ("foldp \\ s unit \\ n int s () x", 0),
    ("foldp \\ n int \\ s int () 0 x", 0),
    ("foldp \\ n int \\ s int s () x", 0),
    // An async of no signal.
    ("async 3", 0),
    ("async \\ s signal int s", 0),
    // A part before the whole, and the left part before the right one.
    ("+ 1 @ 3 4", 2),
    ("+ + () 1 \\ s signal signal int 0", 1),
];

#[test]
fn untyped_expressions_are_refused(rt: HostRuntime) -> Result<(), Fail> {
    for (text, at) in &UNTYPED {
        check_fault(&rt, rt.alloc(), text, TypeFault::Untyped { at: *at });
    }
    Ok(())
}
