ghost use Rattle.std.specs.Prelude.{IfOk, IsTrue};
ghost use Rattle.felm_term.specs.Typing.{HasSimpleType};

use super::{Reduced, reduce};
use felm_term::{Memory, Op, Scope, Term, TermForm, Ty, TyForm, boxed, same_term, type_of};
use std::alloc::Global;
use std::process::Abort;

// A term is built around its parts, of which each may lack memory.

fn unit() -> Result<Term, Memory> {
    Ok(Term {
        form: TermForm::Unit,
    })
}

fn int(number: i64) -> Result<Term, Memory> {
    Ok(Term {
        form: TermForm::Int(number),
    })
}

fn var(binders: u32) -> Result<Term, Memory> {
    Ok(Term {
        form: TermForm::Var(binders),
    })
}

// A function that takes a value of this type.
fn takes(alloc: Global, param: TyForm, body: Result<Term, Memory>) -> Result<Term, Memory> {
    let param = Ty { form: param };
    let body = boxed(alloc, body?)?;
    Ok(Term {
        form: TermForm::Lam { param, body },
    })
}

fn function(alloc: Global, body: Result<Term, Memory>) -> Result<Term, Memory> {
    takes(alloc, TyForm::Int, body)
}

fn apply(
    alloc: Global,
    function: Result<Term, Memory>,
    argument: Result<Term, Memory>,
) -> Result<Term, Memory> {
    let function = boxed(alloc, function?)?;
    let argument = boxed(alloc, argument?)?;
    Ok(Term {
        form: TermForm::App { function, argument },
    })
}

fn operate(
    alloc: Global,
    op: Op,
    left: Result<Term, Memory>,
    right: Result<Term, Memory>,
) -> Result<Term, Memory> {
    let left = boxed(alloc, left?)?;
    let right = boxed(alloc, right?)?;
    Ok(Term {
        form: TermForm::Bin { op, left, right },
    })
}

fn choose(
    alloc: Global,
    condition: Result<Term, Memory>,
    yes: Result<Term, Memory>,
    no: Result<Term, Memory>,
) -> Result<Term, Memory> {
    let condition = boxed(alloc, condition?)?;
    let yes = boxed(alloc, yes?)?;
    let no = boxed(alloc, no?)?;
    Ok(Term {
        form: TermForm::If { condition, yes, no },
    })
}

fn bind(
    alloc: Global,
    bound: Result<Term, Memory>,
    body: Result<Term, Memory>,
) -> Result<Term, Memory> {
    let bound = boxed(alloc, bound?)?;
    let body = boxed(alloc, body?)?;
    Ok(Term {
        form: TermForm::Let { bound, body },
    })
}

// The function that adds a number to its own.
fn adds(alloc: Global, number: i64) -> Result<Term, Memory> {
    function(alloc, operate(alloc, Op::Add, var(0), int(number)))
}

fn has_simple_type(alloc: Global, term: &Term) -> Result<bool, Memory>
    ensures { IfOk result (λ simple. IsTrue simple → HasSimpleType term.now) }
{
    match type_of(alloc, term, &Scope::Outside, &[], &[])? {
        Some(ty) => Ok(ty.is_simple()),
        None => Ok(false),
    }
}

// Exactly so many steps lead to the value: the budget of one step less is too small.
fn takes_steps(
    rt: &impl Abort,
    alloc: Global,
    term: Result<Term, Memory>,
    steps: u64,
    value: Result<Term, Memory>,
) -> Result<(), Memory> {
    let term = term?;
    let value = value?;
    assert!(rt; has_simple_type(alloc, &term)?, "{term:?}");
    gives(rt, alloc, &term, steps, steps, &value)?;
    gives(rt, alloc, &term, u64::MAX, steps, &value)?;
    if steps > 0 {
        let copy = term.copy(alloc)?;
        let over = matches!(&reduce(alloc, copy, steps - 1)?, Reduced::Over);
        assert!(rt; over, "{term:?}");
    }
    Ok(())
}

fn gives(
    rt: &impl Abort,
    alloc: Global,
    term: &Term,
    budget: u64,
    steps: u64,
    value: &Term,
) -> Result<(), Memory>
    requires { HasSimpleType term.now }
{
    match reduce(alloc, term.copy(alloc)?, budget)? {
        Reduced::Value {
            value: found,
            steps: taken,
        } => {
            assert_eq!(rt; taken, steps, "{term:?}");
            let found = found.to_term(alloc)?;
            assert!(rt; same_term(&found, value), "{found:?}");
        }
        Reduced::Over => panic!(rt; "over: {term:?}"),
    }
    Ok(())
}

#[test]
fn each_rule_is_one_step(rt: HostRuntime) -> Result<(), Memory> {
    let alloc = rt.alloc();
    // \x:int. 1 + 2 stays as it is
    let inside = function(alloc, operate(alloc, Op::Add, int(1), int(2)));
    let same = function(alloc, operate(alloc, Op::Add, int(1), int(2)));
    takes_steps(&rt, alloc, unit(), 0, unit())?;
    takes_steps(&rt, alloc, int(7), 0, int(7))?;
    takes_steps(&rt, alloc, inside, 0, same)?;
    // 6 * 7
    let product = operate(alloc, Op::Mul, int(6), int(7));
    takes_steps(&rt, alloc, product, 1, int(42))?;
    // if -2 then 10 else 1 + 2, if 0 then 1 + 2 else 20
    let sum = operate(alloc, Op::Add, int(1), int(2));
    takes_steps(&rt, alloc, choose(alloc, int(-2), int(10), sum), 1, int(10))?;
    let sum = operate(alloc, Op::Add, int(1), int(2));
    takes_steps(&rt, alloc, choose(alloc, int(0), sum, int(20)), 1, int(20))?;
    // let x = () in x
    takes_steps(&rt, alloc, bind(alloc, unit(), var(0)), 1, unit())?;
    // (\n:int. n + 1) 4, by an application, a let and a sum
    takes_steps(&rt, alloc, apply(alloc, adds(alloc, 1), int(4)), 3, int(5))?;
    Ok(())
}

#[test]
fn each_place_is_stepped_in(rt: HostRuntime) -> Result<(), Memory> {
    let alloc = rt.alloc();
    // (7 - 2) - 3, then 7 - (2 - 3)
    let left = operate(alloc, Op::Sub, int(7), int(2));
    takes_steps(&rt, alloc, operate(alloc, Op::Sub, left, int(3)), 2, int(2))?;
    let right = operate(alloc, Op::Sub, int(2), int(3));
    takes_steps(
        &rt,
        alloc,
        operate(alloc, Op::Sub, int(7), right),
        2,
        int(8),
    )?;
    // if 1 - 1 then 10 else 20
    let condition = operate(alloc, Op::Sub, int(1), int(1));
    let chosen = choose(alloc, condition, int(10), int(20));
    takes_steps(&rt, alloc, chosen, 2, int(20))?;
    // (if 1 then \x:int. x + 1 else \x:int. x + 2) 4
    let added = choose(alloc, int(1), adds(alloc, 1), adds(alloc, 2));
    takes_steps(&rt, alloc, apply(alloc, added, int(4)), 4, int(5))?;
    // let x = 1 + 2 in x * x
    let bound = operate(alloc, Op::Add, int(1), int(2));
    let square = operate(alloc, Op::Mul, var(0), var(0));
    takes_steps(&rt, alloc, bind(alloc, bound, square), 3, int(9))?;
    // (\x:int. 7) (1 + 2): the sum is evaluated in the let, though nothing uses it
    let argument = operate(alloc, Op::Add, int(1), int(2));
    let ignored = apply(alloc, function(alloc, int(7)), argument);
    takes_steps(&rt, alloc, ignored, 3, int(7))?;
    // 0 && 1 // 0, and 1 || 2 + 3: the right operand is evaluated all the same
    let quotient = operate(alloc, Op::Div, int(1), int(0));
    takes_steps(
        &rt,
        alloc,
        operate(alloc, Op::And, int(0), quotient),
        2,
        int(0),
    )?;
    let sum = operate(alloc, Op::Add, int(2), int(3));
    takes_steps(&rt, alloc, operate(alloc, Op::Or, int(1), sum), 2, int(1))?;
    Ok(())
}

#[test]
fn steps_add_up(rt: HostRuntime) -> Result<(), Memory> {
    let alloc = rt.alloc();
    // if (if 0 then 1 else 2) then (if 0 then 3 else 4) else 5
    let condition = choose(alloc, int(0), int(1), int(2));
    let yes = choose(alloc, int(0), int(3), int(4));
    takes_steps(&rt, alloc, choose(alloc, condition, yes, int(5)), 3, int(4))?;
    // let x = 1 in let y = 2 in x - y
    let difference = operate(alloc, Op::Sub, var(1), var(0));
    let nested = bind(alloc, int(1), bind(alloc, int(2), difference));
    takes_steps(&rt, alloc, nested, 3, int(-1))?;
    // let f = \x:int. x + 1 in f (f 1): a let, then an application, a let and a sum for each call
    let calls = apply(alloc, var(0), apply(alloc, var(0), int(1)));
    takes_steps(&rt, alloc, bind(alloc, adds(alloc, 1), calls), 7, int(3))?;
    // (\x:int. \y:int. x - y) 3 is \y:int. 3 - y
    let difference = operate(alloc, Op::Sub, var(1), var(0));
    let curried = function(alloc, function(alloc, difference));
    let rest = function(alloc, operate(alloc, Op::Sub, int(3), var(0)));
    takes_steps(&rt, alloc, apply(alloc, curried, int(3)), 2, rest)?;
    // (\u:unit. \x:int. x + 1) () 4
    let awaits = takes(alloc, TyForm::Unit, adds(alloc, 1));
    let called = apply(alloc, apply(alloc, awaits, unit()), int(4));
    takes_steps(&rt, alloc, called, 5, int(5))?;
    Ok(())
}
