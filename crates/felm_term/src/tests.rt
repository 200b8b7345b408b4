ghost use Rattle.std.specs.Prelude.{◌≡◌, IfOk};
ghost use Rattle.felm_term.specs.CoreTerm as core;
ghost use Rattle.felm_term.specs.CoreType as type;

use super::{
    Event, Events, Function, InputDecl, InputTy, Inputs, Memory, Message, Name, Op, Scope, Term,
    TermForm, Terms, TermsForm, Ty, TyForm, Value, apply_op, boxed, same_term, same_ty, same_value,
    substitute, substitute_term, type_of,
};
use std::alloc::Global;
use std::test::Fail;

const LEAST: i64 = i64::MIN;

const GREATEST: i64 = i64::MAX;

// Operators with their operands and numbers.
const OPERATIONS: [(Op, i64, i64, i64); 27] = [
    (Op::Add, GREATEST, 1, LEAST),
    (Op::Sub, LEAST, 1, GREATEST),
    (Op::Mul, GREATEST, 2, -2),
    (Op::Div, -7, 2, -3),
    (Op::Div, 7, -2, -3),
    (Op::Div, LEAST, -1, LEAST),
    (Op::Div, 5, 0, 0),
    (Op::Rem, -7, 2, -1),
    (Op::Rem, 7, -2, 1),
    (Op::Rem, LEAST, -1, 0),
    (Op::Rem, 5, 0, 0),
    (Op::Eq, 3, 3, 1),
    (Op::Eq, 3, 4, 0),
    (Op::Ne, 3, 3, 0),
    (Op::Ne, 3, 4, 1),
    (Op::Lt, -1, 0, 1),
    (Op::Lt, 0, 0, 0),
    (Op::Le, 0, 0, 1),
    (Op::Le, 1, 0, 0),
    (Op::Gt, 0, -1, 1),
    (Op::Gt, 0, 0, 0),
    (Op::Ge, 0, 0, 1),
    (Op::Ge, -1, 0, 0),
    (Op::And, 2, -1, 1),
    (Op::And, 2, 0, 0),
    (Op::Or, 0, -1, 1),
    (Op::Or, 0, 0, 0),
];

#[test]
fn operators_give_their_numbers(rt: HostRuntime) {
    for (op, left, right, number) in OPERATIONS {
        assert!(&rt;
            apply_op(op, left, right) == number,
            "{op:?} {left} {right}"
        );
    }
}

fn term(form: TermForm) -> Term {
    Term { form }
}

fn int() -> Ty {
    Ty { form: TyForm::Int }
}

// The sum of a term and 1.
fn successor_of(alloc: Global, left: Term) -> Result<Term, Memory> {
    let left = boxed(alloc, left)?;
    let right = boxed(alloc, term(TermForm::Int(1)))?;
    Ok(term(TermForm::Bin {
        op: Op::Add,
        left,
        right,
    }))
}

// The function that gives back its number.
fn identity(alloc: Global) -> Result<Term, Memory>
    ensures { IfOk result (λ term. term ≡ core.Lam type.Int (core.Var 0)) }
{
    Ok(Term {
        form: TermForm::Lam {
            param: Ty { form: TyForm::Int },
            body: boxed(
                alloc,
                Term {
                    form: TermForm::Var(0),
                },
            )?,
        },
    })
}

fn identity_function(alloc: Global) -> Result<Function, Memory> {
    let identity = identity(alloc)?;
    Function::make(alloc, identity)
}

#[test]
fn a_body_takes_a_value(rt: HostRuntime) -> Result<(), Fail> {
    let body = successor_of(rt.alloc(), term(TermForm::Var(0)))?;
    let copy = body.copy(rt.alloc())?;
    assert!(&rt; same_term(&body, &copy));
    let sum = successor_of(rt.alloc(), term(TermForm::Int(4)))?;
    let with_value = substitute(rt.alloc(), body, &Value::Int(4))?;
    assert!(&rt; same_term(&with_value, &sum));
    let with_term = substitute_term(rt.alloc(), copy, &term(TermForm::Int(4)))?;
    assert!(&rt; same_term(&with_term, &sum));
    Ok(())
}

#[test]
fn a_function_stands_for_its_term(rt: HostRuntime) -> Result<(), Fail> {
    let expected = identity(rt.alloc())?;
    let function = identity_function(rt.alloc())?;
    let read = function.to_term(rt.alloc())?;
    assert!(&rt; same_term(&read, &expected));
    let value = Value::Fun(function);
    let copy = value.copy()?;
    assert!(&rt; same_value(&value, &copy));
    assert!(&rt; !same_value(&value, &Value::Unit));
    let read = copy.to_term(rt.alloc())?;
    assert!(&rt; same_term(&read, &expected));
    let applied = substitute(rt.alloc(), term(TermForm::Var(0)), &value)?;
    assert!(&rt; same_term(&applied, &expected));
    Ok(())
}

#[test]
fn values_and_messages_copy(rt: HostRuntime) -> Result<(), Fail> {
    let value = Value::Int(4).copy()?;
    assert!(&rt; same_value(&value, &Value::Int(4)));
    match Message::Change(value).copy()? {
        Message::Change(copy) => assert!(&rt; same_value(&copy, &Value::Int(4))),
        Message::NoChange(_) => panic!(&rt; "the message is no change"),
    }
    Ok(())
}

#[test]
fn a_function_has_its_type(rt: HostRuntime) -> Result<(), Fail> {
    let term = identity(rt.alloc())?;
    let from = boxed(rt.alloc(), int())?;
    let to = boxed(rt.alloc(), int())?;
    let expected = Ty {
        form: TyForm::Arrow { from, to },
    };
    match type_of(rt.alloc(), &term, &Scope::Outside, &[], &[])? {
        Some(found) => assert!(&rt; same_ty(&found, &expected)),
        None => panic!(&rt; "no type"),
    }
    Ok(())
}

// A foldp of the second of two numbers over an input.
fn latest(alloc: Global) -> Result<Term, Memory> {
    let inner = boxed(alloc, identity(alloc)?)?;
    let function = term(TermForm::Lam {
        param: int(),
        body: inner,
    });
    let function = boxed(alloc, function)?;
    let base = boxed(alloc, term(TermForm::Int(0)))?;
    let signal = boxed(alloc, term(TermForm::Input(0)))?;
    Ok(term(TermForm::Foldp {
        function,
        base,
        signal,
    }))
}

fn signal_of_int(alloc: Global) -> Result<Ty, Memory> {
    let of = boxed(alloc, int())?;
    Ok(Ty {
        form: TyForm::Signal(of),
    })
}

#[test]
fn a_foldp_has_its_type(rt: HostRuntime) -> Result<(), Fail> {
    let term = latest(rt.alloc())?;
    let expected = signal_of_int(rt.alloc())?;
    let inputs = [signal_of_int(rt.alloc())?];
    match type_of(rt.alloc(), &term, &Scope::Outside, &inputs, &[])? {
        Some(found) => assert!(&rt; same_ty(&found, &expected)),
        None => panic!(&rt; "no type"),
    }
    Ok(())
}

#[test]
fn arguments_copy(rt: HostRuntime) -> Result<(), Fail> {
    let rest = boxed(
        rt.alloc(),
        Terms {
            form: TermsForm::End,
        },
    )?;
    let arguments = Terms {
        form: TermsForm::More {
            first: term(TermForm::Input(0)),
            rest,
        },
    };
    let copy = arguments.copy(rt.alloc())?;
    match &copy.form {
        TermsForm::More { first, .. } => assert!(&rt; same_term(first, &term(TermForm::Input(0)))),
        TermsForm::End => panic!(&rt; "no argument"),
    }
    Ok(())
}

#[test]
fn lists_and_names_take_items(rt: HostRuntime) -> Result<(), Fail> {
    let mut events = Events::make(rt.alloc());
    events.reserve(2)?;
    for source in 0..2u32 {
        events.push(Event {
            source,
            value: Value::Unit,
        })?;
    }
    assert_eq!(&rt; events.len(), 2);
    let copy = events.at(1).copy()?;
    assert_eq!(&rt; copy.source, 1);
    let name = Name::of(rt.alloc(), "x")?;
    assert_eq!(&rt; name.as_str(), "x");
    let mut inputs = Inputs::make(rt.alloc());
    inputs.reserve(1)?;
    inputs.push(InputDecl {
        name,
        ty: InputTy::Int,
        default: 7,
    })?;
    assert_eq!(&rt; inputs.len(), 1);
    Ok(())
}

fn crosses_threads<T: Send + Sync>() {}

#[test]
fn values_cross_threads() {
    crosses_threads::<Value>();
    crosses_threads::<Function>();
    crosses_threads::<Message>();
}
