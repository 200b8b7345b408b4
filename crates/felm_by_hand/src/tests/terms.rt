//! Texts of what no program comes to, and of values: terms with names of shared signals, and types of signals.
use super::texts::{limits, names_sources};
use crate::plan_of_texts;
use felm_graph::NodeKind;
use felm_printer::{stopped_text, term_text, value_text};
use felm_term::{
    Event, Events, Memory, Op, Term, TermForm, Terms, TermsForm, Ty, TyForm, Value, boxed,
};
use std::alloc::Global;
use std::process::Abort;
use std::test::Fail;

// A text and what it should be.
fn is_text(rt: &impl Abort, text: Result<Vec<u8>, Memory>, expected: &str) -> Result<(), Memory> {
    let text = text?;
    assert!(rt;
        text.as_slice() == expected.as_bytes(),
        "{expected} {text:?}"
    );
    Ok(())
}

#[test]
fn values_have_their_texts(rt: HostRuntime) -> Result<(), Fail> {
    let alloc = rt.alloc();
    is_text(&rt, value_text(alloc, &Value::Unit), "()")?;
    is_text(&rt, value_text(alloc, &Value::Int(-3)), "-3")?;
    let program = "input x : int = 0\nmain = lift1 (\\n:int. n + 1) x";
    let plan = plan_of_texts(alloc, program, "", &limits(1, 1, 1))?;
    let last = plan.graph.nodes().get(1).ok_or("no node")?;
    if let NodeKind::Lift { function, .. } = &last.kind {
        is_text(&rt, value_text(alloc, function), "<fun>")?;
    }
    Ok(())
}

#[test]
fn a_stop_names_its_node_and_position(rt: HostRuntime) -> Result<(), Fail> {
    let alloc = rt.alloc();
    let program = "input x : int = 0\nmain = lift2 (\\p:int.\\q:int. p + q) (async x) (async x)";
    let plan = plan_of_texts(alloc, program, "", &limits(1, 1, 1))?;
    let mut journal = Events::make(alloc);
    let rows = [
        (0, 1, 1, "felm-stopped 1\n1 x 1\nstopped 1 1\n"),
        (2, -1, 3, "felm-stopped 1\n1 x 1\n2 @1 -1\nstopped 3 2\n"),
    ];
    for (source, number, node, expected) in rows {
        let value = Value::Int(number);
        journal.push(Event { source, value })?;
        assert!(&rt; names_sources(&plan.graph, journal.as_slice()));
        let position = journal.len() as u64;
        is_text(
            &rt,
            stopped_text(alloc, &plan, &journal, node, position),
            expected,
        )?;
    }
    Ok(())
}

fn is_term(
    rt: &impl Abort,
    alloc: Global,
    term: Result<Term, Memory>,
    expected: &str,
) -> Result<(), Memory> {
    is_text(rt, term_text(alloc, &term?), expected)
}

#[test]
fn each_form_of_a_term_has_its_text(rt: HostRuntime) -> Result<(), Memory> {
    let alloc = rt.alloc();
    let called = apply(alloc, count(alloc), unit());
    let branch = choose(alloc, int(1), called, int(i64::MIN));
    let text = "(if 1 then ((\\v0:unit. (\\v1:int. (v1 + 1))) ()) else (-9223372036854775808))";
    is_term(&rt, alloc, branch, text)?;
    let clicks = foldp(alloc, count(alloc), int(0), input(7));
    let pair = lift2(
        alloc,
        on_two(alloc, Op::Sub),
        clicks,
        passed_on(alloc, name(12)),
    );
    let text =
        "(lift2 (\\v0:int. (\\v1:int. (v0 - v1))) (foldp (\\v0:unit. (\\v1:int. (v1 + 1))) 0 #7) (async $12))";
    is_term(&rt, alloc, pair, text)
}

#[test]
fn a_variable_has_the_name_of_its_binder(rt: HostRuntime) -> Result<(), Memory> {
    let alloc = rt.alloc();
    // let x = (\n:int. n) 3 in let y = x in \z:int. x + y: a let encloses its body alone
    let identity = takes(alloc, int_type(), var(0));
    let sum = takes(alloc, int_type(), operate(alloc, Op::Add, var(2), var(1)));
    let lets = bind(
        alloc,
        apply(alloc, identity, int(3)),
        bind(alloc, var(0), sum),
    );
    let text = "(let v0 = ((\\v0:int. v0) 3) in (let v1 = v0 in (\\v2:int. (v0 + v1))))";
    is_term(&rt, alloc, lets, text)
}

#[test]
fn types_have_brackets_where_they_need_them(rt: HostRuntime) -> Result<(), Memory> {
    let alloc = rt.alloc();
    let functions = signal_of(alloc, arrow(alloc, int_type(), unit_type())?)?;
    let signals = signal_of(alloc, signal_of(alloc, int_type())?)?;
    let from = arrow(alloc, functions, signals)?;
    let to = arrow(alloc, int_type(), unit_type())?;
    let function = takes(alloc, arrow(alloc, from, to)?, int(0));
    let text = "(\\v0:(signal (int -> unit) -> signal (signal int)) -> int -> unit. 0)";
    is_term(&rt, alloc, function, text)
}

// ---- terms, each built around its parts, of which each may lack memory

fn term(form: TermForm) -> Result<Term, Memory> {
    Ok(Term { form })
}

fn unit() -> Result<Term, Memory> {
    term(TermForm::Unit)
}

fn int(number: i64) -> Result<Term, Memory> {
    term(TermForm::Int(number))
}

fn var(binders: u32) -> Result<Term, Memory> {
    term(TermForm::Var(binders))
}

fn input(number: u32) -> Result<Term, Memory> {
    term(TermForm::Input(number))
}

fn name(place: u32) -> Result<Term, Memory> {
    term(TermForm::Node(place))
}

fn int_type() -> Ty {
    Ty { form: TyForm::Int }
}

fn unit_type() -> Ty {
    Ty { form: TyForm::Unit }
}

fn arrow(alloc: Global, from: Ty, to: Ty) -> Result<Ty, Memory> {
    let from = boxed(alloc, from)?;
    let to = boxed(alloc, to)?;
    Ok(Ty {
        form: TyForm::Arrow { from, to },
    })
}

fn signal_of(alloc: Global, of: Ty) -> Result<Ty, Memory> {
    let of = boxed(alloc, of)?;
    Ok(Ty {
        form: TyForm::Signal(of),
    })
}

fn takes(alloc: Global, param: Ty, body: Result<Term, Memory>) -> Result<Term, Memory> {
    let body = boxed(alloc, body?)?;
    term(TermForm::Lam { param, body })
}

fn apply(
    alloc: Global,
    function: Result<Term, Memory>,
    argument: Result<Term, Memory>,
) -> Result<Term, Memory> {
    let function = boxed(alloc, function?)?;
    let argument = boxed(alloc, argument?)?;
    term(TermForm::App { function, argument })
}

fn operate(
    alloc: Global,
    op: Op,
    left: Result<Term, Memory>,
    right: Result<Term, Memory>,
) -> Result<Term, Memory> {
    let left = boxed(alloc, left?)?;
    let right = boxed(alloc, right?)?;
    term(TermForm::Bin { op, left, right })
}

fn choose(
    alloc: Global,
    condition: Result<Term, Memory>,
    yes: Result<Term, Memory>,
    no: Result<Term, Memory>,
) -> Result<Term, Memory> {
    let condition = boxed(alloc, condition?)?;
    let yes = boxed(alloc, yes?)?;
    let no = boxed(alloc, no?)?;
    term(TermForm::If { condition, yes, no })
}

fn bind(
    alloc: Global,
    bound: Result<Term, Memory>,
    body: Result<Term, Memory>,
) -> Result<Term, Memory> {
    let bound = boxed(alloc, bound?)?;
    let body = boxed(alloc, body?)?;
    term(TermForm::Let { bound, body })
}

/// `\n:int. n OP number`
fn with_number(alloc: Global, op: Op, number: i64) -> Result<Term, Memory> {
    takes(alloc, int_type(), operate(alloc, op, var(0), int(number)))
}

/// `\p:int.\q:int. p OP q`
fn on_two(alloc: Global, op: Op) -> Result<Term, Memory> {
    let inner = takes(alloc, int_type(), operate(alloc, op, var(1), var(0)));
    takes(alloc, int_type(), inner)
}

/// `\u:unit.\c:int. c + 1`
fn count(alloc: Global) -> Result<Term, Memory> {
    takes(alloc, unit_type(), with_number(alloc, Op::Add, 1))
}

fn lift(alloc: Global, function: Result<Term, Memory>, arguments: Terms) -> Result<Term, Memory> {
    let function = boxed(alloc, function?)?;
    let arguments = boxed(alloc, arguments)?;
    term(TermForm::Lift {
        function,
        arguments,
    })
}

fn more(alloc: Global, first: Result<Term, Memory>, rest: Terms) -> Result<Terms, Memory> {
    let first = first?;
    let rest = boxed(alloc, rest)?;
    Ok(Terms {
        form: TermsForm::More { first, rest },
    })
}

fn end() -> Terms {
    Terms {
        form: TermsForm::End,
    }
}

fn lift2(
    alloc: Global,
    function: Result<Term, Memory>,
    left: Result<Term, Memory>,
    right: Result<Term, Memory>,
) -> Result<Term, Memory> {
    let right = more(alloc, right, end())?;
    let arguments = more(alloc, left, right)?;
    lift(alloc, function, arguments)
}

fn foldp(
    alloc: Global,
    function: Result<Term, Memory>,
    base: Result<Term, Memory>,
    signal: Result<Term, Memory>,
) -> Result<Term, Memory> {
    let function = boxed(alloc, function?)?;
    let base = boxed(alloc, base?)?;
    let signal = boxed(alloc, signal?)?;
    term(TermForm::Foldp {
        function,
        base,
        signal,
    })
}

fn passed_on(alloc: Global, signal: Result<Term, Memory>) -> Result<Term, Memory> {
    let signal = boxed(alloc, signal?)?;
    term(TermForm::Async { signal })
}
