//! Turns: what a node sends, by its function, its previous value and the messages of its arguments.
ghost use Rattle.std.specs.Prelude.{◌≡◌, IfOk, IsTrue};
ghost use Rattle.felm_term.specs.CoreType.{Int, Arrow};
ghost use Rattle.felm_term.specs.Values.{value_of};
ghost use Rattle.felm_term.specs.declared.value.Value.TheVariants as value;
ghost use Rattle.felm_graph.specs.Graphs.{IsOfType};

use super::texts::limits;
use crate::plan_of_texts;
use felm_graph::NodeKind;
use felm_meaning::{Job, Outcome, Turn, TurnInputs, compute};
use felm_term::{Function, Memory, Message, Scope, Ty, TyForm, Value, boxed, same_ty, type_of};
use std::alloc::Global;
use std::process::Abort;
use std::test::Fail;

/// The function of the lift or the foldp that a program shows.
fn function_of(alloc: Global, expression: &str) -> Result<Value, Fail> {
    let program = format!(in alloc;
        "input x : int = 0\ninput click : unit = ()\nmain = {expression}"
    )?;
    let plan = plan_of_texts(alloc, program.as_str(), "", &limits(1, 1, 1))?;
    let main = plan.graph.main() as usize;
    let node = plan.graph.nodes().get(main).ok_or("no node")?;
    match &node.kind {
        NodeKind::Lift { function, .. } => Ok(function.copy()?),
        NodeKind::Foldp { function, .. } => Ok(function.copy()?),
        _ => Ok(Value::Unit),
    }
}

/// A message of a number, which is a change or isn't.
fn number(changed: bool, number: i64) -> Message {
    let value = Value::Int(number);
    if changed {
        Message::Change(value)
    } else {
        Message::NoChange(value)
    }
}

/// What a turn sends, as text, or `over`.
fn sent(alloc: Global, turn: Turn) -> Result<String, Fail> {
    let done = compute(alloc, turn)?;
    match done.outcome() {
        Outcome::Sent(message) => Ok(format!(in alloc; "{message}")?),
        Outcome::Over => Ok(String::from_str(alloc, "over")?),
    }
}

#[test]
fn turns_of_a_lift_of_one_signal(rt: HostRuntime) -> Result<(), Fail> {
    let alloc = rt.alloc();
    let rows = [
        ("lift1 (\\n:int. n + 1) x", 1, 4, 10, "change 5"),
        ("lift1 (\\n:int. n + 1) x", 1, 9, 10, "change 10"),
        ("lift1 (\\n:int. n + 2) x", 3, 5, 10, "change 7"),
        ("lift1 (\\n:int. n + 2) x", 7, 7, 10, "change 9"),
        // An equal value is a change.
        ("lift1 (\\n:int. n * 0) x", 0, 2, 10, "change 0"),
        // A turn has its budget.
        ("lift1 (\\n:int. n + 1) x", 0, 5, 2, "over"),
        ("lift1 (\\n:int. n + 1) x", 0, 5, 3, "change 6"),
    ];
    for (expression, previous, value, budget, expected) in rows {
        let function = function_of(alloc, expression)?;
        let turn = lift1_turn(&rt, alloc, function, previous, number(true, value), budget)?;
        assert_eq!(&rt; turn.budget(), budget);
        assert_eq!(&rt; sent(alloc, turn)?.as_str(), expected);
    }
    Ok(())
}

#[test]
fn a_lift_computes_where_one_argument_changes(rt: HostRuntime) -> Result<(), Fail> {
    let alloc = rt.alloc();
    let rows = [
        (true, true, "change 2"),
        (true, false, "change 2"),
        (false, true, "change 2"),
        (false, false, "same 40"),
    ];
    for (left, right, expected) in rows {
        let function = function_of(alloc, "lift2 (\\a:int.\\b:int. a - b) x x")?;
        let turn = lift2_turn(&rt, alloc, function, 40, number(left, 5), number(right, 3))?;
        assert_eq!(&rt; sent(alloc, turn)?.as_str(), expected);
    }
    Ok(())
}

#[test]
fn a_foldp_counts_changes(rt: HostRuntime) -> Result<(), Fail> {
    let alloc = rt.alloc();
    let rows = [
        (0, Message::Change(Value::Unit), "change 1"),
        (1, Message::NoChange(Value::Unit), "same 1"),
        (1, Message::Change(Value::Unit), "change 2"),
    ];
    for (previous, message, expected) in rows {
        let function = function_of(alloc, "foldp (\\u:unit.\\c:int. c + 1) 0 click")?;
        let turn = foldp_turn(&rt, alloc, TyForm::Unit, function, previous, message)?;
        assert_eq!(&rt; sent(alloc, turn)?.as_str(), expected);
    }
    Ok(())
}

#[test]
fn a_foldp_takes_its_argument_first(rt: HostRuntime) -> Result<(), Fail> {
    let alloc = rt.alloc();
    let function = function_of(alloc, "foldp (\\a:int.\\b:int. a - b) 0 x")?;
    let turn = foldp_turn(&rt, alloc, TyForm::Int, function, 3, number(true, 10))?;
    assert_eq!(&rt; sent(alloc, turn)?.as_str(), "change 7");
    Ok(())
}

#[test]
fn a_turn_tells_its_parts(rt: HostRuntime) -> Result<(), Fail> {
    let alloc = rt.alloc();
    let function = function_of(alloc, "lift1 (\\n:int. n + 1) x")?;
    let turn = lift1_turn(&rt, alloc, function, 1, number(true, 4), 10)?;
    assert_eq!(&rt; turn.node(), 1);
    assert_eq!(&rt; turn.position(), 1);
    assert!(&rt; matches!(turn.job(), Job::Lift { .. }));
    assert!(&rt; matches!(turn.previous(), Value::Int(1)));
    assert_eq!(&rt; turn.inputs().len(), 1);
    let done = compute(alloc, turn)?;
    assert_eq!(&rt; done.turn().budget(), 10);
    Ok(())
}

// ---- turns made by hand

/// A turn of a lift of one number.
pub fn lift1_turn(
    rt: &impl Abort,
    alloc: Global,
    function: Value,
    previous: i64,
    input: Message,
    budget: u64,
) -> Result<Turn, Memory> {
    let taken = arrow(alloc, int_type(), int_type())?;
    assert!(rt; is_of_type(alloc, &function, &taken)?, "{function:?}");
    assert!(rt;
        is_of_type(alloc, value_of(&input), &int_type())?,
        "{input:?}"
    );
    let previous = Value::Int(previous);
    let mut inputs = TurnInputs::make();
    inputs.push(input);
    let job = Job::Lift { function };
    Ok(Turn::make(1, 1, job, previous, inputs, budget))
}

/// A turn of a lift of two numbers.
pub fn lift2_turn(
    rt: &impl Abort,
    alloc: Global,
    function: Value,
    previous: i64,
    left: Message,
    right: Message,
) -> Result<Turn, Memory> {
    let rest = arrow(alloc, int_type(), int_type())?;
    let taken = arrow(alloc, int_type(), rest)?;
    assert!(rt; is_of_type(alloc, &function, &taken)?, "{function:?}");
    assert!(rt;
        is_of_type(alloc, value_of(&left), &int_type())?,
        "{left:?}"
    );
    assert!(rt;
        is_of_type(alloc, value_of(&right), &int_type())?,
        "{right:?}"
    );
    let previous = Value::Int(previous);
    let mut inputs = TurnInputs::make();
    inputs.push(left);
    inputs.push(right);
    let job = Job::Lift { function };
    Ok(Turn::make(2, 1, job, previous, inputs, 10))
}

/// A turn of a foldp whose values are numbers, over a signal of this type.
pub fn foldp_turn(
    rt: &impl Abort,
    alloc: Global,
    from: TyForm,
    function: Value,
    previous: i64,
    input: Message,
) -> Result<Turn, Memory> {
    let from = Ty { form: from };
    let rest = arrow(alloc, int_type(), int_type())?;
    let taken = arrow(alloc, from.copy(alloc)?, rest)?;
    assert!(rt; is_of_type(alloc, &function, &taken)?, "{function:?}");
    assert!(rt; is_of_type(alloc, value_of(&input), &from)?, "{input:?}");
    let previous = Value::Int(previous);
    let mut inputs = TurnInputs::make();
    inputs.push(input);
    let job = Job::Foldp { function };
    Ok(Turn::make(1, 1, job, previous, inputs, 10))
}

fn is_of_type(alloc: Global, value: &Value, ty: &Ty) -> Result<bool, Memory>
    ensures { IfOk result (λ yes. IsTrue yes → IsOfType ty.now value.now) }
{
    match value {
        Value::Unit => Ok(matches!(&ty.form, TyForm::Unit)),
        Value::Int(_) => Ok(matches!(&ty.form, TyForm::Int)),
        Value::Fun(function) => function_has_type(alloc, function, ty),
    }
}

fn function_has_type(alloc: Global, function: &Function, ty: &Ty) -> Result<bool, Memory>
    ensures { IfOk result (λ yes. IsTrue yes → IsOfType ty.now (value.Fun function.now)) }
{
    match type_of(alloc, function.as_term(), &Scope::Outside, &[], &[])? {
        Some(found) => Ok(same_ty(&found, ty)),
        None => Ok(false),
    }
}

fn int_type() -> Ty
    ensures { result ≡ Int }
{
    Ty { form: TyForm::Int }
}

fn arrow(alloc: Global, from: Ty, to: Ty) -> Result<Ty, Memory>
    ensures { IfOk result (λ ty. ty ≡ Arrow from to) }
{
    let from = boxed(alloc, from)?;
    let to = boxed(alloc, to)?;
    Ok(Ty {
        form: TyForm::Arrow { from, to },
    })
}

fn value_of(message: &Message) -> &Value
    ensures { result.now ≡ value_of message.now }
{
    match message {
        Message::Change(value) => value,
        Message::NoChange(value) => value,
    }
}
