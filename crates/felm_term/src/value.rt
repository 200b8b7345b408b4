ghost use Rattle.std.specs.Prelude.{◌≡◌, IfOk, IsOk, IsTrue, ◌↔◌, false};
ghost use Rattle.felm_term.specs.Typing.{IsFunction};
ghost use Rattle.felm_term.specs.Values.{term_of, IsPlain};

use crate::function::{Function, same_function};
use crate::memory::Memory;
use crate::term::{Term, TermForm};
use std::alloc::Global;
use std::fmt;

/// What a signal carries, which contracts see as a closed term by `term_of`.
#[derive(Debug, Drop)]
pub enum Value {
    Unit,
    Int(i64),
    Fun(Function),
}

impl Value {
    /// A copy. A value without a function is always copied.
    pub fn copy(&self) -> Result<Value, Memory>
        ensures value { IfOk result (λ copy. copy ≡ self.now) }
        ensures plain { IsPlain self.now → IsOk result }
    {
        match self {
            Value::Unit => Ok(Value::Unit),
            Value::Int(number) => Ok(Value::Int(*number)),
            Value::Fun(function) => Ok(Value::Fun(function.copy()?)),
        }
    }

    /// This value as a closed term.
    pub fn to_term(&self, alloc: Global) -> Result<Term, Memory>
        ensures { IfOk result (λ term. term ≡ term_of self.now) }
    {
        match self {
            Value::Unit => Ok(Term {
                form: TermForm::Unit,
            }),
            Value::Int(number) => Ok(Term {
                form: TermForm::Int(*number),
            }),
            Value::Fun(function) => function.to_term(alloc),
        }
    }
}

impl fmt::Display for Value {
    ghost use Rattle.std.specs.Prelude.{Some};
    ghost use Rattle.felm_term.specs.Text.{value_text};

    ghost output = { λ value. Some (value_text value) };

    fn fmt<W: fmt::Write>(&self, f: &mut fmt::Formatter<W>) -> fmt::Result {
        match self {
            Value::Unit => write!(f, "()"),
            Value::Int(number) => write!(f, "{number}"),
            Value::Fun(_) => write!(f, "<fun>"),
        }
    }
}

/// Whether two values are equal as closed terms.
pub fn same_value(left: &Value, right: &Value) -> bool
    ensures { IsTrue result ↔ (term_of left.now ≡ term_of right.now) }
{
    match (left, right) {
        (Value::Unit, Value::Unit) => true,
        (Value::Int(number), Value::Int(other)) => *number == *other,
        (Value::Fun(function), Value::Fun(other)) => same_function(function, other),
        (Value::Unit, Value::Int(_)) => false,
        (Value::Int(_), Value::Unit) => false,
        (Value::Fun(function), _) => is_plain(function),
        (_, Value::Fun(function)) => is_plain(function),
    }
}

// No function is unit or a number.
fn is_plain(function: &Function) -> bool
    ensures no { result ≡ false }
    ensures function { IsFunction function.now }
{
    let _term = function.as_term();
    false
}
