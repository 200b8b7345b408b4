//! What one line of a script says.
ghost use Rattle.std.specs.Prelude.{◌≡◌, ◌<◌, ◌^◌, length, IfSome};
ghost use Rattle.std.specs.List.{list_all};
ghost use Rattle.felm_term.specs.Bytes.{is_allowed};
ghost use Rattle.felm_term.specs.Inputs.{names_of};
ghost use Rattle.felm_script.specs.Parts.{listed};
ghost use Rattle.felm_script.specs.Script.{value_of, event_at, event_of};

use crate::fault::Cause;
use crate::fields::{Fields, fields_of};
use crate::names::Names;
use felm_term::bytes::{begins_comment, is_allowed};
use felm_term::decimal::signed;
use felm_term::{Event, InputTy, Inputs, Value};

/// Whether a text may hold each byte of a line.
fn are_allowed(line: &[u8]) -> bool
    ensures { result ≡ list_all is_allowed line.now }
{
    line.iter().all(|byte| is_allowed(*byte))
}

/// The value that the field behind its name gives an input of a type.
fn value_of(ty: InputTy, field: Option<&[u8]>) -> Option<Value>
    ensures { result ≡ value_of ty (listed field.entry) }
{
    match (ty, field) {
        (InputTy::Int, Some(number)) => Some(Value::Int(signed(number)?)),
        (InputTy::Int, None) => None,
        (InputTy::Unit, Some(b"()")) => Some(Value::Unit),
        (InputTy::Unit, Some(_)) => None,
        (InputTy::Unit, None) => Some(Value::Unit),
    }
}

/// The event of the input at a place, with the value that a field gives it.
fn event_at(
    inputs: &Inputs,
    place: Option<usize>,
    field: Option<&[u8]>,
) -> Result<Option<Event>, Cause>
    requires few { length inputs.now.items < 2 ^ 31 }
    requires within { IfSome place (λ place. place < length inputs.now.items) }
    ensures { result ≡ event_at inputs.now.items place (listed field.entry) }
{
    let Some(place) = place else {
        return Err(Cause::Name);
    };
    match value_of(inputs.at(place).ty, field) {
        Some(value) => Ok(Some(Event {
            source: place as u32,
            value,
        })),
        None => Err(Cause::Literal),
    }
}

/// What a line says: an event, or nothing where it is skipped.
pub fn event_of(line: &[u8], inputs: &Inputs, names: &Names) -> Result<Option<Event>, Cause>
    requires few { length inputs.now.items < 2 ^ 31 }
    requires names { names.now ≡ names_of inputs.now.items }
    ensures { result ≡ event_of inputs.now.items line.now }
{
    if !are_allowed(line) {
        return Err(Cause::Line);
    }
    match fields_of(line) {
        Fields::Empty => Ok(None),
        Fields::One(name) | Fields::Two(name, _) | Fields::More(name) if begins_comment(name) => {
            Ok(None)
        }
        Fields::One(name) => event_at(inputs, names.find(name), None),
        Fields::Two(name, field) => event_at(inputs, names.find(name), Some(field)),
        Fields::More(_) => Err(Cause::Line),
    }
}
