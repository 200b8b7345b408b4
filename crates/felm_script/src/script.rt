//! Reading a script.
ghost use Rattle.std.specs.Prelude.{◌≡◌, ◌<◌, ◌^◌, length, IsTrue, IfOk, IfErr, Ok};
ghost use Rattle.felm_term.specs.Events.{all_fit};
ghost use Rattle.felm_script.specs.Script.{script_of, IsRefusal};

use crate::fault::ScriptFault;
use crate::fields::cut_line;
use crate::line::event_of;
use crate::names::Names;
use felm_term::{Inputs, Script};
use std::alloc::Global;

/// The events of a script for these inputs, in the order of its lines. The first line that is
/// refused is the fault; memory is taken only for the events and for a table of the inputs' names.
pub fn read_script(alloc: Global, text: &[u8], inputs: &Inputs) -> Result<Script, ScriptFault>
    requires { length inputs.now.items < 2 ^ 31 }
    ensures events { IfOk result (λ script. script_of inputs.now.items text.now ≡ Ok script.items) }
    ensures fits { IfOk result (λ script. IsTrue (all_fit inputs.now.items script.items)) }
    ensures fault { IfErr result (IsRefusal (script_of inputs.now.items text.now)) }
{
    let names = Names::of(alloc, inputs)?;
    let mut script = Script::make(alloc);
    let mut rest = text;
    let mut number: u64 = 0;
    while !rest.is_empty() {
        let (line, after) = cut_line(rest);
        number += 1;
        match event_of(line, inputs, &names) {
            Ok(Some(event)) => script.push(event)?,
            Ok(None) => {}
            Err(cause) => return Err(cause.at(number)),
        }
        rest = after;
    }
    Ok(script)
}
