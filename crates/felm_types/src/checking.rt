//! The check of a program.
ghost use Rattle.std.specs.Prelude.{◌≡◌, ◌<◌, ◌^◌, IsTrue, Ok, Some, [], IfOk, OnOk, IfErr, length};
ghost use Rattle.felm_term.specs.CoreType.{is_simple_signal};
ghost use Rattle.felm_syntax.specs.Binders.{binders};
ghost use Rattle.felm_types.specs.FirstFault.{IsFirstFault};
ghost use Rattle.felm_types.specs.Judgement.{judge, judge_main, IsFaultOf};
ghost use Rattle.felm_types.specs.Typed.{program_term, IsTyped};

use crate::checked::Checked;
use crate::fault::TypeFault;
use crate::judge::judge;
use crate::scope::Scope;
use crate::whole::Typed;
use felm_syntax::Program;
use std::alloc::Global;

/// The core term of a program with its type and the inputs, or the program's first fault.
///
/// The time is in proportion to the size of the program times the number of binders around its parts.
#[tactic(auto, using(crate::proofs::Programs::term_typed, crate::proofs::Programs::typed_refused, crate::proofs::FirstFaults::first_of_program,),)]
pub fn check(alloc: Global, program: &Program) -> Result<Checked, TypeFault>
    requires inputs { length program.now.inputs < 2 ^ 31 }
    requires binders { binders program.now.main < 2 ^ 31 }
    ensures term { IfOk result (λ checked. program_term program.now ≡ Some checked.term) }
    ensures inputs { IfOk result (λ checked. checked.inputs ≡ program.now.inputs) }
    ensures typed { OnOk result (IsTyped program.now) }
    ensures complete { IsTyped program.now → IfErr result (λ fault. fault ≡ TypeFault.Memory) }
    ensures first_fault { IfErr result (IsFirstFault program.now) }
{
    let main = judge_main(alloc, program)?;
    let inputs = program.inputs.to_inputs(alloc)?;
    Ok(Checked {
        term: Box::into_inner(main.term),
        ty: main.ty,
        inputs,
    })
}

// The core term and the type of a program's expression, which has to be a signal.
fn judge_main(alloc: Global, program: &Program) -> Result<Typed, TypeFault>
    requires inputs { length program.now.inputs < 2 ^ 31 }
    requires binders { binders program.now.main < 2 ^ 31 }
    ensures ty { IfOk result (λ main. judge program.now.inputs [] program.now.main ≡ Ok main.ty) }
    ensures term { IfOk result (λ main. program_term program.now ≡ Some main.term.value) }
    ensures signal { IfOk result (λ main. IsTrue (is_simple_signal main.ty)) }
    ensures fault { IfErr result (IsFaultOf (judge_main program.now.inputs program.now.main)) }
{
    let main = judge(alloc, &program.main, &Scope::Outside, &program.inputs)?;
    if main.ty.is_simple_signal() {
        Ok(main)
    } else {
        Err(TypeFault::MainType {
            at: program.main.at,
        })
    }
}
