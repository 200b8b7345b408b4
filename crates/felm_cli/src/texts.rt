//! The texts of an order, and the plan that they have.
ghost use Rattle.std.specs.Prelude.{◌≡◌, ◌≤◌, List, ℕ, length, Some, Option, IfOk, IfErr};
ghost use Rattle.std.specs.Result.{IsErrAnd};
ghost use Rattle.std.specs.Option.{option_map};
ghost use Rattle.felm_plans.specs.Plans.{planned};
ghost use Rattle.felm_cli.specs.Outside.{files_of};
ghost use Rattle.felm_cli.specs.Texts.{most_bytes, IsPlanOf, OfTexts};
ghost use Rattle.felm_cli.specs.Outcomes.{IsOfLoad, HasLongProgram, UnlessRead, LoadedOrFault, AreLoaded, NoPlan};
ghost use Rattle.felm_cli.specs.Views.{order_value};

use crate::words::Order;
use felm_io::{Files, LoadFail};
use felm_meaning::Plan;
use felm_plans::read_plan;
use felm_printer::{Status, Which};
use std::alloc::Global;

/// The texts of an order, as its files have them. An order without a script has an empty one.
#[derive(Drop)]
pub struct Texts {
    pub program: Vec<u8>,
    pub script: Vec<u8>,
}

/// How many bytes a text may have.
fn most_bytes(which: Which) -> usize
    ensures { result ≡ most_bytes which }
{
    match which {
        Which::Program | Which::Script => 16_777_216,
    }
}

/// The text of a file, all of it; an empty one where no file is named.
fn load_text<F: Files>(
    alloc: Global,
    files: &mut F,
    name: Option<&str>,
    which: Which,
) -> Result<Vec<u8>, Status>
    ensures text { LoadedOrFault (λ text. text.items) (files_of (F.bytes files.old) (F.faults files.old))
        (files_of (F.bytes files.new) (F.faults files.new)) (option_map (λ text. text.now) name.entry)
        which result }
    ensures bound { IfOk result (λ text. length text.items ≤ most_bytes which) }
    ensures loaded { (other : List ℕ) → UnlessRead result (F.faults files.new other ≡ F.faults files.old other) }
    ensures files { (other : List ℕ) → F.bytes files.new other ≡ F.bytes files.old other }
    ensures counts { (other : List ℕ) → F.faults files.old other ≤ F.faults files.new other }
{
    let Some(name) = name else {
        return Ok(Vec::new(alloc));
    };
    let most = most_bytes(which);
    let text = match files.load(alloc, name, most + 1) {
        Ok(text) => text,
        Err(LoadFail::Failed) => return Err(Status::Read { which }),
        Err(LoadFail::Memory) => return Err(Status::Memory),
    };
    if text.len() > most {
        return Err(Status::TooLong { which });
    }
    Ok(text)
}

/// The texts of an order. The length of the program is judged before the script is loaded.
fn load_texts<F: Files>(alloc: Global, files: &mut F, order: &Order<'_>) -> Result<Texts, Status>
    ensures texts { IfOk result (λ texts.
        AreLoaded (F.bytes files.old) (order_value order.now).texts texts.program.items texts.script.items) }
    ensures bound { IfOk result (λ texts. length texts.program.items ≤ 16777216) }
    ensures fault { IfErr result (NoPlan (files_of (F.bytes files.old) (F.faults files.old))
        (files_of (F.bytes files.new) (F.faults files.new)) (order_value order.now)) }
    ensures long { HasLongProgram (F.bytes files.old) (order_value order.now) → IsErrAnd result IsOfLoad }
    ensures loaded { (name : List ℕ) → UnlessRead result (F.faults files.new name ≡ F.faults files.old name) }
    ensures files { (name : List ℕ) → F.bytes files.new name ≡ F.bytes files.old name }
    ensures counts { (name : List ℕ) → F.faults files.old name ≤ F.faults files.new name }
{
    let program = load_text(alloc, files, order.file(Which::Program), Which::Program)?;
    let script = load_text(alloc, files, order.file(Which::Script), Which::Script)?;
    Ok(Texts { program, script })
}

/// The plan of the texts of an order. They are dropped then, so that the run and its result have the
/// memory.
pub fn read_order<F: Files>(alloc: Global, files: &mut F, order: &Order<'_>) -> Result<Plan, Status>
    ensures plan { IfOk result (λ plan. OfTexts (F.bytes files.old) (Some (order_value order.now))
        (λ order texts. IsPlanOf order texts (planned plan))) }
    ensures limits { IfOk result (λ plan. plan.limits ≡ (order_value order.now).limits) }
    ensures fault { IfErr result (NoPlan (files_of (F.bytes files.old) (F.faults files.old))
        (files_of (F.bytes files.new) (F.faults files.new)) (order_value order.now)) }
    ensures long { HasLongProgram (F.bytes files.old) (order_value order.now) → IsErrAnd result IsOfLoad }
    ensures loaded { (name : List ℕ) → UnlessRead result (F.faults files.new name ≡ F.faults files.old name) }
    ensures files { (name : List ℕ) → F.bytes files.new name ≡ F.bytes files.old name }
    ensures counts { (name : List ℕ) → F.faults files.old name ≤ F.faults files.new name }
{
    let texts = load_texts(alloc, files, order)?;
    let limits = order.limits();
    read_plan(
        alloc,
        texts.program.as_slice(),
        texts.script.as_slice(),
        &limits,
    )
}
