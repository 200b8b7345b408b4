// Laws of the counts: functions that do nothing, for callers that cite their contracts.
ghost use Rattle.std.specs.Prelude.{◌≡◌, ◌<◌, ◌-◌, ◌^◌, ◌↔◌, ◌⊎◌, List, ℕ, Vec, Result, IfErr};
ghost use Rattle.std.specs.declared.alloc.Global.{Global};
ghost use Rattle.felm_io.specs.Causes.{Rose, CountedLoad, CountedPut};
ghost use Rattle.felm_io.specs.Collected.{Collected};
ghost use Rattle.felm_io.specs.Texts.{Texts};
ghost use Rattle.felm_io.specs.declared.files.LoadFail.{LoadFail};
ghost use Rattle.felm_io.specs.declared.sink.SinkFail.{SinkFail};

use crate::files::Files;
use crate::sink::Sink;
use crate::sure_files::SureFiles;
use crate::sure_sink::SureSink;

/// A u64 rose exactly where it is greater than before, or stands at the greatest u64. So a count that
/// stays at 0 didn't.
pub fn counts_rise()
    ensures never_at_zero { ¬ Rose 0 0 }
    ensures exact { (before now : ℕ) → now < 2 ^ 64 → (Rose before now ↔ ((before < now) ⊎ (now ≡ 2 ^ 64 - 1))) }
{}

/// Over `SureFiles` no count rises, so that a load is refused only for want of memory.
pub fn sure_files_never_fail()
    ensures count { (before now : Texts) (name : List ℕ) → ¬ Rose (⟦<SureFiles as Files>⟧.faults before name) (⟦<SureFiles as Files>⟧.faults now name) }
    ensures load { (before now : Texts) (name : List ℕ) (result : Result (Vec ℕ Global) LoadFail)
        → CountedLoad (⟦<SureFiles as Files>⟧.faults before) (⟦<SureFiles as Files>⟧.faults now) name result
        → IfErr result (λ fail. fail ≡ LoadFail.Memory) }
{}

/// Over a `SureSink` the count of faults never rises, so that `put_all` is refused only for want of
/// memory.
pub fn sure_sinks_never_fail()
    ensures count { (before now : Collected) → ¬ Rose (⟦<SureSink as Sink>⟧.faults before) (⟦<SureSink as Sink>⟧.faults now) }
    ensures put { (before now : Collected) (result : Result (Unit {0}) SinkFail)
        → CountedPut (⟦<SureSink as Sink>⟧.faults before) (⟦<SureSink as Sink>⟧.faults now) (⟦<SureSink as Sink>⟧.short before) (⟦<SureSink as Sink>⟧.short now) result
        → IfErr result (λ fail. fail ≡ SinkFail.Memory) }
{}
