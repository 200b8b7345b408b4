//! The top call over an outside that never fails.
ghost use Rattle.std.specs.Prelude.{◌≢◌};
ghost use Rattle.felm_printer.specs.declared.status.Which.{Which};

use crate::once::felm_once;
use felm_io::{Sink, SureFiles, SureSink};
use felm_printer::{Status, Which};
use std::alloc::Global;

/// `felm_once` over `SureFiles` and a `SureSink`, which refuse nothing but for want of memory.
pub fn felm_over_sure<E: Sink>(
    alloc: Global,
    words: &[String],
    files: &mut SureFiles,
    out: &mut SureSink,
    err: &mut E,
) -> Status
    // No text is ever unreadable there, and no result unwritable.
    ensures read { (which : Which) → result ≢ Status.Read which }
    ensures write { result ≢ Status.Write }
{
    felm_once(alloc, words, files, out, err)
}
