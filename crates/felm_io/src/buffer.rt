ghost use Rattle.std.specs.Prelude.{◌≡◌, [], length, IfOk, IfErr};
ghost use Rattle.felm_io.specs.Collected.{Collects};

use crate::sink::SinkFail;
use std::alloc::Global;
use std::marker::Model;

/// The bytes that a sink in memory gathers, and how often there was no memory for more.
#[derive(Debug, Drop)]
pub(crate) struct Buffer {
    bytes: Vec<u8>,
    short: u64,
}

impl Model for Buffer {
    ghost use Rattle.felm_io.specs.Collected.{Collected};

    ghost Value = { Collected };

    ghost view = { λ a. record { bytes = a.bytes.items; short = a.short } };
}

impl Buffer {
    pub(crate) fn make(alloc: Global) -> Self
        ensures { result ≡ record { bytes = []; short = 0 } }
    {
        Buffer {
            bytes: Vec::new(alloc),
            short: 0,
        }
    }

    pub(crate) fn bytes(&self) -> &[u8]
        ensures { result.now ≡ self.now.bytes }
    {
        self.bytes.as_slice()
    }

    /// Appends a whole piece, and answers its length.
    pub(crate) fn append(&mut self, piece: &[u8]) -> Result<usize, SinkFail>
        ensures whole { IfOk result (λ count. count ≡ length piece.now) }
        ensures err { IfErr result (λ fail. fail ≡ SinkFail.Memory) }
        ensures collects { Collects self.old self.new piece.now result }
    {
        match self.bytes.extend_from_slice(piece) {
            Ok(()) => Ok(piece.len()),
            Err(_) => {
                self.short = self.short.saturating_add(1);
                Err(SinkFail::Memory)
            }
        }
    }
}
