ghost use Rattle.std.specs.Prelude.{◌≡◌, ◌<◌, ◌↔◌, [], length, min, IsTrue, IfOk, IsErrOf, OnOk, OnErr};
ghost use Rattle.felm_io.specs.Calls.{no_calls, failing_at, next_fails, after_call};
ghost use Rattle.felm_io.specs.Collected.{Collects};

use crate::buffer::Buffer;
use crate::calls::Calls;
use crate::sink::{Sink, SinkFail};
use felm_term::Memory;
use std::alloc::Global;
use std::marker::Model;

/// A sink in memory that takes bytes in small pieces, and whose puts can be told to fail. Its counts
/// stay at the greatest u64.
#[derive(Debug, Drop)]
pub struct MemorySink {
    most: usize,
    puts: Calls,
    gathered: Buffer,
}

impl Model for MemorySink {
    ghost use Rattle.std.specs.Prelude.{◌<◌};
    ghost use Rattle.felm_io.specs.MemorySink.{FailingSink};

    ghost Value = { FailingSink };

    ghost view = { λ a. record { most = a.most; puts = a.puts; gathered = a.gathered } };

    ghost invariant = { λ a. 0 < a.most };
}

impl MemorySink {
    /// An empty sink whose puts take at most `piece` bytes each, and none of whose puts is to fail.
    /// The allocator is kept for the bytes that are put.
    pub fn make(alloc: Global, piece: usize) -> Self
        requires { 0 < piece }
        ensures most { result.most ≡ piece }
        ensures puts { result.puts ≡ no_calls }
        ensures gathered { result.gathered ≡ record { bytes = []; short = 0 } }
    {
        MemorySink {
            most: piece,
            puts: Calls::make(alloc),
            gathered: Buffer::make(alloc),
        }
    }

    /// Lets the put with this number fail. All puts to this sink are counted, from 1, and those past
    /// the greatest u64 share that number.
    pub fn fail_at(&mut self, call: u64) -> Result<(), Memory>
        ensures ok { OnOk result (self.new ≡ record self.old { puts = failing_at self.old.puts call }) }
        ensures err { OnErr result (self.new ≡ self.old) }
    {
        self.puts.fail_at(call)
    }

    /// How many puts failed.
    pub fn faults(&self) -> u64
        ensures { result ≡ self.now.puts.faults }
    {
        self.puts.faults()
    }

    /// The bytes so far.
    pub fn bytes(&self) -> &[u8]
        ensures { result.now ≡ self.now.gathered.bytes }
    {
        self.gathered.bytes()
    }
}

impl Sink for MemorySink {
    ghost use Rattle.std.specs.Prelude.{Some};

    ghost bytes = { λ a. Some a.gathered.bytes };

    ghost faults = { λ a. a.puts.faults };

    ghost short = { λ a. a.gathered.short };

    fn put(&mut self, piece: &[u8]) -> Result<usize, SinkFail>
        requires { 0 < length piece.now }
        ensures some { IfOk result (λ count. 0 < count) }
        ensures fails { IsErrOf result SinkFail.Failed ↔ IsTrue (next_fails self.old.puts) }
        ensures taken { IfOk result (λ count. count ≡ min self.old.most (length piece.now)) }
        ensures collects { Collects self.old.gathered self.new.gathered piece.now result }
        ensures puts { self.new.puts ≡ after_call self.old.puts (next_fails self.old.puts) }
        ensures most { self.new.most ≡ self.old.most }
    {
        let is_to_fail = self.puts.next_fails();
        self.puts.count(is_to_fail);
        if is_to_fail {
            return Err(SinkFail::Failed);
        }
        let count = self.most.min(piece.len());
        self.gathered.append(&piece[..count])
    }
}

#[cfg(test)]
mod tests {
    use super::*;
    use crate::sink::put_all;
    use crate::sure_sink::SureSink;
    use std::test::Fail;

    const TEXT: &[u8] = b"felm-result 1\n0 default 0\n1 x 5 change 5\n2 x 5 change 5\nend 2\n";

    #[test]
    fn the_put_with_the_number_fails(rt: HostRuntime) -> Result<(), Fail> {
        let mut sink = MemorySink::make(rt.alloc(), 10);
        sink.fail_at(3)?;
        assert_eq!(rt; put_all(&mut sink, TEXT), Err(SinkFail::Failed));
        assert_eq!(rt; sink.bytes(), b"felm-result 1\n0 defa".as_slice());
        assert_eq!(rt; put_all(&mut sink, b"ult 0\n"), Ok(()));
        assert_eq!(rt; sink.bytes(), b"felm-result 1\n0 default 0\n".as_slice());
        Ok(())
    }

    #[test]
    fn all_is_put_where_no_put_is_to_fail(rt: HostRuntime) {
        let mut pieces = MemorySink::make(rt.alloc(), 1);
        assert_eq!(rt; put_all(&mut pieces, TEXT), Ok(()));
        assert_eq!(rt; pieces.bytes(), TEXT);
        let mut sure = SureSink::make(rt.alloc());
        assert_eq!(rt; put_all(&mut sure, b""), Ok(()));
        assert_eq!(rt; put_all(&mut sure, TEXT), Ok(()));
        assert_eq!(rt; sure.bytes(), TEXT);
    }
}
