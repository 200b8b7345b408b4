ghost use Rattle.std.specs.Prelude.{◌≡◌, ◌↔◌, [], ◌∷◌, take, IsTrue, IfOk, IfSome, IsErrOf, OnOk, OnErr};
ghost use Rattle.felm_io.specs.Calls.{no_calls, failing_at};

use crate::calls::Calls;
use crate::files::{Files, LoadFail};
use crate::texts::{Texts, first_bytes};
use felm_term::Memory;
use std::alloc::Global;
use std::marker::Model;

/// Texts in memory whose loads can be told to fail. A load of a name that isn't there fails too. All
/// names share one count of faults, which stays at the greatest u64.
#[derive(Debug, Drop)]
pub struct MemoryFiles {
    texts: Texts,
    loads: Calls,
}

impl Model for MemoryFiles {
    ghost use Rattle.felm_io.specs.MemoryFiles.{FailingFiles};

    ghost Value = { FailingFiles };

    ghost view = { λ a. record { texts = a.texts; loads = a.loads } };
}

impl MemoryFiles {
    /// No texts, and no load that is to fail. The allocator is kept for what is added.
    pub fn make(alloc: Global) -> Self
        ensures { result ≡ record { texts = []; loads = no_calls } }
    {
        MemoryFiles {
            texts: Texts::make(alloc),
            loads: Calls::make(alloc),
        }
    }

    /// Adds a text under a name. Of two texts under one name the newer one stands.
    pub fn add(&mut self, name: &str, bytes: &[u8]) -> Result<(), Memory>
        ensures ok { OnOk result (self.new ≡ record self.old { texts = (name.now, bytes.now) ∷ self.old.texts }) }
        ensures err { OnErr result (self.new ≡ self.old) }
    {
        self.texts.add(name, bytes)
    }

    /// Lets the load with this number fail. All loads of these files are counted, from 1, and those
    /// past the greatest u64 share that number.
    pub fn fail_at(&mut self, call: u64) -> Result<(), Memory>
        ensures ok { OnOk result (self.new ≡ record self.old { loads = failing_at self.old.loads call }) }
        ensures err { OnErr result (self.new ≡ self.old) }
    {
        self.loads.fail_at(call)
    }

    /// How many loads failed.
    pub fn faults(&self) -> u64
        ensures { result ≡ self.now.loads.faults }
    {
        self.loads.faults()
    }
}

impl Files for MemoryFiles {
    ghost use Rattle.felm_io.specs.MemoryFiles.{load_fails, after_load};
    ghost use Rattle.felm_io.specs.Texts.{text_under};

    ghost bytes = { λ a name. text_under a.texts name };

    ghost faults = { λ a _. a.loads.faults };

    fn load(&mut self, alloc: Global, name: &str, most: usize) -> Result<Vec<u8>, LoadFail>
        ensures fails { IsErrOf result LoadFail.Failed ↔ IsTrue (load_fails self.old name.now) }
        ensures text { IfOk result (λ text. IfSome (text_under self.old.texts name.now) (λ all. text.items ≡ take most all)) }
        ensures after { self.new ≡ after_load self.old name.now }
    {
        match self.texts.find(name) {
            Some(text) if !self.loads.next_fails() => {
                self.loads.count(false);
                first_bytes(alloc, text, most)
            }
            _ => {
                self.loads.count(true);
                Err(LoadFail::Failed)
            }
        }
    }
}

#[cfg(test)]
mod tests {
    use super::*;
    use crate::sure_files::SureFiles;
    use std::test::Fail;

    /// Loads through the bound.
    fn load<F: Files>(alloc: Global, files: &mut F, name: &str) -> Result<Vec<u8>, LoadFail> {
        files.load(alloc, name, 5)
    }

    #[test]
    fn the_load_with_the_number_fails_and_so_does_a_missing_name(
        rt: HostRuntime,
    ) -> Result<(), Fail> {
        let alloc = rt.alloc();
        let mut files = MemoryFiles::make(alloc);
        files.add("p", b"older")?;
        files.add("p", b"main = x\n")?;
        files.add("s", b"x 5\n")?;
        files.fail_at(2)?;
        files.fail_at(5)?;
        assert_eq!(rt;
            load(alloc, &mut files, "p")?.as_slice(),
            b"main ".as_slice()
        );
        assert_eq!(rt; load(alloc, &mut files, "s").err(), Some(LoadFail::Failed));
        assert_eq!(rt;
            load(alloc, &mut files, "s")?.as_slice(),
            b"x 5\n".as_slice()
        );
        assert_eq!(rt; load(alloc, &mut files, "q").err(), Some(LoadFail::Failed));
        assert_eq!(rt; load(alloc, &mut files, "p").err(), Some(LoadFail::Failed));
        assert_eq!(rt; load(alloc, &mut files, "p")?.len(), 5);
        Ok(())
    }

    #[test]
    fn sure_files_load_a_missing_name_as_no_bytes(rt: HostRuntime) -> Result<(), Fail> {
        let alloc = rt.alloc();
        let mut files = SureFiles::make(alloc);
        files.add("s", b"older")?;
        files.add("s", b"x 5\n")?;
        assert_eq!(rt;
            load(alloc, &mut files, "s")?.as_slice(),
            b"x 5\n".as_slice()
        );
        assert_eq!(rt; load(alloc, &mut files, "p")?.len(), 0);
        Ok(())
    }
}
