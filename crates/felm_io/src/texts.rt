ghost use Rattle.std.specs.Prelude.{◌≡◌, [], ◌∷◌, take, IfOk, IfErr, OnOk, OnErr};
ghost use Rattle.std.specs.Option.{option_copied};

use crate::files::LoadFail;
use felm_term::{Memory, Name};
use std::alloc::Global;
use std::marker::Model;

/// A text under a name.
#[derive(Debug, Drop)]
struct NamedText {
    name: Name,
    bytes: Vec<u8>,
}

/// Texts in memory by name. The newest of a name stands.
#[derive(Debug, Drop)]
pub(crate) struct Texts {
    // The newest first, so that a search meets it first.
    texts: Vec<NamedText>,
}

impl Model for Texts {
    ghost use Rattle.std.specs.Prelude.{List, ℕ};
    ghost use Rattle.felm_io.specs.Texts.{texts_of};

    ghost Value = { List (List ℕ × List ℕ) };

    ghost view = { λ a. texts_of a.texts.items };
}

impl Texts {
    ghost use Rattle.felm_io.specs.Texts.{text_under};

    pub(crate) fn make(alloc: Global) -> Self
        ensures { result ≡ [] }
    {
        Texts {
            texts: Vec::new(alloc),
        }
    }

    pub(crate) fn add(&mut self, name: &str, bytes: &[u8]) -> Result<(), Memory>
        ensures ok { OnOk result (self.new ≡ (name.now, bytes.now) ∷ self.old) }
        ensures err { OnErr result (self.new ≡ self.old) }
    {
        let alloc = *self.texts.allocator();
        let name = Name::of(alloc, name)?;
        let bytes = Vec::from_slice(alloc, bytes).map_err(|_| Memory)?;
        self.texts
            .insert(0, NamedText { name, bytes })
            .map_err(|_| Memory)
    }

    /// The newest text under a name.
    #[tactic(auto, using(crate::proofs::NamedTexts::text_under_rest))]
    pub(crate) fn find(&self, name: &str) -> Option<&[u8]>
        ensures { option_copied result ≡ text_under self.now name.now }
    {
        for text in &self.texts {
            if name == text.name.as_str() {
                return Some(text.bytes.as_slice());
            }
        }
        None
    }
}

/// The first `most` bytes of a text.
pub(crate) fn first_bytes(alloc: Global, text: &[u8], most: usize) -> Result<Vec<u8>, LoadFail>
    ensures ok { IfOk result (λ first. first.items ≡ take most text.now) }
    ensures err { IfErr result (λ fail. fail ≡ LoadFail.Memory) }
{
    let count = most.min(text.len());
    Vec::from_slice(alloc, &text[..count]).map_err(|_| LoadFail::Memory)
}
