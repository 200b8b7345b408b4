ghost use Rattle.std.specs.Prelude.{◌≡◌, [], ◌∷◌, ◌++◌, length, OnOk};

use felm_term::Memory;
use std::alloc::Global;
use std::marker::Model;

/// A port that reads a node.
#[derive(Clone, Copy, Debug)]
pub struct Reader {
    /// The node whose port it is.
    pub node: u32,
    /// The port, counted from 0.
    pub port: u32,
}

/// The ports that read one node. Contracts see the list.
#[derive(Debug, Drop)]
pub struct Readers {
    readers: Vec<Reader>,
}

impl Model for Readers {
    ghost use Rattle.std.specs.Prelude.{List};
    ghost use Rattle.felm_edges.specs.declared.readers.Reader.{Reader};

    ghost Value = { List Reader };

    ghost view = { λ a. a.readers.items };
}

impl Readers {
    /// No port.
    pub fn make(alloc: Global) -> Readers
        ensures { result ≡ [] }
    {
        Readers {
            readers: Vec::new(alloc),
        }
    }

    /// How many there are.
    pub fn len(&self) -> usize
        ensures { result ≡ length self.now }
    {
        self.readers.len()
    }

    /// All of them in order.
    pub fn as_slice(&self) -> &[Reader]
        ensures { result.now ≡ self.now }
    {
        self.readers.as_slice()
    }

    /// Appends a port.
    pub fn push(&mut self, reader: Reader) -> Result<(), Memory>
        ensures { OnOk result (self.new ≡ self.old ++ reader ∷ []) }
    {
        self.readers.push(reader).map_err(|_| Memory)
    }
}
