//! Where the messages of a node's arguments lie.
ghost use Rattle.std.specs.Prelude.{◌≡◌, ◌<◌, List, Some, All, length, slice_get};
ghost use Rattle.felm_term.specs.declared.message.Message.{Message};
ghost use Rattle.felm_meaning.specs.Values.{messages_at};

use felm_term::Message;

/// The messages of a node's arguments at one position, in the order of its ports.
pub trait Arguments {
    /// All of them.
    ghost messages: { Self → List Message };

    /// How many there are.
    fn count(&self) -> usize
        ensures { result ≡ length (messages self.now) };

    /// The one at a port, counted from 0.
    fn message(&self, port: usize) -> &Message
        requires { port < length (messages self.now) }
        ensures { slice_get (messages self.now) port ≡ Some result.now };
}

/// The messages of these nodes, where they lie in a row of all nodes' messages.
#[derive(Clone, Copy, Debug)]
pub struct Among<'a> {
    pub row: &'a [Message],
    pub nodes: &'a [u32],
    pub ghost there: { All (λ node. node < length row.now) nodes.now },
}

impl<'a> Arguments for Among<'a> {
    ghost messages = { λ among. messages_at among.row.now among.nodes.now };

    fn count(&self) -> usize {
        self.nodes.len()
    }

    fn message(&self, port: usize) -> &Message {
        &self.row[self.nodes[port] as usize]
    }
}
