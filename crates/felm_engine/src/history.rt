//! What is left of an engine when its run is over.
ghost use Rattle.std.specs.Prelude.{◌≡◌};
ghost use Rattle.felm_core.specs.Contents.{outputs_at};
ghost use Rattle.felm_engine.specs.Answers.{planned};

use crate::engine::Engine;
use felm_term::{Events, Messages};

impl Engine {
    /// The journal, and what the shown node has sent.
    pub fn into_parts(self) -> (Events, Messages)
        ensures journal { result.0.items ≡ self.position.journal }
        ensures outputs { result.1.items ≡ outputs_at (planned self) self.position }
    {
        (self.journal, self.outputs)
    }
}
