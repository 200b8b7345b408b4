//! Sessions: an engine that is fed the events of its plan's script, in order and each once.
#![tactic(auto)]

mod bench;
mod conclusion;
mod crossing;
mod laws;
mod session;

pub use conclusion::{Concluded, conclude};
pub use crossing::sessions_cross;
pub use laws::{settled_sessions_have_room, without_asyncs_one_end};
pub use session::{Begun, Session};
