ghost use Rattle.std.specs.Prelude.{◌≡◌, ◌+◌, ◌<◌, ◌≤◌, ◌++◌, length, IsSome};
ghost use Rattle.std.specs.Option.{option_to_list};

use felm_term::{Message, Messages};

/// Appends a message to the outputs, if there is one. There is room for it.
pub fn show(shown: Option<Message>, outputs: &mut Messages)
    requires { IsSome shown → 0 < outputs.old.spare }
    ensures items { outputs.new.items ≡ outputs.old.items ++ option_to_list shown }
    ensures spare { outputs.old.spare ≤ outputs.new.spare + length (option_to_list shown) }
{
    if let Some(message) = shown {
        let _ = outputs.push(message);
    }
}
