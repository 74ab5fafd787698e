//! What holds of the types here. Each derive is held to it by a clause; the functions do nothing.

ghost use Rattle.std.specs.Prelude.{◌≡◌};

use crate::commands::Command;

fn commands()
    ensures copied { (source copy : Command) → ⟦<Command<'static> as Clone>⟧.is_clone source copy
        → copy ≡ source }
{}
