ghost use Rattle.std.specs.Prelude.{◌≡◌, Bool};
ghost use Rattle.script_read.specs.declared.command.Command.{Command};

use crate::Command;

/// Which commands a program runs.
pub trait Forms {
    ghost built: { Command → Bool };

    /// Whether the command has a form that is built.
    fn is_built(command: &Command) -> bool
        ensures { result ≡ built command.now };
}
