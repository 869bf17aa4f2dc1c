ghost use Rattle.std.specs.Prelude.{◌≡◌, ℕ, ◌<◌, ◌^◌, List, length, IfErr, IfOk};
ghost use Rattle.script_lines.specs.Spelling.{IsPlacedIn, SaysOfCommand};
ghost use Rattle.script_lines.specs.declared.refusal.CommandRefusal.{CommandRefusal};

use crate::refusal::CommandRefusal;
use std::alloc::Global;

/// How the commands of a script are spelled, with the code that reads them. `view` is what a command means. A text
/// spells one command at most, is refused in one way at most, and never both; want of memory is left out of `refused`,
/// since it says nothing of the text.
pub trait Commands {
    type Command: Drop;

    ghost Meaning: { Type 0 };

    ghost view: { Self.Command → Meaning };

    ghost spelled: { List ℕ → Meaning → Type 0 };

    ghost refused: { List ℕ → CommandRefusal → Type 0 };

    /// The command that the whole text spells, where its form is built.
    fn read(alloc: Global, text: &str) -> Result<Self::Command, CommandRefusal>
        requires { length text.now < 2 ^ 32 }
        ensures found { IfOk result (λ command. spelled text.now (view command)) }
        ensures err { IfErr result (SaysOfCommand (refused text.now)) }
        ensures placed { IfErr result (IsPlacedIn text.now) };

    ghost one_meaning: { (text : List ℕ) (first second : Meaning) → spelled text first → spelled text second → first ≡ second };

    ghost one_refusal: { (text : List ℕ) (first second : CommandRefusal) → refused text first → refused text second → first ≡ second };

    ghost apart: { (text : List ℕ) (meaning : Meaning) (refusal : CommandRefusal) → spelled text meaning → refused text refusal → ⊥ };
}
