//! Scripts.

ghost use Rattle.std.specs.Prelude.{◌≡◌, ℕ, ◌<◌, List, length, IfErr, IfOk, MatchResult};
ghost use Rattle.std.specs.List.{All};
ghost use Rattle.grant_refusal.specs.declared.ParseRefusal.{ParseRefusal};
ghost use Rattle.script_lines.specs.Refusals.{IsBadLine, IsBeyond, IsScriptRefusal, RefusesScript};
ghost use Rattle.script_lines.specs.Script.{IsTaken};
ghost use Rattle.script_lines.specs.declared.lines.Line.{Line as LineOf};
ghost use Rattle.script_lines.specs.declared.refusal.ScriptRefusal.TheVariants.{BadLine as BadLineOf, Limit as LimitOf, NoMemory as NoMemoryForScript};
ghost use Rattle.script_lines.specs.declared.refusal.Which.{Which};
ghost use Rattle.script_read.specs.Built.{IsBuiltCommand, IsBuiltRefusal, IsTextRefusal};
ghost use Rattle.script_read.specs.Commands.{IsCommand};
ghost use Rattle.script_read.specs.Laws.{apart, built_apart, built_one_meaning, built_one_refusal, one_meaning, one_refusal};
ghost use Rattle.script_read.specs.declared.command.Command.{Command};

use crate::Command;
use crate::forms::Forms;
use crate::reading::read_command;
use script_lines::{CommandRefusal, Commands, Lines, ScriptRefusal, read_lines};
use std::alloc::Global;
use std::marker::PhantomData;

/// The lines of a script that have a command, and its sessions in the order in which they first appear.
pub type Script = Lines<Command>;

/// A line with a command: its number, counted from 1 over all lines, and the place of its session, counted from 0.
pub type Line = script_lines::Line<Command>;

// Commands of all forms.
struct AllCommands;

impl Commands for AllCommands {
    type Command = Command;

    ghost Meaning = { Command };

    ghost view = { λ command. command };

    ghost spelled = { IsCommand };

    ghost refused = { IsTextRefusal };

    fn read(alloc: Global, text: &str) -> Result<Command, CommandRefusal> {
        match read_command(alloc, text) {
            Ok(command) => Ok(command),
            Err(refusal) => Err(CommandRefusal::Text(refusal)),
        }
    }

    ghost one_meaning = { one_meaning };

    ghost one_refusal = { one_refusal };

    ghost apart = { apart };
}

// Commands of the forms that are built.
struct BuiltCommands<F: Forms> {
    forms: PhantomData<F>,
}

impl<F: Forms> Commands for BuiltCommands<F> {
    type Command = Command;

    ghost Meaning = { Command };

    ghost view = { λ command. command };

    ghost spelled = { IsBuiltCommand F.built };

    ghost refused = { IsBuiltRefusal F.built };

    fn read(alloc: Global, text: &str) -> Result<Command, CommandRefusal> {
        let command = match read_command(alloc, text) {
            Ok(command) => command,
            Err(refusal) => return Err(CommandRefusal::Text(refusal)),
        };
        if F::is_built(&command) {
            Ok(command)
        } else {
            Err(CommandRefusal::Unbuilt)
        }
    }

    ghost one_meaning = { built_one_meaning F.built };

    ghost one_refusal = { built_one_refusal F.built };

    ghost apart = { built_apart F.built };
}

/// The script that bytes are. A BadLine is never NoMemory, and its offset counts from the line's first byte.
pub fn read_script(alloc: Global, bytes: &[u8]) -> Result<Script, ScriptRefusal>
    ensures found { IfOk result (λ script. IsTaken IsCommand bytes.now script.sessions script.lines) }
    ensures seated { IfOk result (λ script. All (λ line. line.session < length script.sessions) script.lines) }
    ensures only { (names : List (List ℕ)) (lines : List (LineOf Command)) → IsTaken IsCommand bytes.now names lines →
        MatchResult result (λ script. (names ≡ script.sessions) × (lines ≡ script.lines)) (λ refusal. refusal ≡ NoMemoryForScript) }

    ensures err { IfErr result (IsScriptRefusal IsCommand IsTextRefusal bytes.now) }
    ensures bad_line { (number : ℕ) (refusal : ParseRefusal) → IsBadLine IsCommand IsTextRefusal bytes.now number refusal →
        RefusesScript result (BadLineOf number refusal) }
    ensures limit { (which : Which) (number : ℕ) → IsBeyond IsCommand bytes.now which number →
        RefusesScript result (LimitOf which number) }
{
    read_lines::<AllCommands>(alloc, bytes)
}

/// The script that bytes are, for a program that runs the commands of some forms alone: another command refuses its line
/// at the line's first byte.
pub fn read_script_of<F: Forms>(alloc: Global, bytes: &[u8]) -> Result<Script, ScriptRefusal>
    ensures found { IfOk result (λ script. IsTaken (IsBuiltCommand F.built) bytes.now script.sessions script.lines) }
    ensures seated { IfOk result (λ script. All (λ line. line.session < length script.sessions) script.lines) }
    ensures only { (names : List (List ℕ)) (lines : List (LineOf Command)) → IsTaken (IsBuiltCommand F.built) bytes.now names lines →
        MatchResult result (λ script. (names ≡ script.sessions) × (lines ≡ script.lines)) (λ refusal. refusal ≡ NoMemoryForScript) }

    ensures err { IfErr result (IsScriptRefusal (IsBuiltCommand F.built) (IsBuiltRefusal F.built) bytes.now) }
    ensures bad_line { (number : ℕ) (refusal : ParseRefusal) →
        IsBadLine (IsBuiltCommand F.built) (IsBuiltRefusal F.built) bytes.now number refusal →
        RefusesScript result (BadLineOf number refusal) }
    ensures limit { (which : Which) (number : ℕ) → IsBeyond (IsBuiltCommand F.built) bytes.now which number →
        RefusesScript result (LimitOf which number) }
{
    read_lines::<BuiltCommands<F>>(alloc, bytes)
}
