//! A command, from its text.

ghost use Rattle.std.specs.Prelude.{◌≡◌, ◌<◌, ◌≤◌, ◌^◌, IfErr, IfOk, length};
ghost use Rattle.std.specs.Str.{IsCharBoundary};
ghost use Rattle.script_commands.specs.Moments.{HasMoment};
ghost use Rattle.script_lines.specs.Spelling.{IsPlaced, Says};
ghost use Rattle.script_read.specs.Commands.{HasNoOption, IsCommand, IsCommandRefusal};

use crate::Command;
use crate::meaning::{command_of, connected};
use crate::written::spelled;
use civil_moment::read_moment;
use grant_refusal::ParseRefusal;
use script_commands::{Timed, timed_connect};
use std::alloc::Global;

/// The most bytes of the text of a command.
pub const MOST_COMMAND_BYTES: usize = 4096;

/// The command that the text is.
pub(crate) fn read_command(alloc: Global, text: &str) -> Result<Command, ParseRefusal>
    ensures found { IfOk result (IsCommand text.now) }
    ensures err { IfErr result (Says (IsCommandRefusal text.now)) }
    ensures placed { IfErr result (IsPlaced text.now) }
{
    if text.len() > MOST_COMMAND_BYTES {
        return Err(ParseRefusal::Limit);
    }
    match timed_connect(alloc, text) {
        Ok(Some(timed)) => timed_command(text, timed),
        Ok(None) => untimed_command(alloc, text),
        Err(_) => Err(ParseRefusal::NoMemory),
    }
}

// A CONNECT with the option AT.
fn timed_command(text: &str, timed: Timed) -> Result<Command, ParseRefusal>
    requires short { length text.now ≤ 4096 }
    requires moment { HasMoment text.now timed.connect timed.place }
    requires cut { IsCharBoundary text.now timed.place }
    ensures found { IfOk result (IsCommand text.now) }
    ensures err { IfErr result (Says (IsCommandRefusal text.now)) }
    ensures placed { IfErr result (IsPlaced text.now) }
{
    let Timed { connect, place } = timed;
    match read_moment(&text[place as usize..]) {
        Some(moment) => Ok(connected(connect, Some(moment))),
        None => Err(ParseRefusal::Syntax { offset: place }),
    }
}

// A text without that option.
fn untimed_command(alloc: Global, text: &str) -> Result<Command, ParseRefusal>
    requires short { length text.now ≤ 4096 }
    requires no_option { HasNoOption text.now }
    ensures found { IfOk result (IsCommand text.now) }
    ensures err { IfErr result (Says (IsCommandRefusal text.now)) }
    ensures placed { IfErr result (IsPlaced text.now) }
{
    match spelled(alloc, text) {
        Ok(written) => command_of(alloc, written),
        Err(refusal) => Err(refusal),
    }
}
