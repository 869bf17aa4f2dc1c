ghost use Rattle.std.specs.Prelude.{◌≡◌, ℕ, ◌+◌, ◌<◌, ◌≤◌, ◌^◌, List, length, map, position, IfErr, IfOk, IsTrue, MatchResult, OnOk};
ghost use Rattle.std.specs.List.{All};
ghost use Rattle.std.specs.Str.{bytes_eq};
ghost use Rattle.grant_refusal.specs.declared.ParseRefusal.{ParseRefusal};
ghost use Rattle.script_lines.specs.Adding.{refusal_of_line, IsNotSeated, IsNotTaken, Seats, Takes};
ghost use Rattle.script_lines.specs.Beginnings.{is_session_name};
ghost use Rattle.script_lines.specs.Refusals.{IsBadLine, IsBeyond, IsScriptRefusal, RefusesScript};
ghost use Rattle.script_lines.specs.Script.{seen, IsTaken, IsWithinLimits};
ghost use Rattle.script_lines.specs.Spelling.{refusal_behind, refusal_on_line, IsLineRefused, IsOffsetBelow, Says, Spells};
ghost use Rattle.script_lines.specs.declared.lines.Line.{Line};
ghost use Rattle.script_lines.specs.declared.refusal.ScriptRefusal.{ScriptRefusal};
ghost use Rattle.script_lines.specs.declared.refusal.ScriptRefusal.TheVariants.{BadLine as BadLineOf, Limit as LimitOf, NoMemory as NoMemoryForScript};
ghost use Rattle.script_lines.specs.declared.refusal.Which.{Which};

use crate::beginning::split_line;
use crate::commands::Commands;
use crate::cut::{count_lines, first_line, is_without_command};
use crate::lines::{Line, Lines};
use crate::refusal::{CommandRefusal, ScriptRefusal, Which};
use crate::session_name::SessionName;
use acl_items::Items;
use grant_refusal::ParseRefusal;
use std::alloc::Global;

/// The most bytes of a script.
pub const MOST_BYTES: usize = 16_777_216;

/// The most lines of a script, those that are passed over among them.
pub const MOST_LINES: usize = 200_000;

/// The most sessions of a script.
pub const MOST_SESSIONS: usize = 64;

/// The script that bytes are. Its bytes are counted first, then its lines; then line after line is read, and a fault of a
/// line comes before a session too many on it.
pub fn read_lines<C: Commands>(
    alloc: Global,
    bytes: &[u8],
) -> Result<Lines<C::Command>, ScriptRefusal>
    ensures found { IfOk result (λ script.
        IsTaken C.spelled bytes.now script.sessions (map (seen C.view) script.lines)) }
    ensures seated { IfOk result (λ script.
        All (λ line. line.session < length script.sessions) script.lines) }
    ensures only { (names : List (List ℕ)) (lines : List (Line C.Meaning)) →
        IsTaken C.spelled bytes.now names lines →
        MatchResult result
        (λ script. (names ≡ script.sessions) × (lines ≡ map (seen C.view) script.lines))
        (λ refusal. refusal ≡ NoMemoryForScript) }

    ensures err { IfErr result (IsScriptRefusal C.spelled C.refused bytes.now) }
    ensures bad_line { (number : ℕ) (refusal : ParseRefusal) →
        IsBadLine C.spelled C.refused bytes.now number refusal →
        RefusesScript result (BadLineOf number refusal) }
    ensures limit { (which : Which) (number : ℕ) → IsBeyond C.spelled bytes.now which number →
        RefusesScript result (LimitOf which number) }
{
    if bytes.len() > MOST_BYTES {
        return Err(beyond(Which::Bytes, MOST_BYTES));
    }
    if count_lines(bytes) > MOST_LINES {
        return Err(beyond(Which::Lines, MOST_LINES));
    }
    read_each::<C>(alloc, bytes)
}

fn beyond(which: Which, number: usize) -> ScriptRefusal
    ensures { result ≡ LimitOf which number }
{
    ScriptRefusal::Limit {
        which,
        number: number as u64,
    }
}

// The script that bytes within the limits are.
fn read_each<C: Commands>(alloc: Global, bytes: &[u8]) -> Result<Lines<C::Command>, ScriptRefusal>
    requires { IsWithinLimits bytes.now }
    ensures found { IfOk result (λ script.
        IsTaken C.spelled bytes.now script.sessions (map (seen C.view) script.lines)) }
    ensures seated { IfOk result (λ script.
        All (λ line. line.session < length script.sessions) script.lines) }
    ensures err { IfErr result (IsScriptRefusal C.spelled C.refused bytes.now) }
{
    let mut script = Lines {
        sessions: Items::new(alloc),
        lines: Items::new(alloc),
    };
    let mut number = 0;
    let mut rest = bytes;
    'lines: while let Some((text, behind)) = first_line(rest) {
        number += 1;
        take_line::<C>(alloc, &mut script, number, text)?;
        rest = behind;
    }
    Ok(script)
}

// Takes the next line, which is added where it has a command.
fn take_line<C: Commands>(
    alloc: Global,
    script: &mut Lines<C::Command>,
    number: u32,
    text: &[u8],
) -> Result<(), ScriptRefusal>
    requires short { length text.now ≤ 16777216 }
    requires few { length script.old.sessions ≤ 64 }
    ensures few { length script.new.sessions ≤ 64 }
    ensures ok { OnOk result (Takes C.spelled (number, text.now)
        script.old.sessions script.new.sessions
        (map (seen C.view) script.old.lines) (map (seen C.view) script.new.lines)) }
    ensures err { IfErr result (IsNotTaken C.spelled C.refused (number, text.now)
        script.old.sessions (map (seen C.view) script.old.lines)) }
{
    if is_without_command(text) {
        return Ok(());
    }
    let (name, command) = match read_line::<C>(alloc, text) {
        Ok(parts) => parts,
        Err(refusal) => return Err(line_refusal(number, refusal)),
    };
    let session = seat(alloc, &mut script.sessions, name)?;
    script.lines.push(Line {
        number,
        session,
        command,
    })?;
    Ok(())
}

// The place of a session, which joins at the end where it is new.
fn seat(alloc: Global, sessions: &mut Items<SessionName>, name: &str) -> Result<u32, ScriptRefusal>
    requires name { IsTrue (is_session_name name.now) }
    requires few { length sessions.old ≤ 64 }
    ensures few { length sessions.new ≤ 64 }
    ensures ok { IfOk result (Seats sessions.old sessions.new name.now) }
    ensures err { IfErr result (IsNotSeated sessions.old name.now) }
{
    if let Some(place) = place_of(sessions.as_slice(), name) {
        return Ok(place as u32);
    }
    let place = sessions.len();
    if place >= MOST_SESSIONS {
        return Err(beyond(Which::Sessions, MOST_SESSIONS));
    }
    sessions.push(SessionName::new(alloc, name)?)?;
    Ok(place as u32)
}

fn place_of(names: &[SessionName], name: &str) -> Option<usize>
    ensures { result ≡ position (λ other. bytes_eq other name.now) names.now }
{
    names.iter().position(|other| other.is(name))
}

fn line_refusal(line: u32, refusal: ParseRefusal) -> ScriptRefusal
    ensures { result ≡ refusal_of_line line refusal }
{
    match refusal {
        ParseRefusal::NoMemory => ScriptRefusal::NoMemory,
        refusal => ScriptRefusal::BadLine { line, refusal },
    }
}

// The name of a line's session, and its command.
fn read_line<C: Commands>(alloc: Global, text: &[u8]) -> Result<(&str, C::Command), ParseRefusal>
    requires { length text.now ≤ 16777216 }
    ensures name { IfOk result (λ parts. IsTrue (is_session_name parts.0.now)) }
    ensures found { IfOk result (λ parts. Spells C.spelled text.now parts.0.now (C.view parts.1)) }
    ensures err { IfErr result (Says (IsLineRefused C.refused text.now)) }
{
    let line = match str::from_utf8(text) {
        Ok(line) => line,
        Err(error) => return Err(syntax_at(error.valid_up_to())),
    };
    let (name, command) = match split_line(line) {
        Ok(parts) => parts,
        Err(place) => return Err(syntax_at(place)),
    };
    match C::read(alloc, command) {
        Ok(command) => Ok((name, command)),
        Err(refusal) => Err(on_line(name.len() as u32 + 2, refusal)),
    }
}

fn syntax_at(place: usize) -> ParseRefusal
    requires { place < 2 ^ 32 }
    ensures { result ≡ ParseRefusal.Syntax place }
{
    ParseRefusal::Syntax {
        offset: place as u32,
    }
}

// The refusal of a line whose command is refused behind so many bytes.
fn on_line(bytes: u32, refusal: CommandRefusal) -> ParseRefusal
    requires { IsOffsetBelow (2 ^ 32) (refusal_on_line bytes refusal) }
    ensures { result ≡ refusal_on_line bytes refusal }
{
    match refusal {
        CommandRefusal::Text(refusal) => behind(bytes, refusal),
        CommandRefusal::Unbuilt => ParseRefusal::Syntax { offset: 0 },
    }
}

// The refusal of a text that so many bytes stand before.
fn behind(bytes: u32, refusal: ParseRefusal) -> ParseRefusal
    requires { IsOffsetBelow (2 ^ 32) (refusal_behind bytes refusal) }
    ensures { result ≡ refusal_behind bytes refusal }
{
    match refusal {
        ParseRefusal::Syntax { offset } => ParseRefusal::Syntax {
            offset: bytes + offset,
        },
        refusal => refusal,
    }
}
