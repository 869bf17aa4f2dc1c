//! Made scripts as texts.
ghost use Rattle.std.specs.Prelude.{◌≡◌, ◌<◌, ◌≤◌, ◌+◌, ◌*◌, ◌++◌, IfOk, OnOk, length, string_bytes};
ghost use Rattle.std.specs.List.{flat_map, range_with_len};
ghost use Rattle.made_scripts.specs.Draws.{lines_from};
ghost use Rattle.made_scripts.specs.Scripts.{made};
ghost use Rattle.made_scripts.specs.Texts.{first_line, line_text};

use crate::draws::Draws;
use std::alloc::{AllocError, Global};
use std::fmt::Write;

/// The script that is made from a number: a line for each session that connects it as root, and behind them so many lines,
/// whose sessions, commands and names are drawn.
pub fn made_script(
    alloc: Global,
    number: u64,
    sessions: u64,
    lines: u64,
) -> Result<String, AllocError>
    requires { 0 < sessions }
    ensures made { IfOk result (λ script. string_bytes script ≡ made number sessions lines) }
    ensures short { sessions ≤ 64 → IfOk result (λ script.
        length (string_bytes script) ≤ 40 * (sessions + lines)) }
{
    let mut script = String::new(alloc);
    write_first_lines(&mut script, sessions)?;
    write_lines(&mut script, number, sessions, lines)?;
    Ok(script)
}

fn write_first_lines(script: &mut String, sessions: u64) -> Result<(), AllocError>
    ensures { OnOk result (string_bytes script.new
        ≡ string_bytes script.old ++ flat_map first_line (range_with_len 0 sessions)) }
{
    for session in 0..sessions {
        writeln!(script, "s{session}> CONNECT root FROM LOCAL")?;
    }
    Ok(())
}

fn write_lines(
    script: &mut String,
    number: u64,
    sessions: u64,
    lines: u64,
) -> Result<(), AllocError>
    requires { 0 < sessions }
    ensures { OnOk result (string_bytes script.new
        ≡ string_bytes script.old ++ flat_map line_text (lines_from sessions number lines)) }
{
    let mut draws = Draws::new(number);
    for _count in 0..lines {
        let line = draws.line(sessions);
        write!(script, "{line}")?;
    }
    Ok(())
}
