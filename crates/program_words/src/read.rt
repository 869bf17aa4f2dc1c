//! What the words ask for.
ghost use Rattle.std.specs.Prelude.{◌≡◌, IfOk, IfSome, codes, map, string_bytes};
ghost use Rattle.clap.specs.Matches.{found_of};
ghost use Rattle.clap.specs.Simple.{subcommand_rows_of};
ghost use Rattle.clap.specs.Walk.{rows_of};
ghost use Rattle.program_words.specs.Forms.{IsWithin, form_of, make_of};
ghost use Rattle.program_words.specs.Parser.{form_matched, make_given, number_given};

use crate::Form;
use crate::number::number_between;
use crate::operands::are_operands;
use crate::parser::parser;
use clap::ArgMatches;
use clap::error::ErrorKind;
use std::alloc::{AllocError, Global};

// The most sessions and lines that `make` makes: with them a script is within its limits.
const MOST_SESSIONS: u64 = 64;

const MOST_LINES: u64 = 199_936;

/// What the words after the program's name ask for: None where they are none of the forms. Want of memory may come before
/// either.
pub fn read_form(alloc: Global, words: &[String]) -> Result<Option<Form>, AllocError>
    ensures form { IfOk result (λ form. form ≡ form_of (map string_bytes words.now)) }
    ensures within { IfOk result (λ form. IfSome form IsWithin) }
{
    if !are_operands(words) {
        return Ok(None);
    }
    match parser(alloc)?.try_get_matches_from(words) {
        Ok(matches) => Ok(form_in(&matches)),
        Err(error) => match error.kind() {
            ErrorKind::OutOfMemory => Err(AllocError),
            _ => Ok(None),
        },
    }
}

fn form_in(matches: &ArgMatches) -> Option<Form>
    ensures { result ≡ form_matched (subcommand_rows_of matches.now) }
{
    let (name, operands) = matches.subcommand()?;
    if name == "step" {
        Some(Form::Step)
    } else {
        make_in(operands)
    }
}

fn make_in(operands: &ArgMatches) -> Option<Form>
    ensures { result ≡ make_given (rows_of (found_of operands.now)) }
{
    let number = number_in(operands, "NUMBER", 0, u64::MAX);
    let sessions = number_in(operands, "SESSIONS", 1, MOST_SESSIONS);
    let lines = number_in(operands, "LINES", 1, MOST_LINES);
    make_of(number, sessions, lines)
}

fn number_in(operands: &ArgMatches, name: &str, least: u64, most: u64) -> Option<u64>
    ensures { result ≡ number_given least most name.now (rows_of (found_of operands.now)) }
{
    match operands.get_str(name) {
        Some(text) => number_between(text, least, most),
        None => None,
    }
}

fn make_of(number: Option<u64>, sessions: Option<u64>, lines: Option<u64>) -> Option<Form>
    ensures { result ≡ make_of number sessions lines }
{
    match (number, sessions, lines) {
        (Some(number), Some(sessions), Some(lines)) => Some(Form::Make {
            number,
            sessions,
            lines,
        }),
        _ => None,
    }
}
