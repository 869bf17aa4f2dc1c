//! What the tokens of a text spell: a command, without the moment of a CONNECT, or a statement.

ghost use Rattle.std.specs.Prelude.{◌≡◌, ◌<◌, ◌^◌, IfErr, IfOk, cond, length, nat_le};
ghost use Rattle.acl_grammar.specs.Code.{RefusedAs};
ghost use Rattle.acl_grammar.specs.Spelling.{Refused};
ghost use Rattle.grant_parse.specs.Texts.{IsSpelled, IsSyntaxRefusal};
ghost use Rattle.script_read.specs.Written.{SpellsWritten, as_written};

use acl_grammar::{Either, Refusal, read_either, read_whole};
use acl_stmt::Statement;
use grant_parse::{PrivilegeRule, UserRule, cut};
use grant_refusal::ParseRefusal;
use grant_words::Lexeme;
use privilege_statements::RawStatement;
use script_commands::{CommandRule, RawCommand};
use std::alloc::Global;

/// What the text spells, whatever the levels of its privileges.
#[tactic(auto, using(grant_parse::proofs::Places::within_tokens))]
pub(crate) fn spelled(
    alloc: Global,
    text: &str,
) -> Result<Either<RawCommand, Either<Statement, RawStatement>>, ParseRefusal>
    requires { length text.now < 2 ^ 32 }
    ensures ok { IfOk result (λ value. IsSpelled SpellsWritten text.now (as_written value)) }
    ensures err { IfErr result (IsSyntaxRefusal SpellsWritten text.now) }
{
    let tokens = cut(alloc, text)?;
    match read_written(alloc, tokens.lexemes.as_slice()) {
        Ok(value) => Ok(value),
        Err(Refusal::NoMemory) => Err(ParseRefusal::NoMemory),
        Err(Refusal::At(rest)) => Err(ParseRefusal::Syntax {
            offset: tokens.place(text, rest.len()),
        }),
    }
}

// Where neither a command nor a statement is spelled, the refusal that is further on.
fn read_written<'a>(
    alloc: Global,
    lexemes: &'a [Lexeme],
) -> Result<Either<RawCommand, Either<Statement, RawStatement>>, Refusal<'a, Lexeme>>
    ensures ok { IfOk result (λ value. SpellsWritten lexemes.now (as_written value)) }
    ensures err { IfErr result (RefusedAs (Refused SpellsWritten lexemes.now)) }
{
    let first = match read_whole::<CommandRule, Lexeme>(alloc, lexemes) {
        Ok(command) => return Ok(Either::First(command)),
        Err(Refusal::NoMemory) => return Err(Refusal::NoMemory),
        Err(Refusal::At(rest)) => rest,
    };
    let second = match read_either::<UserRule, PrivilegeRule, Lexeme>(alloc, lexemes) {
        Ok(statement) => return Ok(Either::Second(statement)),
        Err(Refusal::NoMemory) => return Err(Refusal::NoMemory),
        Err(Refusal::At(rest)) => rest,
    };
    Err(Refusal::At(shorter(first, second)))
}

fn shorter<'a>(first: &'a [Lexeme], second: &'a [Lexeme]) -> &'a [Lexeme]
    ensures { result.now ≡ cond (nat_le (length first.now) (length second.now)) first.now second.now }
{
    if first.len() <= second.len() {
        first
    } else {
        second
    }
}
