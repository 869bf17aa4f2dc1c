//! AWAIT, behind its word, and the commands of a session that is connected.

ghost use Rattle.std.specs.Prelude.{◌≡◌};
ghost use Rattle.acl_grammar.specs.Code.{Gives};
ghost use Rattle.acl_grammar.specs.Reader.{read};
ghost use Rattle.grant_words.specs.Syntax.{grammar_of};
ghost use Rattle.script_commands.specs.Commands.{awaited, session_command};

use crate::RawCommand;
use crate::number::{Length, Turns};
use crate::roles::{grants_of, role_form};
use acl_grammar::{Found, Refusal, Rule, expect, token_of};
use grant_words::{Keyword, Lexeme, Name};
use privilege_statements::RequestRule;
use std::alloc::Global;

#[tactic(auto, unfolding(crate::specs::Commands::awaited))]
pub(crate) fn awaited<'a>(
    alloc: Global,
    tokens: &'a [Lexeme],
) -> Result<Found<'a, Lexeme, RawCommand>, Refusal<'a, Lexeme>>
    ensures { Gives (λ value. value) result (read (grammar_of awaited) tokens.now) }
{
    let length = token_of::<Length, Lexeme>(alloc, tokens)?;
    let rest = expect(&Keyword("WITHIN"), length.rest)?;
    let turns = token_of::<Turns, Lexeme>(alloc, rest)?;
    Ok(Found {
        value: RawCommand::Await {
            length: length.value,
            turns: turns.value,
        },
        rest: turns.rest,
    })
}

#[tactic(auto, unfolding(crate::specs::Commands::session_command))]
pub(crate) fn session_command<'a>(
    alloc: Global,
    tokens: &'a [Lexeme],
) -> Result<Found<'a, Lexeme, RawCommand>, Refusal<'a, Lexeme>>
    ensures { Gives (λ value. value) result (read (grammar_of session_command) tokens.now) }
{
    if let Ok(rest) = expect(&Keyword("USE"), tokens) {
        let schema = Name::read(alloc, rest)?;
        return Ok(Found {
            value: RawCommand::UseSchema(schema.value),
            rest: schema.rest,
        });
    }
    if let Ok(rest) = expect(&Keyword("SET"), tokens) {
        let rest = expect(&Keyword("ROLE"), rest)?;
        let form = role_form(alloc, rest)?;
        return Ok(Found {
            value: RawCommand::SetRole(form.value),
            rest: form.rest,
        });
    }
    if let Ok(rest) = expect(&Keyword("CHECK"), tokens) {
        let request = RequestRule::read(alloc, rest)?;
        let (privileges, target) = request.value;
        return Ok(Found {
            value: RawCommand::Check { privileges, target },
            rest: request.rest,
        });
    }
    let rest = expect(&Keyword("SHOW"), tokens)?;
    let rest = expect(&Keyword("GRANTS"), rest)?;
    grants_of(alloc, rest)
}
