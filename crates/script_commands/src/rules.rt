//! The rules of commands.

ghost use Rattle.std.specs.Prelude.{◌≡◌};
ghost use Rattle.grant_words.specs.Syntax.{grammar_of};
ghost use Rattle.script_commands.specs.Commands.{command, connect};
ghost use Rattle.script_commands.specs.Sanity.{command_sane, connect_sane};
ghost use Rattle.script_commands.specs.declared.command.Connect.{Connect};
ghost use Rattle.script_commands.specs.declared.command.RawCommand.{RawCommand};

use crate::connection::connection;
use crate::session::{awaited, session_command};
use crate::{Connect, RawCommand};
use acl_grammar::{Found, Refusal, Rule, expect};
use grant_words::{Keyword, Lexeme};
use std::alloc::Global;

/// A CONNECT without a moment.
pub struct ConnectRule;

impl Rule<Lexeme> for ConnectRule {
    type Value = Connect;

    ghost Meaning = { Connect };

    ghost view = { λ value. value };

    ghost grammar = { grammar_of connect };

    #[tactic(auto, unfolding(crate::specs::Commands::connect))]
    fn read<'a>(
        alloc: Global,
        tokens: &'a [Lexeme],
    ) -> Result<Found<'a, Lexeme, Connect>, Refusal<'a, Lexeme>> {
        let rest = expect(&Keyword("CONNECT"), tokens)?;
        connection(alloc, rest)
    }

    ghost sane = { connect_sane };
}

/// A command of a script that is no statement, without the moment of a CONNECT.
pub struct CommandRule;

impl Rule<Lexeme> for CommandRule {
    type Value = RawCommand;

    ghost Meaning = { RawCommand };

    ghost view = { λ value. value };

    ghost grammar = { grammar_of command };

    #[tactic(auto, unfolding(crate::specs::Commands::command, crate::specs::Commands::connect))]
    fn read<'a>(
        alloc: Global,
        tokens: &'a [Lexeme],
    ) -> Result<Found<'a, Lexeme, RawCommand>, Refusal<'a, Lexeme>> {
        if let Ok(rest) = expect(&Keyword("CONNECT"), tokens) {
            let connect = connection(alloc, rest)?;
            return Ok(Found {
                value: RawCommand::Connect(connect.value),
                rest: connect.rest,
            });
        }
        if let Ok(rest) = expect(&Keyword("DISCONNECT"), tokens) {
            return Ok(Found {
                value: RawCommand::Disconnect,
                rest,
            });
        }
        if let Ok(rest) = expect(&Keyword("AWAIT"), tokens) {
            return awaited(alloc, rest);
        }
        session_command(alloc, tokens)
    }

    ghost sane = { command_sane };
}
