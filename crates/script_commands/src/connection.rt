//! CONNECT, behind its word.

ghost use Rattle.std.specs.Prelude.{◌≡◌, IfOk, []};
ghost use Rattle.acl_grammar.specs.Code.{Gives};
ghost use Rattle.acl_grammar.specs.Reader.{read};
ghost use Rattle.grant_words.specs.Syntax.{grammar_of};
ghost use Rattle.script_commands.specs.Commands.{client, client_name, client_text, connection, password};

use crate::Connect;
use crate::client::ClientText;
use account_match::Client;
use acl_grammar::{Found, Refusal, expect, token_of};
use acl_names::{HostText, Verifier};
use grant_words::{Keyword, Lexeme, User};
use login_throttle::verifier;
use std::alloc::{AllocError, Global};
use user_statements::Password;

#[tactic(auto, unfolding(crate::specs::Commands::connection))]
pub(crate) fn connection<'a>(
    alloc: Global,
    tokens: &'a [Lexeme],
) -> Result<Found<'a, Lexeme, Connect>, Refusal<'a, Lexeme>>
    ensures { Gives (λ value. value) result (read (grammar_of connection) tokens.now) }
{
    let user = token_of::<User, Lexeme>(alloc, tokens)?;
    let rest = expect(&Keyword("FROM"), user.rest)?;
    let client = client(alloc, rest)?;
    let password = password(alloc, client.rest)?;
    Ok(Found {
        value: Connect {
            user: user.value,
            client: client.value,
            verifier: password.value,
        },
        rest: password.rest,
    })
}

#[tactic(auto, unfolding(crate::specs::Commands::client, crate::specs::Commands::client_text))]
fn client<'a>(
    alloc: Global,
    tokens: &'a [Lexeme],
) -> Result<Found<'a, Lexeme, Client>, Refusal<'a, Lexeme>>
    ensures { Gives (λ value. value) result (read (grammar_of client) tokens.now) }
{
    if let Ok(rest) = expect(&Keyword("LOCAL"), tokens) {
        return Ok(Found {
            value: Client::Local,
            rest,
        });
    }
    let address = token_of::<ClientText, Lexeme>(alloc, tokens)?;
    let name = client_name(alloc, address.rest)?;
    Ok(Found {
        value: Client::Tcp {
            address: address.value,
            name: name.value,
        },
        rest: name.rest,
    })
}

#[tactic(auto, unfolding(crate::specs::Commands::client_name, crate::specs::Commands::client_text))]
fn client_name<'a>(
    alloc: Global,
    tokens: &'a [Lexeme],
) -> Result<Found<'a, Lexeme, HostText>, Refusal<'a, Lexeme>>
    ensures { Gives (λ value. value) result (read (grammar_of client_name) tokens.now) }
{
    match expect(&Keyword("NAME"), tokens) {
        Ok(rest) => token_of::<ClientText, Lexeme>(alloc, rest),
        Err(_) => Ok(Found {
            value: no_name(alloc)?,
            rest: tokens,
        }),
    }
}

fn no_name(alloc: Global) -> Result<HostText, AllocError>
    ensures { IfOk result (λ host. host ≡ []) }
{
    match HostText::read(alloc, "") {
        Ok(host) => Ok(host),
        Err(_) => Err(AllocError),
    }
}

#[tactic(auto, unfolding(crate::specs::Commands::password))]
fn password<'a>(
    alloc: Global,
    tokens: &'a [Lexeme],
) -> Result<Found<'a, Lexeme, Verifier>, Refusal<'a, Lexeme>>
    ensures { Gives (λ value. value) result (read (grammar_of password) tokens.now) }
{
    match expect(&Keyword("PASSWORD"), tokens) {
        Ok(rest) => token_of::<Password, Lexeme>(alloc, rest),
        Err(_) => Ok(Found {
            value: verifier(""),
            rest: tokens,
        }),
    }
}
