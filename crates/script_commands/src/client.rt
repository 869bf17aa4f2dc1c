//! The address or the name of a client.

ghost use Rattle.std.specs.Prelude.{◌≡◌, ℕ, List};
ghost use Rattle.std.specs.Str.{str_to_ascii_lowercase};
ghost use Rattle.grant_words.specs.Classes.{is};
ghost use Rattle.script_commands.specs.Commands.{client_class};
ghost use Rattle.script_commands.specs.Sanity.{client_sample};

use acl_grammar::TokenClass;
use acl_names::{HostText, NameRefusal};
use grant_lex::Kind;
use grant_words::Lexeme;
use std::alloc::{AllocError, Global};

/// The address or the name of a client, as a string. It need not have the form of an account's host.
pub(crate) struct ClientText;

impl TokenClass<Lexeme> for ClientText {
    type Value = HostText;

    ghost Meaning = { List ℕ };

    ghost view = { λ value. value };

    ghost is = { is client_class };

    ghost value = { λ token. str_to_ascii_lowercase token.value };

    #[tactic(auto, unfolding(grant_words::specs::Classes::is))]
    fn value_of(alloc: Global, token: &Lexeme) -> Result<Option<HostText>, AllocError> {
        if token.kind != Kind::Quoted {
            return Ok(None);
        }
        match HostText::read(alloc, token.value.as_str()) {
            Ok(host) => Ok(Some(host)),
            Err(NameRefusal::NoMemory) => Err(AllocError),
            Err(_) => Ok(None),
        }
    }

    ghost sample = { client_sample };
}
