ghost use Rattle.std.specs.Prelude.{◌≡◌, ℕ, List};
ghost use Rattle.std.specs.Str.{str_to_ascii_lowercase};
ghost use Rattle.grant_words.specs.Classes.{has_sort, is, is_identifier_token};
ghost use Rattle.grant_words.specs.Classes.Class.{identifier};
ghost use Rattle.grant_words.specs.Classes.Sort.{name as name_sort};
ghost use Rattle.grant_words.specs.Names.{host_class, role_class, same, user_class};
ghost use Rattle.grant_words.specs.Samples.{host_sample, identifier_sample, role_sample, user_sample};

use crate::Lexeme;
use account_match::{HostPattern, HostRefusal};
use acl_grammar::TokenClass;
use acl_names::{HostText, Ident, NameRefusal, UserName};
use grant_lex::{Kind, is_reserved};
use std::alloc::{AllocError, Global};

/// The user of an account, which may be empty.
pub struct User;

impl TokenClass<Lexeme> for User {
    type Value = UserName;

    ghost Meaning = { List ℕ };

    ghost view = { λ value. value };

    ghost is = { is user_class };

    ghost value = { λ token. same token.value };

    #[tactic(auto, unfolding(crate::specs::Classes::is))]
    fn value_of(alloc: Global, token: &Lexeme) -> Result<Option<UserName>, AllocError> {
        if !is_name(token) {
            return Ok(None);
        }
        match UserName::read(alloc, token.value.as_str()) {
            Ok(user) => Ok(Some(user)),
            Err(NameRefusal::NoMemory) => Err(AllocError),
            Err(_) => Ok(None),
        }
    }

    ghost sample = { user_sample };
}

/// The user of a role, which is not empty.
pub struct RoleUser;

impl TokenClass<Lexeme> for RoleUser {
    type Value = UserName;

    ghost Meaning = { List ℕ };

    ghost view = { λ value. value };

    ghost is = { is role_class };

    ghost value = { λ token. same token.value };

    #[tactic(auto, unfolding(crate::specs::Classes::is))]
    fn value_of(alloc: Global, token: &Lexeme) -> Result<Option<UserName>, AllocError> {
        if token.value.as_str().is_empty() {
            return Ok(None);
        }
        User::value_of(alloc, token)
    }

    ghost sample = { role_sample };
}

/// The host of an account: any word, a string or a name in backquotes, with an address and a mask where it has a `/`.
pub struct Host;

impl TokenClass<Lexeme> for Host {
    type Value = HostText;

    ghost Meaning = { List ℕ };

    ghost view = { λ value. value };

    ghost is = { is host_class };

    ghost value = { λ token. str_to_ascii_lowercase token.value };

    #[tactic(auto, unfolding(crate::specs::Classes::is))]
    fn value_of(alloc: Global, token: &Lexeme) -> Result<Option<HostText>, AllocError> {
        if matches!(token.kind, Kind::Mark(_)) {
            return Ok(None);
        }
        let host = match HostText::read(alloc, token.value.as_str()) {
            Ok(host) => host,
            Err(NameRefusal::NoMemory) => return Err(AllocError),
            Err(_) => return Ok(None),
        };
        match HostPattern::read(alloc, &host) {
            Ok(_pattern) => Ok(Some(host)),
            Err(HostRefusal::NoMemory) => Err(AllocError),
            Err(HostRefusal::BadMask) => Ok(None),
        }
    }

    ghost sample = { host_sample };
}

/// The name of a schema, a table, a column or a routine, as it is written.
pub struct Identifier;

impl TokenClass<Lexeme> for Identifier {
    type Value = Ident;

    ghost Meaning = { List ℕ };

    ghost view = { λ value. value };

    ghost is = { is identifier };

    ghost value = { λ token. same token.value };

    #[tactic(auto, unfolding(crate::specs::Classes::is))]
    fn value_of(alloc: Global, token: &Lexeme) -> Result<Option<Ident>, AllocError> {
        if !is_identifier_token(token) {
            return Ok(None);
        }
        match Ident::read(alloc, token.value.as_str()) {
            Ok(name) => Ok(Some(name)),
            Err(NameRefusal::NoMemory) => Err(AllocError),
            Err(_) => Ok(None),
        }
    }

    ghost sample = { identifier_sample };
}

fn is_name(token: &Lexeme) -> bool
    ensures { result ≡ has_sort name_sort token.now.kind token.now.value }
{
    match token.kind {
        Kind::Word => !is_reserved(token.value.as_str()),
        Kind::Quoted | Kind::Backquoted => true,
        Kind::Mark(_) => false,
    }
}

/// Whether the token is written as an identifier: as a word that is not reserved, or between backquotes. How long it is
/// is not asked.
pub fn is_identifier_token(token: &Lexeme) -> bool
    ensures { result ≡ is_identifier_token token.now.kind token.now.value }
{
    match token.kind {
        Kind::Word => !is_reserved(token.value.as_str()),
        Kind::Backquoted => true,
        Kind::Quoted | Kind::Mark(_) => false,
    }
}
