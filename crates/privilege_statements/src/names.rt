//! Names of privileges.

ghost use Rattle.std.specs.Prelude.{◌≡◌, ◌<◌, ℕ};
ghost use Rattle.acl_grammar.specs.Code.{Gives};
ghost use Rattle.acl_grammar.specs.Reader.{read};
ghost use Rattle.grant_words.specs.Classes.{is};
ghost use Rattle.grant_words.specs.Syntax.{grammar_of};
ghost use Rattle.priv_sets.specs.DynamicNames.{dynamic_name};
ghost use Rattle.priv_sets.specs.PlainNames.{plain_name};
ghost use Rattle.privilege_statements.specs.PrivilegeNames.{alter_names, create_names, create_others, drop_names, dynamic_class, dynamic_number, dynamic_numbers, lone_class, lone_number, lone_numbers, named_among, other_name, replication_names, show_names, static_name};
ghost use Rattle.privilege_statements.specs.Sanity.{dynamic_sample, lone_sample};

use acl_grammar::{Found, Refusal, TokenClass, expect, token_of};
use grant_lex::Kind;
use grant_words::{Keyword, Lexeme};
use priv_sets::{Dynamic, Plain};
use std::alloc::{AllocError, Global};

// The static privileges whose names are one word, with which no longer name begins.
const LONE_NAMES: [u8; 14] = [0, 1, 2, 3, 6, 7, 8, 9, 10, 11, 14, 17, 25, 26];

/// The name of a static privilege that is one word, with which no longer name begins.
struct LoneName;

impl TokenClass<Lexeme> for LoneName {
    type Value = Plain;

    ghost Meaning = { ℕ };

    ghost view = { λ value. value };

    ghost is = { is lone_class };

    ghost value = { λ token. lone_number token.value };

    #[tactic(auto, using(crate::proofs::NamedWords::among_words), unfolding(grant_words::specs::Classes::is))]
    fn value_of(_alloc: Global, token: &Lexeme) -> Result<Option<Plain>, AllocError> {
        if token.kind == Kind::Word {
            Ok(lone_name(token.value.as_str()))
        } else {
            Ok(None)
        }
    }

    ghost sample = { lone_sample };
}

#[tactic(auto, unfolding(crate::specs::PrivilegeNames::lone_numbers))]
fn lone_name(word: &str) -> Option<Plain>
    ensures { result ≡ named_among plain_name lone_numbers word.now }
{
    for number in LONE_NAMES {
        let plain = Plain::new(number);
        if plain.name().eq_ignore_ascii_case(word) {
            return Some(plain);
        }
    }
    None
}

/// The name of a dynamic privilege.
pub(crate) struct DynamicName;

impl TokenClass<Lexeme> for DynamicName {
    type Value = Dynamic;

    ghost Meaning = { ℕ };

    ghost view = { λ value. value };

    ghost is = { is dynamic_class };

    ghost value = { λ token. dynamic_number token.value };

    #[tactic(auto, using(crate::proofs::NamedWords::among_words), unfolding(grant_words::specs::Classes::is))]
    fn value_of(_alloc: Global, token: &Lexeme) -> Result<Option<Dynamic>, AllocError> {
        if token.kind == Kind::Word {
            Ok(dynamic_name(token.value.as_str()))
        } else {
            Ok(None)
        }
    }

    ghost sample = { dynamic_sample };
}

fn dynamic_name(word: &str) -> Option<Dynamic>
    ensures { result ≡ named_among dynamic_name dynamic_numbers word.now }
{
    Dynamic::by_name(word)
}

/// The name of a static privilege, the longest that fits.
#[tactic(auto, unfolding(crate::specs::PrivilegeNames::static_name))]
pub(crate) fn static_name<'a>(
    alloc: Global,
    tokens: &'a [Lexeme],
) -> Result<Found<'a, Lexeme, Plain>, Refusal<'a, Lexeme>>
    ensures { Gives (λ number. number) result (read (grammar_of static_name) tokens.now) }
{
    if let Ok(rest) = expect(&Keyword("CREATE"), tokens) {
        return create_names(rest);
    }
    if let Ok(rest) = expect(&Keyword("ALTER"), tokens) {
        return alter_names(rest);
    }
    if let Ok(rest) = expect(&Keyword("DROP"), tokens) {
        return drop_names(rest);
    }
    other_name(alloc, tokens)
}

#[tactic(auto, unfolding(crate::specs::PrivilegeNames::other_name))]
fn other_name<'a>(
    alloc: Global,
    tokens: &'a [Lexeme],
) -> Result<Found<'a, Lexeme, Plain>, Refusal<'a, Lexeme>>
    ensures { Gives (λ number. number) result (read (grammar_of other_name) tokens.now) }
{
    if let Ok(rest) = expect(&Keyword("SHOW"), tokens) {
        return show_names(rest);
    }
    if let Ok(rest) = expect(&Keyword("LOCK"), tokens) {
        let rest = expect(&Keyword("TABLES"), rest)?;
        return found(16, rest);
    }
    if let Ok(rest) = expect(&Keyword("REPLICATION"), tokens) {
        return replication_names(rest);
    }
    token_of::<LoneName, Lexeme>(alloc, tokens)
}

#[tactic(auto, unfolding(crate::specs::PrivilegeNames::create_names))]
fn create_names<'a>(tokens: &'a [Lexeme]) -> Result<Found<'a, Lexeme, Plain>, Refusal<'a, Lexeme>>
    ensures { Gives (λ number. number) result (read (grammar_of create_names) tokens.now) }
{
    if let Ok(rest) = expect(&Keyword("TEMPORARY"), tokens) {
        let rest = expect(&Keyword("TABLES"), rest)?;
        return found(15, rest);
    }
    if let Ok(rest) = expect(&Keyword("VIEW"), tokens) {
        return found(20, rest);
    }
    if let Ok(rest) = expect(&Keyword("ROUTINE"), tokens) {
        return found(22, rest);
    }
    create_others(tokens)
}

#[tactic(auto, unfolding(crate::specs::PrivilegeNames::create_others))]
fn create_others<'a>(tokens: &'a [Lexeme]) -> Result<Found<'a, Lexeme, Plain>, Refusal<'a, Lexeme>>
    ensures { Gives (λ number. number) result (read (grammar_of create_others) tokens.now) }
{
    if let Ok(rest) = expect(&Keyword("USER"), tokens) {
        return found(24, rest);
    }
    if let Ok(rest) = expect(&Keyword("TABLESPACE"), tokens) {
        return found(27, rest);
    }
    if let Ok(rest) = expect(&Keyword("ROLE"), tokens) {
        return found(28, rest);
    }
    found(4, tokens)
}

#[tactic(auto, unfolding(crate::specs::PrivilegeNames::alter_names))]
fn alter_names<'a>(tokens: &'a [Lexeme]) -> Result<Found<'a, Lexeme, Plain>, Refusal<'a, Lexeme>>
    ensures { Gives (λ number. number) result (read (grammar_of alter_names) tokens.now) }
{
    if let Ok(rest) = expect(&Keyword("ROUTINE"), tokens) {
        return found(23, rest);
    }
    found(12, tokens)
}

#[tactic(auto, unfolding(crate::specs::PrivilegeNames::drop_names))]
fn drop_names<'a>(tokens: &'a [Lexeme]) -> Result<Found<'a, Lexeme, Plain>, Refusal<'a, Lexeme>>
    ensures { Gives (λ number. number) result (read (grammar_of drop_names) tokens.now) }
{
    if let Ok(rest) = expect(&Keyword("ROLE"), tokens) {
        return found(29, rest);
    }
    found(5, tokens)
}

#[tactic(auto, unfolding(crate::specs::PrivilegeNames::show_names))]
fn show_names<'a>(tokens: &'a [Lexeme]) -> Result<Found<'a, Lexeme, Plain>, Refusal<'a, Lexeme>>
    ensures { Gives (λ number. number) result (read (grammar_of show_names) tokens.now) }
{
    if let Ok(rest) = expect(&Keyword("DATABASES"), tokens) {
        return found(13, rest);
    }
    let rest = expect(&Keyword("VIEW"), tokens)?;
    found(21, rest)
}

#[tactic(auto, unfolding(crate::specs::PrivilegeNames::replication_names))]
fn replication_names<'a>(
    tokens: &'a [Lexeme],
) -> Result<Found<'a, Lexeme, Plain>, Refusal<'a, Lexeme>>
    ensures { Gives (λ number. number) result (read (grammar_of replication_names) tokens.now) }
{
    if let Ok(rest) = expect(&Keyword("SLAVE"), tokens) {
        return found(18, rest);
    }
    let rest = expect(&Keyword("CLIENT"), tokens)?;
    found(19, rest)
}

fn found<'a>(
    number: u8,
    rest: &'a [Lexeme],
) -> Result<Found<'a, Lexeme, Plain>, Refusal<'a, Lexeme>>
    requires { number < 31 }
    ensures { Gives (λ number. number) result (Ok (number, rest.now)) }
{
    Ok(Found {
        value: Plain::new(number),
        rest,
    })
}
