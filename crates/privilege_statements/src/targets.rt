//! What privileges are held on.

ghost use Rattle.std.specs.Prelude.{◌≡◌, ℕ, List, IfOk};
ghost use Rattle.acl_grammar.specs.Code.{Gives};
ghost use Rattle.acl_grammar.specs.Reader.{begins, first, read};
ghost use Rattle.grant_words.specs.Classes.{is};
ghost use Rattle.grant_words.specs.Syntax.{grammar_of};
ghost use Rattle.priv_items.specs.Escapes.{unescaped};
ghost use Rattle.privilege_statements.specs.Sanity.{long_sample};
ghost use Rattle.privilege_statements.specs.Targets.{behind_star, dotted, long_class, long_target, marked_target, on_escaped_schema, on_schema, plain_target, request_target, schema_target, star_or_table, target};

use acl_grammar::{Class, Found, Refusal, Rule, TokenClass, expect, token_of};
use acl_names::{Ident, NameRefusal};
use acl_stmt::Target;
use grant_words::{Identifier, Keyword, Lexeme, Mark, Name, is_identifier_token};
use priv_items::read_schema;
use std::alloc::{AllocError, Global};

/// The name of a schema that is too long as it is written, and no longer without its escapes.
struct LongSchema;

impl TokenClass<Lexeme> for LongSchema {
    type Value = Ident;

    ghost Meaning = { List ℕ };

    ghost view = { λ value. value };

    ghost is = { is long_class };

    ghost value = { λ token. unescaped token.value };

    #[tactic(auto, unfolding(grant_words::specs::Classes::is))]
    fn value_of(alloc: Global, token: &Lexeme) -> Result<Option<Ident>, AllocError> {
        if !is_identifier_token(token) || Identifier::value_of(alloc, token)?.is_some() {
            return Ok(None);
        }
        match read_schema(alloc, token.value.as_str()) {
            Ok(schema) => Ok(Some(schema)),
            Err(NameRefusal::NoMemory) => Err(AllocError),
            Err(_) => Ok(None),
        }
    }

    ghost sample = { long_sample };
}

/// The target of a GRANT or a REVOKE.
#[tactic(auto, unfolding(crate::specs::Targets::target))]
pub(crate) fn target<'a>(
    alloc: Global,
    tokens: &'a [Lexeme],
) -> Result<Found<'a, Lexeme, Target>, Refusal<'a, Lexeme>>
    ensures { Gives (λ value. value) result (read (grammar_of target) tokens.now) }
{
    if begins_with_mark(tokens) {
        return marked_target(alloc, tokens);
    }
    schema_target(alloc, tokens)
}

/// The target of a request.
#[tactic(auto, unfolding(crate::specs::Targets::request_target))]
pub(crate) fn request_target<'a>(
    alloc: Global,
    tokens: &'a [Lexeme],
) -> Result<Found<'a, Lexeme, Target>, Refusal<'a, Lexeme>>
    ensures { Gives (λ value. value) result (read (grammar_of request_target) tokens.now) }
{
    if begins_with_mark(tokens) {
        return marked_target(alloc, tokens);
    }
    plain_target(alloc, tokens)
}

#[tactic(auto, unfolding(crate::specs::Targets::marked_target))]
fn begins_with_mark(tokens: &[Lexeme]) -> bool
    ensures { result ≡ begins (first (grammar_of marked_target)) tokens.now }
{
    begins_with(&Mark(b'*'), tokens)
        || begins_with(&Keyword("FUNCTION"), tokens)
        || begins_with(&Keyword("PROCEDURE"), tokens)
        || begins_with(&Keyword("TABLE"), tokens)
}

fn begins_with<C: Class<Lexeme>>(class: &C, tokens: &[Lexeme]) -> bool
    ensures { result ≡ begins (C.is class.now) tokens.now }
{
    expect(class, tokens).is_ok()
}

#[tactic(auto, unfolding(crate::specs::Targets::marked_target))]
fn marked_target<'a>(
    alloc: Global,
    tokens: &'a [Lexeme],
) -> Result<Found<'a, Lexeme, Target>, Refusal<'a, Lexeme>>
    ensures { Gives (λ value. value) result (read (grammar_of marked_target) tokens.now) }
{
    if let Ok(rest) = expect(&Mark(b'*'), tokens) {
        return behind_star(rest);
    }
    if let Ok(rest) = expect(&Keyword("FUNCTION"), tokens) {
        let names = dotted(alloc, rest)?;
        let (schema, name) = names.value;
        return Ok(Found {
            value: Target::Function(schema, name),
            rest: names.rest,
        });
    }
    if let Ok(rest) = expect(&Keyword("PROCEDURE"), tokens) {
        let names = dotted(alloc, rest)?;
        let (schema, name) = names.value;
        return Ok(Found {
            value: Target::Procedure(schema, name),
            rest: names.rest,
        });
    }
    let rest = expect(&Keyword("TABLE"), tokens)?;
    let names = dotted(alloc, rest)?;
    let (schema, table) = names.value;
    Ok(Found {
        value: Target::Table(schema, table),
        rest: names.rest,
    })
}

#[tactic(auto, unfolding(crate::specs::Targets::behind_star))]
fn behind_star<'a>(tokens: &'a [Lexeme]) -> Result<Found<'a, Lexeme, Target>, Refusal<'a, Lexeme>>
    ensures { Gives (λ value. value) result (read (grammar_of behind_star) tokens.now) }
{
    let rest = expect(&Mark(b'.'), tokens)?;
    let rest = expect(&Mark(b'*'), rest)?;
    Ok(Found {
        value: Target::Global,
        rest,
    })
}

#[tactic(auto, unfolding(crate::specs::Targets::dotted))]
fn dotted<'a>(
    alloc: Global,
    tokens: &'a [Lexeme],
) -> Result<Found<'a, Lexeme, (Ident, Ident)>, Refusal<'a, Lexeme>>
    ensures { Gives (λ value. value) result (read (grammar_of dotted) tokens.now) }
{
    let schema = Name::read(alloc, tokens)?;
    let rest = expect(&Mark(b'.'), schema.rest)?;
    let name = Name::read(alloc, rest)?;
    Ok(Found {
        value: (schema.value, name.value),
        rest: name.rest,
    })
}

#[tactic(auto, unfolding(crate::specs::Targets::star_or_table))]
fn star_or_table<'a>(
    alloc: Global,
    tokens: &'a [Lexeme],
) -> Result<Found<'a, Lexeme, Option<Ident>>, Refusal<'a, Lexeme>>
    ensures { Gives (λ value. value) result (read (grammar_of star_or_table) tokens.now) }
{
    if let Ok(rest) = expect(&Mark(b'*'), tokens) {
        return Ok(Found { value: None, rest });
    }
    let table = Name::read(alloc, tokens)?;
    Ok(Found {
        value: Some(table.value),
        rest: table.rest,
    })
}

#[tactic(auto, unfolding(crate::specs::Targets::plain_target))]
fn plain_target<'a>(
    alloc: Global,
    tokens: &'a [Lexeme],
) -> Result<Found<'a, Lexeme, Target>, Refusal<'a, Lexeme>>
    ensures { Gives (λ value. value) result (read (grammar_of plain_target) tokens.now) }
{
    let schema = Name::read(alloc, tokens)?;
    let rest = expect(&Mark(b'.'), schema.rest)?;
    let table = star_or_table(alloc, rest)?;
    Ok(Found {
        value: on_schema(schema.value, table.value),
        rest: table.rest,
    })
}

fn on_schema(schema: Ident, table: Option<Ident>) -> Target
    ensures { result ≡ on_schema schema table }
{
    match table {
        None => Target::Schema(schema),
        Some(table) => Target::Table(schema, table),
    }
}

#[tactic(auto, unfolding(crate::specs::Targets::schema_target, crate::specs::Targets::escaped_target, grant_words::specs::Names::ident))]
fn schema_target<'a>(
    alloc: Global,
    tokens: &'a [Lexeme],
) -> Result<Found<'a, Lexeme, Target>, Refusal<'a, Lexeme>>
    ensures { Gives (λ value. value) result (read (grammar_of schema_target) tokens.now) }
{
    let schema = match token_of::<Identifier, Lexeme>(alloc, tokens) {
        Ok(schema) => schema,
        Err(Refusal::NoMemory) => return Err(Refusal::NoMemory),
        Err(Refusal::At(_)) => return long_target(alloc, tokens),
    };
    let rest = expect(&Mark(b'.'), schema.rest)?;
    let table = star_or_table(alloc, rest)?;
    Ok(Found {
        value: on_escaped_schema(alloc, schema.value, table.value)?,
        rest: table.rest,
    })
}

fn on_escaped_schema(
    alloc: Global,
    schema: Ident,
    table: Option<Ident>,
) -> Result<Target, AllocError>
    ensures { IfOk result (λ target. target ≡ on_escaped_schema schema table) }
{
    match table {
        None => Ok(Target::Schema(unescaped_schema(alloc, &schema)?)),
        Some(table) => Ok(Target::Table(schema, table)),
    }
}

#[tactic(auto, using(crate::proofs::Unescaping::stays_a_name, priv_items::proofs::ShortNames::name_is_short))]
fn unescaped_schema(alloc: Global, schema: &Ident) -> Result<Ident, AllocError>
    ensures { IfOk result (λ name. name ≡ unescaped schema.now) }
{
    match read_schema(alloc, schema.as_str()) {
        Ok(schema) => Ok(schema),
        Err(NameRefusal::NoMemory) => Err(AllocError),
        // A name has no fault, and does not get one without its escapes.
        Err(_) => unreachable!(),
    }
}

#[tactic(auto, unfolding(crate::specs::Targets::long_target))]
fn long_target<'a>(
    alloc: Global,
    tokens: &'a [Lexeme],
) -> Result<Found<'a, Lexeme, Target>, Refusal<'a, Lexeme>>
    ensures { Gives (λ value. value) result (read (grammar_of long_target) tokens.now) }
{
    let schema = token_of::<LongSchema, Lexeme>(alloc, tokens)?;
    let rest = expect(&Mark(b'.'), schema.rest)?;
    let rest = expect(&Mark(b'*'), rest)?;
    Ok(Found {
        value: Target::Schema(schema.value),
        rest,
    })
}
