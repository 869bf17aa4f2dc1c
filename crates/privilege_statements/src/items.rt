//! What stands between GRANT, REVOKE or a request and its ON.

ghost use Rattle.std.specs.Prelude.{◌≡◌};
ghost use Rattle.acl_grammar.specs.Code.{Gives};
ghost use Rattle.acl_grammar.specs.Reader.{read};
ghost use Rattle.grant_words.specs.Syntax.{grammar_of};
ghost use Rattle.priv_items.specs.declared.item.Item.{Item};
ghost use Rattle.privilege_statements.specs.PrivilegeItems.{column_names, item, maybe_columns, maybe_privileges, privilege_item, privileges, static_item, static_privilege};
ghost use Rattle.privilege_statements.specs.Sanity.{item_sane};

use crate::names::{DynamicName, static_name};
use acl_grammar::{Found, Refusal, Rule, expect, list_of, token_of};
use acl_items::Items;
use acl_names::Ident;
use grant_words::{Keyword, Lexeme, Mark, Name};
use priv_items::{Item, Named};
use priv_sets::Plain;
use std::alloc::Global;

/// USAGE, GRANT OPTION, or a privilege, which may have columns.
struct NamedItem;

impl Rule<Lexeme> for NamedItem {
    type Value = Item;

    ghost Meaning = { Item };

    ghost view = { λ value. value };

    ghost grammar = { grammar_of item };

    #[tactic(auto, unfolding(crate::specs::PrivilegeItems::item))]
    fn read<'a>(
        alloc: Global,
        tokens: &'a [Lexeme],
    ) -> Result<Found<'a, Lexeme, Item>, Refusal<'a, Lexeme>> {
        if let Ok(rest) = expect(&Keyword("USAGE"), tokens) {
            return Ok(Found {
                value: Item::Usage,
                rest,
            });
        }
        if let Ok(rest) = expect(&Keyword("GRANT"), tokens) {
            let rest = expect(&Keyword("OPTION"), rest)?;
            return Ok(Found {
                value: Item::Plain(Plain::grant_option()),
                rest,
            });
        }
        privilege_item(alloc, tokens)
    }

    ghost sane = { item_sane };
}

#[tactic(auto, unfolding(crate::specs::PrivilegeItems::privilege_item))]
fn privilege_item<'a>(
    alloc: Global,
    tokens: &'a [Lexeme],
) -> Result<Found<'a, Lexeme, Item>, Refusal<'a, Lexeme>>
    ensures { Gives (λ value. value) result (read (grammar_of privilege_item) tokens.now) }
{
    match token_of::<DynamicName, Lexeme>(alloc, tokens) {
        Ok(dynamic) => Ok(Found {
            value: Item::Dynamic(dynamic.value),
            rest: dynamic.rest,
        }),
        Err(Refusal::NoMemory) => Err(Refusal::NoMemory),
        Err(Refusal::At(_)) => static_privilege(alloc, tokens),
    }
}

#[tactic(auto, unfolding(crate::specs::PrivilegeItems::static_privilege))]
fn static_privilege<'a>(
    alloc: Global,
    tokens: &'a [Lexeme],
) -> Result<Found<'a, Lexeme, Item>, Refusal<'a, Lexeme>>
    ensures { Gives (λ value. value) result (read (grammar_of static_privilege) tokens.now) }
{
    let privilege = match static_name(alloc, tokens) {
        Ok(privilege) => privilege,
        Err(refusal) => return Err(refusal),
    };
    let columns = maybe_columns(alloc, privilege.rest)?;
    Ok(Found {
        value: static_item(privilege.value, columns.value),
        rest: columns.rest,
    })
}

fn static_item(privilege: Plain, columns: Option<Items<Ident>>) -> Item
    ensures { result ≡ static_item privilege columns }
{
    match columns {
        None => Item::Plain(privilege),
        Some(columns) => Item::Columns { privilege, columns },
    }
}

#[tactic(auto, unfolding(crate::specs::PrivilegeItems::maybe_columns))]
fn maybe_columns<'a>(
    alloc: Global,
    tokens: &'a [Lexeme],
) -> Result<Found<'a, Lexeme, Option<Items<Ident>>>, Refusal<'a, Lexeme>>
    ensures { Gives (λ value. value) result (read (grammar_of maybe_columns) tokens.now) }
{
    let Ok(rest) = expect(&Mark(b'('), tokens) else {
        return Ok(Found {
            value: None,
            rest: tokens,
        });
    };
    let columns = column_names(alloc, rest)?;
    Ok(Found {
        value: Some(columns.value),
        rest: columns.rest,
    })
}

#[tactic(auto, using(grant_words::proofs::Mapped::map_same), unfolding(crate::specs::PrivilegeItems::column_names))]
fn column_names<'a>(
    alloc: Global,
    tokens: &'a [Lexeme],
) -> Result<Found<'a, Lexeme, Items<Ident>>, Refusal<'a, Lexeme>>
    ensures { Gives (λ value. value) result (read (grammar_of column_names) tokens.now) }
{
    let columns = list_of::<Name, Lexeme, Mark>(alloc, &Mark(b','), tokens)?;
    let rest = expect(&Mark(b')'), columns.rest)?;
    Ok(Found {
        value: Items::from_vec(columns.value),
        rest,
    })
}

/// ALL, or a list of items.
#[tactic(auto, using(grant_words::proofs::Mapped::map_same), unfolding(crate::specs::PrivilegeItems::privileges))]
pub(crate) fn privileges<'a>(
    alloc: Global,
    tokens: &'a [Lexeme],
) -> Result<Found<'a, Lexeme, Named>, Refusal<'a, Lexeme>>
    ensures { Gives (λ value. value) result (read (grammar_of privileges) tokens.now) }
{
    if let Ok(rest) = expect(&Keyword("ALL"), tokens) {
        return Ok(maybe_privileges(rest));
    }
    let items = list_of::<NamedItem, Lexeme, Mark>(alloc, &Mark(b','), tokens)?;
    Ok(Found {
        value: Named::Listed(Items::from_vec(items.value)),
        rest: items.rest,
    })
}

#[tactic(auto, unfolding(crate::specs::PrivilegeItems::maybe_privileges))]
fn maybe_privileges<'a>(tokens: &'a [Lexeme]) -> Found<'a, Lexeme, Named>
    ensures { read (grammar_of maybe_privileges) tokens.now ≡ Ok (result.value, result.rest.now) }
{
    let rest = match expect(&Keyword("PRIVILEGES"), tokens) {
        Ok(rest) => rest,
        Err(_) => tokens,
    };
    Found {
        value: Named::All,
        rest,
    }
}
