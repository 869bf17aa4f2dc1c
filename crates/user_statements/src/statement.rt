ghost use Rattle.std.specs.Prelude.{◌≡◌};
ghost use Rattle.acl_grammar.specs.Code.{Gives};
ghost use Rattle.acl_grammar.specs.Reader.{read};
ghost use Rattle.acl_stmt.specs.declared.statement.Statement.{Statement};
ghost use Rattle.grant_words.specs.Syntax.{grammar_of};
ghost use Rattle.user_statements.specs.Sanity.{user_statement_sane};
ghost use Rattle.user_statements.specs.Statements.{on_grants, user_statement};

use crate::roles::{grant_roles, revoke};
use crate::set::set;
use crate::users::{alter_user, create, drop, rename_user};
use acl_grammar::{Found, Refusal, Rule, expect};
use acl_stmt::Statement;
use grant_words::{Keyword, Lexeme};
use std::alloc::Global;

/// A statement that names no privileges, without a semicolon.
pub struct UserStatement;

impl Rule<Lexeme> for UserStatement {
    type Value = Statement;

    ghost Meaning = { Statement };

    ghost view = { λ value. value };

    ghost grammar = { grammar_of user_statement };

    #[tactic(auto, unfolding(crate::specs::Statements::user_statement))]
    fn read<'a>(
        alloc: Global,
        tokens: &'a [Lexeme],
    ) -> Result<Found<'a, Lexeme, Statement>, Refusal<'a, Lexeme>> {
        if let Ok(rest) = expect(&Keyword("CREATE"), tokens) {
            return create(alloc, rest);
        }
        if let Ok(rest) = expect(&Keyword("ALTER"), tokens) {
            let rest = expect(&Keyword("USER"), rest)?;
            return alter_user(alloc, rest);
        }
        if let Ok(rest) = expect(&Keyword("DROP"), tokens) {
            return drop(alloc, rest);
        }
        if let Ok(rest) = expect(&Keyword("RENAME"), tokens) {
            let rest = expect(&Keyword("USER"), rest)?;
            return rename_user(alloc, rest);
        }
        grants_or_settings(alloc, tokens)
    }

    ghost sane = { user_statement_sane };
}

/// GRANT and REVOKE of roles, REVOKE ALL, or SET.
#[tactic(auto, unfolding(crate::specs::Statements::on_grants))]
fn grants_or_settings<'a>(
    alloc: Global,
    tokens: &'a [Lexeme],
) -> Result<Found<'a, Lexeme, Statement>, Refusal<'a, Lexeme>>
    ensures { Gives (λ statement. statement) result (read (grammar_of on_grants) tokens.now) }
{
    if let Ok(rest) = expect(&Keyword("GRANT"), tokens) {
        return grant_roles(alloc, rest);
    }
    if let Ok(rest) = expect(&Keyword("REVOKE"), tokens) {
        return revoke(alloc, rest);
    }
    let rest = expect(&Keyword("SET"), tokens)?;
    set(alloc, rest)
}
