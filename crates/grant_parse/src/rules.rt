//! Statements of both kinds, each with its semicolon or without one.

ghost use Rattle.std.specs.Prelude.{◌≡◌};
ghost use Rattle.acl_grammar.specs.Code.{Gives};
ghost use Rattle.acl_grammar.specs.Reader.{read};
ghost use Rattle.acl_stmt.specs.declared.statement.Statement.{Statement};
ghost use Rattle.grant_parse.specs.Sanity.{privilege_rule_sane, user_rule_sane};
ghost use Rattle.grant_parse.specs.Statements.{privilege_rule, semicolon, user_rule};
ghost use Rattle.grant_words.specs.Syntax.{grammar_of};
ghost use Rattle.privilege_statements.specs.declared.statement.RawStatement.{RawStatement};

use acl_grammar::{Found, Refusal, Rule, expect};
use acl_stmt::Statement;
use grant_words::{Lexeme, Mark};
use privilege_statements::{PrivilegeStatement, RawStatement};
use std::alloc::Global;
use user_statements::UserStatement;

/// A statement that names no privileges.
pub struct UserRule;

impl Rule<Lexeme> for UserRule {
    type Value = Statement;

    ghost Meaning = { Statement };

    ghost view = { λ value. value };

    ghost grammar = { grammar_of user_rule };

    #[tactic(auto, unfolding(crate::specs::Statements::user_rule))]
    fn read<'a>(
        alloc: Global,
        tokens: &'a [Lexeme],
    ) -> Result<Found<'a, Lexeme, Statement>, Refusal<'a, Lexeme>> {
        let found = UserStatement::read(alloc, tokens)?;
        let end = semicolon(found.rest)?;
        Ok(Found {
            value: found.value,
            rest: end.rest,
        })
    }

    ghost sane = { user_rule_sane };
}

/// A GRANT or a REVOKE of privileges.
pub struct PrivilegeRule;

impl Rule<Lexeme> for PrivilegeRule {
    type Value = RawStatement;

    ghost Meaning = { RawStatement };

    ghost view = { λ value. value };

    ghost grammar = { grammar_of privilege_rule };

    #[tactic(auto, unfolding(crate::specs::Statements::privilege_rule))]
    fn read<'a>(
        alloc: Global,
        tokens: &'a [Lexeme],
    ) -> Result<Found<'a, Lexeme, RawStatement>, Refusal<'a, Lexeme>> {
        let found = PrivilegeStatement::read(alloc, tokens)?;
        let end = semicolon(found.rest)?;
        Ok(Found {
            value: found.value,
            rest: end.rest,
        })
    }

    ghost sane = { privilege_rule_sane };
}

#[tactic(auto, unfolding(crate::specs::Statements::semicolon))]
fn semicolon<'a>(tokens: &'a [Lexeme]) -> Result<Found<'a, Lexeme, ()>, Refusal<'a, Lexeme>>
    ensures { Gives (λ end. tt) result (read (grammar_of semicolon) tokens.now) }
{
    match expect(&Mark(b';'), tokens) {
        Ok(rest) => Ok(Found { value: (), rest }),
        Err(_) => Ok(Found {
            value: (),
            rest: tokens,
        }),
    }
}
