//! Members of the lists of CREATE USER, ALTER USER and RENAME USER.

ghost use Rattle.std.specs.Prelude.{Option};
ghost use Rattle.acl_names.specs.declared.auth.AuthId.{AuthId};
ghost use Rattle.acl_names.specs.declared.policy.Verifier.{Verifier};
ghost use Rattle.grant_words.specs.Syntax.{grammar_of};
ghost use Rattle.user_statements.specs.Sanity.{altered_account_sane, new_account_sane, renaming_sane};
ghost use Rattle.user_statements.specs.Statements.{altered_account, new_account, renaming};

use crate::secret::by_secret;
use acl_grammar::{Found, Refusal, Rule, expect};
use acl_names::{AuthId, Verifier};
use grant_words::{Account, Keyword, Lexeme, Role};
use login_throttle::verifier;
use std::alloc::Global;

/// An account and its password.
pub(crate) struct NewAccount;

impl Rule<Lexeme> for NewAccount {
    type Value = (AuthId, Verifier);

    ghost Meaning = { AuthId × Verifier };

    ghost view = { λ value. value };

    ghost grammar = { grammar_of new_account };

    #[tactic(auto, unfolding(crate::specs::Statements::new_account))]
    fn read<'a>(
        alloc: Global,
        tokens: &'a [Lexeme],
    ) -> Result<Found<'a, Lexeme, (AuthId, Verifier)>, Refusal<'a, Lexeme>> {
        let account = Account::read(alloc, tokens)?;
        let Ok(rest) = expect(&Keyword("IDENTIFIED"), account.rest) else {
            return Ok(Found {
                value: (account.value, verifier("")),
                rest: account.rest,
            });
        };
        let secret = by_secret(alloc, rest)?;
        Ok(Found {
            value: (account.value, secret.value),
            rest: secret.rest,
        })
    }

    ghost sane = { new_account_sane };
}

/// An account, and its new password where one is given.
pub(crate) struct AlteredAccount;

impl Rule<Lexeme> for AlteredAccount {
    type Value = (AuthId, Option<Verifier>);

    ghost Meaning = { AuthId × Option Verifier };

    ghost view = { λ value. value };

    ghost grammar = { grammar_of altered_account };

    #[tactic(auto, unfolding(crate::specs::Statements::altered_account))]
    fn read<'a>(
        alloc: Global,
        tokens: &'a [Lexeme],
    ) -> Result<Found<'a, Lexeme, (AuthId, Option<Verifier>)>, Refusal<'a, Lexeme>> {
        let account = Account::read(alloc, tokens)?;
        let Ok(rest) = expect(&Keyword("IDENTIFIED"), account.rest) else {
            return Ok(Found {
                value: (account.value, None),
                rest: account.rest,
            });
        };
        let secret = by_secret(alloc, rest)?;
        Ok(Found {
            value: (account.value, Some(secret.value)),
            rest: secret.rest,
        })
    }

    ghost sane = { altered_account_sane };
}

/// An account and its new name.
pub(crate) struct Renaming;

impl Rule<Lexeme> for Renaming {
    type Value = (AuthId, AuthId);

    ghost Meaning = { AuthId × AuthId };

    ghost view = { λ value. value };

    ghost grammar = { grammar_of renaming };

    #[tactic(auto, unfolding(crate::specs::Statements::renaming))]
    fn read<'a>(
        alloc: Global,
        tokens: &'a [Lexeme],
    ) -> Result<Found<'a, Lexeme, (AuthId, AuthId)>, Refusal<'a, Lexeme>> {
        let old = Account::read(alloc, tokens)?;
        let rest = expect(&Keyword("TO"), old.rest)?;
        let new = Role::read(alloc, rest)?;
        Ok(Found {
            value: (old.value, new.value),
            rest: new.rest,
        })
    }

    ghost sane = { renaming_sane };
}
