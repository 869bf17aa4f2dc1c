//! Options of accounts.

ghost use Rattle.std.specs.Prelude.{◌≡◌, ℕ, Some, None, if◌then◌else◌};
ghost use Rattle.acl_grammar.specs.Code.{Gives};
ghost use Rattle.acl_grammar.specs.Reader.{first, read};
ghost use Rattle.grant_words.specs.Classes.{is};
ghost use Rattle.grant_words.specs.Numbers.{number_of};
ghost use Rattle.grant_words.specs.Syntax.{grammar_of};
ghost use Rattle.user_statements.specs.Options.{is_number_text, lock, lock_time, no_options, number_class, options, setting, with_setting, with_settings};
ghost use Rattle.user_statements.specs.Sanity.{number_sample, setting_sane};
ghost use Rattle.user_statements.specs.declared.setting.Setting.{Setting};

use crate::Setting;
use acl_grammar::{Class, Found, Refusal, Rule, Starts, TokenClass, expect, many_of, token_of};
use acl_names::LockTime;
use acl_stmt::AccountOptions;
use grant_lex::Kind;
use grant_words::{Keyword, Lexeme, number_of};
use std::alloc::{AllocError, Global};

/// A number of attempts or of days.
struct OptionNumber;

impl TokenClass<Lexeme> for OptionNumber {
    type Value = u16;

    ghost Meaning = { ℕ };

    ghost view = { λ value. value };

    ghost is = { is number_class };

    ghost value = { λ token. number_of token.value };

    #[tactic(auto, using(crate::proofs::Numbers::same_number), unfolding(grant_words::specs::Classes::is))]
    fn value_of(_alloc: Global, token: &Lexeme) -> Result<Option<u16>, AllocError> {
        if token.kind == Kind::Word {
            Ok(option_number(token.value.as_str().as_bytes()))
        } else {
            Ok(None)
        }
    }

    ghost sample = { number_sample };
}

fn option_number(text: &[u8]) -> Option<u16>
    ensures { result ≡ (if is_number_text text.now then Some (number_of text.now) else None) }
{
    if text.is_empty() || text.len() > 5 {
        return None;
    }
    match number_of(text) {
        Some(number) if number <= 32767 => Some(number as u16),
        _ => None,
    }
}

impl Rule<Lexeme> for Setting {
    type Value = Setting;

    ghost Meaning = { Setting };

    ghost view = { λ value. value };

    ghost grammar = { grammar_of setting };

    #[tactic(auto, unfolding(crate::specs::Options::setting, crate::specs::Options::number))]
    fn read<'a>(
        alloc: Global,
        tokens: &'a [Lexeme],
    ) -> Result<Found<'a, Lexeme, Setting>, Refusal<'a, Lexeme>> {
        if let Ok(rest) = expect(&Keyword("FAILED_LOGIN_ATTEMPTS"), tokens) {
            let number = token_of::<OptionNumber, Lexeme>(alloc, rest)?;
            return Ok(Found {
                value: Setting::Attempts(number.value),
                rest: number.rest,
            });
        }
        if let Ok(rest) = expect(&Keyword("PASSWORD_LOCK_TIME"), tokens) {
            let time = lock_time(alloc, rest)?;
            return Ok(Found {
                value: Setting::Lock(time.value),
                rest: time.rest,
            });
        }
        let rest = expect(&Keyword("ACCOUNT"), tokens)?;
        let locked = lock(rest)?;
        Ok(Found {
            value: Setting::Locked(locked.value),
            rest: locked.rest,
        })
    }

    ghost sane = { setting_sane };
}

impl Starts<Lexeme> for Setting {
    fn starts(tokens: &[Lexeme]) -> bool {
        match tokens {
            [] => false,
            [token, ..] => begins_setting(token),
        }
    }
}

#[tactic(auto, unfolding(crate::specs::Options::setting))]
fn begins_setting(token: &Lexeme) -> bool
    ensures { result ≡ first (grammar_of setting) token.now }
{
    if Keyword("FAILED_LOGIN_ATTEMPTS").has(token) {
        return true;
    }
    if Keyword("PASSWORD_LOCK_TIME").has(token) {
        return true;
    }
    Keyword("ACCOUNT").has(token)
}

#[tactic(auto, unfolding(crate::specs::Options::lock_time, crate::specs::Options::number))]
fn lock_time<'a>(
    alloc: Global,
    tokens: &'a [Lexeme],
) -> Result<Found<'a, Lexeme, LockTime>, Refusal<'a, Lexeme>>
    ensures { Gives (λ value. value) result (read (grammar_of lock_time) tokens.now) }
{
    if let Ok(rest) = expect(&Keyword("UNBOUNDED"), tokens) {
        return Ok(Found {
            value: LockTime::Unbounded,
            rest,
        });
    }
    let days = token_of::<OptionNumber, Lexeme>(alloc, tokens)?;
    Ok(Found {
        value: LockTime::Days(days.value),
        rest: days.rest,
    })
}

#[tactic(auto, unfolding(crate::specs::Options::lock))]
fn lock<'a>(tokens: &'a [Lexeme]) -> Result<Found<'a, Lexeme, bool>, Refusal<'a, Lexeme>>
    ensures { Gives (λ value. value) result (read (grammar_of lock) tokens.now) }
{
    if let Ok(rest) = expect(&Keyword("LOCK"), tokens) {
        return Ok(Found { value: true, rest });
    }
    let rest = expect(&Keyword("UNLOCK"), tokens)?;
    Ok(Found { value: false, rest })
}

/// Any options; the last of a kind counts.
#[tactic(auto, using(grant_words::proofs::Mapped::map_same), unfolding(crate::specs::Options::options, crate::specs::Options::setting))]
pub(crate) fn options<'a>(
    alloc: Global,
    tokens: &'a [Lexeme],
) -> Result<Found<'a, Lexeme, AccountOptions>, Refusal<'a, Lexeme>>
    ensures { Gives (λ value. value) result (read (grammar_of options) tokens.now) }
{
    let found = many_of::<Setting, Lexeme>(alloc, tokens)?;
    Ok(Found {
        value: settled(found.value.as_slice()),
        rest: found.rest,
    })
}

fn settled(settings: &[Setting]) -> AccountOptions
    ensures { result ≡ with_settings no_options settings.now }
{
    let mut options = AccountOptions {
        attempts: None,
        days: None,
        locked: None,
    };
    for setting in settings {
        options = with_setting(options, *setting);
    }
    options
}

fn with_setting(options: AccountOptions, setting: Setting) -> AccountOptions
    ensures { result ≡ with_setting options setting }
{
    match setting {
        Setting::Attempts(number) => AccountOptions {
            attempts: Some(number),
            ..options
        },
        Setting::Lock(time) => AccountOptions {
            days: Some(time),
            ..options
        },
        Setting::Locked(locked) => AccountOptions {
            locked: Some(locked),
            ..options
        },
    }
}
