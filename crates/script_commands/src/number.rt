//! Numbers of commands.

ghost use Rattle.std.specs.Prelude.{◌≡◌, ℕ, Some, None, if◌then◌else◌};
ghost use Rattle.grant_words.specs.Classes.{is};
ghost use Rattle.grant_words.specs.Numbers.{number_of};
ghost use Rattle.script_commands.specs.Numbers.{has_no_leading_zero, is_number_within, length_class, turns_class};
ghost use Rattle.script_commands.specs.Sanity.{length_sample, turns_sample};

use acl_grammar::TokenClass;
use grant_lex::Kind;
use grant_words::{Lexeme, number_of};
use std::alloc::{AllocError, Global};

const MOST_TURNS: u32 = 20_000_000;

/// The length of a list.
pub(crate) struct Length;

impl TokenClass<Lexeme> for Length {
    type Value = u32;

    ghost Meaning = { ℕ };

    ghost view = { λ value. value };

    ghost is = { is length_class };

    ghost value = { λ token. number_of token.value };

    #[tactic(auto, using(crate::proofs::Numbers::same_number), unfolding(grant_words::specs::Classes::is))]
    fn value_of(_alloc: Global, token: &Lexeme) -> Result<Option<u32>, AllocError> {
        if token.kind == Kind::Word {
            Ok(number_within(token.value.as_str().as_bytes(), 0, u32::MAX))
        } else {
            Ok(None)
        }
    }

    ghost sample = { length_sample };
}

/// A number of looks.
pub(crate) struct Turns;

impl TokenClass<Lexeme> for Turns {
    type Value = u32;

    ghost Meaning = { ℕ };

    ghost view = { λ value. value };

    ghost is = { is turns_class };

    ghost value = { λ token. number_of token.value };

    #[tactic(auto, using(crate::proofs::Numbers::same_number), unfolding(grant_words::specs::Classes::is))]
    fn value_of(_alloc: Global, token: &Lexeme) -> Result<Option<u32>, AllocError> {
        if token.kind == Kind::Word {
            Ok(number_within(token.value.as_str().as_bytes(), 1, MOST_TURNS))
        } else {
            Ok(None)
        }
    }

    ghost sample = { turns_sample };
}

fn number_within(text: &[u8], least: u32, most: u32) -> Option<u32>
    ensures { result ≡ (if is_number_within least most text.now then Some (number_of text.now) else None) }
{
    if !has_no_leading_zero(text) {
        return None;
    }
    match number_of(text) {
        Some(number) if least <= number && number <= most => Some(number),
        _ => None,
    }
}

fn has_no_leading_zero(text: &[u8]) -> bool
    ensures { result ≡ has_no_leading_zero text.now }
{
    match text {
        [] => false,
        [_] => true,
        [first, _, ..] => *first != b'0',
    }
}
