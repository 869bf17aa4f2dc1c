//! Small forms that a statement may have or not.

ghost use Rattle.std.specs.Prelude.{◌≡◌};
ghost use Rattle.acl_grammar.specs.Code.{Gives};
ghost use Rattle.acl_grammar.specs.Reader.{read};
ghost use Rattle.grant_words.specs.Syntax.{grammar_of};
ghost use Rattle.user_statements.specs.Flags.{if_exists, if_not_exists, with_admin_option};

use acl_grammar::{Found, Refusal, expect};
use grant_words::{Keyword, Lexeme};

#[tactic(auto, unfolding(crate::specs::Flags::if_not_exists))]
pub(crate) fn if_not_exists<'a>(
    tokens: &'a [Lexeme],
) -> Result<Found<'a, Lexeme, bool>, Refusal<'a, Lexeme>>
    ensures { Gives (λ given. given) result (read (grammar_of if_not_exists) tokens.now) }
{
    let Ok(rest) = expect(&Keyword("IF"), tokens) else {
        return Ok(Found {
            value: false,
            rest: tokens,
        });
    };
    let rest = expect(&Keyword("NOT"), rest)?;
    let rest = expect(&Keyword("EXISTS"), rest)?;
    Ok(Found { value: true, rest })
}

#[tactic(auto, unfolding(crate::specs::Flags::if_exists))]
pub(crate) fn if_exists<'a>(
    tokens: &'a [Lexeme],
) -> Result<Found<'a, Lexeme, bool>, Refusal<'a, Lexeme>>
    ensures { Gives (λ given. given) result (read (grammar_of if_exists) tokens.now) }
{
    let Ok(rest) = expect(&Keyword("IF"), tokens) else {
        return Ok(Found {
            value: false,
            rest: tokens,
        });
    };
    let rest = expect(&Keyword("EXISTS"), rest)?;
    Ok(Found { value: true, rest })
}

#[tactic(auto, unfolding(crate::specs::Flags::with_admin_option))]
pub(crate) fn with_admin_option<'a>(
    tokens: &'a [Lexeme],
) -> Result<Found<'a, Lexeme, bool>, Refusal<'a, Lexeme>>
    ensures { Gives (λ given. given) result (read (grammar_of with_admin_option) tokens.now) }
{
    let Ok(rest) = expect(&Keyword("WITH"), tokens) else {
        return Ok(Found {
            value: false,
            rest: tokens,
        });
    };
    let rest = expect(&Keyword("ADMIN"), rest)?;
    let rest = expect(&Keyword("OPTION"), rest)?;
    Ok(Found { value: true, rest })
}
