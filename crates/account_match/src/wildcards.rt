ghost use Rattle.std.specs.Prelude.{◌≡◌, [], ◌∷◌, MatchOption};
ghost use Rattle.std.specs.Str.{chars};
ghost use Rattle.account_match.specs.Like.{is_like, stands_for};
ghost use Rattle.account_match.specs.Step.{IsStep};

/// What comes next in a pattern and a text.
enum Step<'a> {
    /// A `%`, and what stands behind it.
    AnyText(&'a str),
    /// A sign that stands for the first character: what follows the two.
    Over(&'a str, &'a str),
    /// The end of both.
    End,
    /// The text is none that the pattern stands for.
    Stuck,
}

/// Whether `text` is one of those that `pattern` stands for. A `%` takes as little text as it can, and only the last
/// one that was passed is tried again: so n signs and m characters take at most (n + 1)(m + 1) steps, which the
/// measure of the loop counts down.
pub(crate) fn is_like(pattern: &str, text: &str) -> bool
    ensures { result ≡ is_like pattern.now text.now }
{
    let mut signs = pattern;
    let mut rest = text;
    // What stands behind the last `%` that was passed, and the place at which it was tried last.
    let mut passed = false;
    let mut retry = pattern;
    let mut tried = text;
    loop {
        match next_step(signs, rest) {
            Step::AnyText(behind) => {
                signs = behind;
                retry = behind;
                tried = rest;
                passed = true;
            }
            Step::Over(next_signs, next_rest) => {
                signs = next_signs;
                rest = next_rest;
            }
            Step::End => return true,
            Step::Stuck => {
                if !passed {
                    return false;
                }
                let Some((_, later)) = first_character(tried) else {
                    return false;
                };
                signs = retry;
                rest = later;
                tried = later;
            }
        }
    }
}

fn next_step<'a>(signs: &'a str, rest: &'a str) -> Step<'a>
    ensures { IsStep (chars signs.now) (chars rest.now) result }
{
    let Some((sign, next_signs)) = first_character(signs) else {
        return match first_character(rest) {
            None => Step::End,
            Some(_) => Step::Stuck,
        };
    };
    if sign == '%' {
        return Step::AnyText(next_signs);
    }
    let Some((character, next_rest)) = first_character(rest) else {
        return Step::Stuck;
    };
    if stands_for(sign, character) {
        Step::Over(next_signs, next_rest)
    } else {
        Step::Stuck
    }
}

/// Whether the sign, which is no `%`, stands for the character.
fn stands_for(sign: char, character: char) -> bool
    ensures { result ≡ stands_for sign character }
{
    sign == '_' || sign == character
}

/// The first character of `text`, and what follows it.
fn first_character(text: &str) -> Option<(char, &str)>
    ensures { MatchOption result (chars text.now ≡ []) (λ parts. chars text.now ≡ parts.0 ∷ chars parts.1.now) }
{
    let mut characters = text.chars();
    let first = characters.next()?;
    Some((first, characters.as_str()))
}
