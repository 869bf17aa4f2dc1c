//! A small grammar over bytes: texts are read, or refused at their place.
ghost use Rattle.std.specs.Prelude.{◌≡◌, ◌-◌, ℕ, List, Ok, map, refl};
ghost use Rattle.acl_grammar.specs.Reader;
ghost use Rattle.acl_grammar.specs.Spelling.{Refused, spells};
ghost use Rattle.device_tests.specs.Sentences.{group, group_sane, is, is_digit, is_letter, letter, letter_sane, letters, letters_sane, option, option_sane, pair, pair_sane, pairs, pairs_sane, sentence, sentence_sane};

use acl_grammar::{
    Class, Either, Found, Refusal, Rule, Starts, TokenClass, choice_of, expect, list_of,
    lists_are_refused_once, many_of, read_either, read_whole, reader_is_exact, token_of,
    whole_reader_is_exact,
};
use std::alloc::{AllocError, Global};
use std::marker::Brand;
use std::test::Fail;

struct Mark(u8);

impl Class<u8> for Mark {
    ghost is = { λ mark. is mark.0 };

    fn has(&self, token: &u8) -> bool {
        *token == self.0
    }
}

struct Letter;

impl TokenClass<u8> for Letter {
    type Value = u8;

    ghost Meaning = { ℕ };

    ghost view = { λ value. value };

    ghost is = { is_letter };

    ghost value = { λ token. token };

    fn value_of(_alloc: Global, token: &u8) -> Result<Option<u8>, AllocError> {
        if 97 <= *token && *token <= 122 {
            Ok(Some(*token))
        } else {
            Ok(None)
        }
    }

    ghost sample = { (97, refl) };
}

impl Rule<u8> for Letter {
    type Value = u8;

    ghost Meaning = { ℕ };

    ghost view = { λ value. value };

    ghost grammar = { letter };

    fn read<'a>(alloc: Global, tokens: &'a [u8]) -> Result<Found<'a, u8, u8>, Refusal<'a, u8>> {
        token_of::<Letter, _>(alloc, tokens)
    }

    ghost sane = { letter_sane };
}

struct Group;

impl Rule<u8> for Group {
    type Value = Vec<u8>;

    ghost Meaning = { List ℕ };

    ghost view = { λ value. map (λ letter. letter) value.items };

    ghost grammar = { group };

    fn read<'a>(
        alloc: Global,
        tokens: &'a [u8],
    ) -> Result<Found<'a, u8, Vec<u8>>, Refusal<'a, u8>> {
        let rest = expect(&Mark(b'('), tokens)?;
        let letters = list_of::<Letter, _, _>(alloc, &Mark(b','), rest)?;
        let rest = expect(&Mark(b')'), letters.rest)?;
        Ok(Found {
            value: letters.value,
            rest,
        })
    }

    ghost sane = { group_sane };
}

struct Setting;

impl Rule<u8> for Setting {
    type Value = u8;

    ghost Meaning = { ℕ };

    ghost view = { λ value. value };

    ghost grammar = { option };

    fn read<'a>(alloc: Global, tokens: &'a [u8]) -> Result<Found<'a, u8, u8>, Refusal<'a, u8>> {
        if let Ok(rest) = expect(&Mark(b'!'), tokens) {
            return Ok(Found { value: 10, rest });
        }
        let rest = expect(&Mark(b'#'), tokens)?;
        token_of::<Digit, u8>(alloc, rest)
    }

    ghost sane = { option_sane };
}

impl Starts<u8> for Setting {
    fn starts(tokens: &[u8]) -> bool {
        matches!(tokens, [b'!' | b'#', ..])
    }
}

struct Digit;

impl TokenClass<u8> for Digit {
    type Value = u8;

    ghost Meaning = { ℕ };

    ghost view = { λ value. value };

    ghost is = { is_digit };

    ghost value = { λ token. token - 48 };

    fn value_of(_alloc: Global, token: &u8) -> Result<Option<u8>, AllocError> {
        if 48 <= *token && *token <= 57 {
            Ok(Some(*token - 48))
        } else {
            Ok(None)
        }
    }

    ghost sample = { (48, refl) };
}

#[derive(Drop)]
struct Settings {
    groups: Vec<Vec<u8>>,
    settings: Vec<u8>,
}

struct Sentence;

impl Rule<u8> for Sentence {
    type Value = Settings;

    ghost Meaning = { List (List ℕ) × List ℕ };

    ghost view = { λ value. (map (λ group. map (λ letter. letter) group.items) value.groups.items, map (λ setting. setting) value.settings.items) };

    ghost grammar = { sentence };

    fn read<'a>(
        alloc: Global,
        tokens: &'a [u8],
    ) -> Result<Found<'a, u8, Settings>, Refusal<'a, u8>> {
        let groups = list_of::<Group, _, _>(alloc, &Mark(b';'), tokens)?;
        let settings = many_of::<Setting, _>(alloc, groups.rest)?;
        Ok(Found {
            value: Settings {
                groups: groups.value,
                settings: settings.value,
            },
            rest: settings.rest,
        })
    }

    ghost sane = { sentence_sane };
}

struct Letters;

impl Rule<u8> for Letters {
    type Value = Vec<u8>;

    ghost Meaning = { List ℕ };

    ghost view = { λ value. map (λ letter. letter) value.items };

    ghost grammar = { letters };

    fn read<'a>(
        alloc: Global,
        tokens: &'a [u8],
    ) -> Result<Found<'a, u8, Vec<u8>>, Refusal<'a, u8>> {
        let letters = list_of::<Letter, _, _>(alloc, &Mark(b','), tokens)?;
        let rest = expect(&Mark(b'.'), letters.rest)?;
        Ok(Found {
            value: letters.value,
            rest,
        })
    }

    ghost sane = { letters_sane };
}

struct Pair;

impl Rule<u8> for Pair {
    type Value = (u8, u8);

    ghost Meaning = { ℕ × ℕ };

    ghost view = { λ value. (value.0, value.1) };

    ghost grammar = { pair };

    fn read<'a>(
        alloc: Global,
        tokens: &'a [u8],
    ) -> Result<Found<'a, u8, (u8, u8)>, Refusal<'a, u8>> {
        let first = token_of::<Letter, _>(alloc, tokens)?;
        let rest = expect(&Mark(b'@'), first.rest)?;
        let second = token_of::<Letter, _>(alloc, rest)?;
        Ok(Found {
            value: (first.value, second.value),
            rest: second.rest,
        })
    }

    ghost sane = { pair_sane };
}

struct Pairs;

impl Rule<u8> for Pairs {
    type Value = Vec<(u8, u8)>;

    ghost Meaning = { List (ℕ × ℕ) };

    ghost view = { λ value. map (λ pair. (pair.0, pair.1)) value.items };

    ghost grammar = { pairs };

    fn read<'a>(
        alloc: Global,
        tokens: &'a [u8],
    ) -> Result<Found<'a, u8, Vec<(u8, u8)>>, Refusal<'a, u8>> {
        let pairs = list_of::<Pair, _, _>(alloc, &Mark(b','), tokens)?;
        let rest = expect(&Mark(b'?'), pairs.rest)?;
        Ok(Found {
            value: pairs.value,
            rest,
        })
    }

    ghost sane = { pairs_sane };
}

// The laws at a grammar that the caller picks.
fn sentences_are_exact()
    ensures read { (tokens : List ℕ) (value : List (List ℕ) × List ℕ) → spells sentence tokens value → Reader.read_whole sentence tokens ≡ Ok value }
    ensures refused_once { (tokens bad other : List ℕ) → Refused (spells sentence) tokens bad → Refused (spells sentence) tokens other → bad ≡ other }
{
    reader_is_exact::<Brand>();
    whole_reader_is_exact::<Brand>();
    lists_are_refused_once::<Brand>();
}

// A text, and how it is read: the letters of its groups, with `;` between two, and its settings as digits, 10 as `!`;
// or the offset at which it is refused.
struct Case {
    text: &'static str,
    groups: &'static str,
    settings: &'static str,
    refused_at: Option<usize>,
}

static SENTENCES: [Case; 14] = [
    Case {
        text: "(a)",
        groups: "a",
        settings: "",
        refused_at: None,
    },
    Case {
        text: "(a,b);(c)",
        groups: "ab;c",
        settings: "",
        refused_at: None,
    },
    Case {
        text: "(a)!#7",
        groups: "a",
        settings: "!7",
        refused_at: None,
    },
    Case {
        text: "(z,y,x);(a);(b)#3",
        groups: "zyx;a;b",
        settings: "3",
        refused_at: None,
    },
    Case {
        text: "",
        groups: "",
        settings: "",
        refused_at: Some(0),
    },
    Case {
        text: "!",
        groups: "",
        settings: "",
        refused_at: Some(0),
    },
    Case {
        text: "(",
        groups: "",
        settings: "",
        refused_at: Some(1),
    },
    Case {
        text: "(A)",
        groups: "",
        settings: "",
        refused_at: Some(1),
    },
    Case {
        text: "(ab)",
        groups: "",
        settings: "",
        refused_at: Some(2),
    },
    Case {
        text: "(a,)",
        groups: "",
        settings: "",
        refused_at: Some(3),
    },
    Case {
        text: "(a)(b)",
        groups: "",
        settings: "",
        refused_at: Some(3),
    },
    Case {
        text: "(a);!",
        groups: "",
        settings: "",
        refused_at: Some(4),
    },
    Case {
        text: "(a)#7a",
        groups: "",
        settings: "",
        refused_at: Some(5),
    },
    Case {
        text: "(a)!;(b)",
        groups: "",
        settings: "",
        refused_at: Some(4),
    },
];

// What was read, written as a case has it.
fn text_of(alloc: Global, found: &Settings) -> Result<Vec<u8>, AllocError> {
    let mut text = Vec::new(alloc);
    for group in &found.groups {
        if !text.is_empty() {
            text.push(b';')?;
        }
        text.extend_from_slice(group.as_slice())?;
    }
    text.push(b'|')?;
    for setting in &found.settings {
        text.push(if *setting == 10 {
            b'!'
        } else {
            b'0'.wrapping_add(*setting)
        })?;
    }
    Ok(text)
}

fn is_as_wanted(text: &[u8], case: &Case) -> bool {
    let groups = case.groups.as_bytes();
    text.starts_with(groups)
        && text.ends_with(case.settings.as_bytes())
        && text.len()
            == groups
                .len()
                .saturating_add(case.settings.len())
                .saturating_add(1)
}

#[test]
fn sentences_are_read_or_refused_at_their_place(rt: HostRuntime) -> Result<(), Fail> {
    sentences_are_exact();
    for case in &SENTENCES {
        let tokens = case.text.as_bytes();
        let kept = match read_whole::<Sentence, u8>(rt.alloc(), tokens) {
            Ok(found) => is_as_wanted(text_of(rt.alloc(), &found)?.as_slice(), case),
            Err(Refusal::At(rest)) => tokens.len().checked_sub(rest.len()) == case.refused_at,
            Err(Refusal::NoMemory) => false,
        };
        assert!(rt; kept, "{}", case.text);
    }
    Ok(())
}

// Letters or pairs: what is read, in a row, and whether as pairs; or the offset at which the text is refused.
struct Choice {
    text: &'static str,
    letters: &'static str,
    refused_at: Option<usize>,
}

static EITHER: [Choice; 9] = [
    Choice {
        text: "a.",
        letters: "a",
        refused_at: None,
    },
    Choice {
        text: "a,b,c.",
        letters: "abc",
        refused_at: None,
    },
    Choice {
        text: "a@b,c@d?",
        letters: "a@c@",
        refused_at: None,
    },
    Choice {
        text: "",
        letters: "",
        refused_at: Some(0),
    },
    Choice {
        text: "a?",
        letters: "",
        refused_at: Some(1),
    },
    Choice {
        text: "a@",
        letters: "",
        refused_at: Some(2),
    },
    Choice {
        text: "a,b?",
        letters: "",
        refused_at: Some(3),
    },
    Choice {
        text: "a@b.",
        letters: "",
        refused_at: Some(3),
    },
    Choice {
        text: "a@b,c.",
        letters: "",
        refused_at: Some(5),
    },
];

// The first letter of each pair, with `@` behind it.
fn firsts_of(alloc: Global, pairs: &[(u8, u8)]) -> Result<Vec<u8>, AllocError> {
    let mut text = Vec::new(alloc);
    for (first, _) in pairs {
        text.push(*first)?;
        text.push(b'@')?;
    }
    Ok(text)
}

#[test]
fn the_further_of_two_refusals_is_given(rt: HostRuntime) -> Result<(), Fail> {
    for choice in &EITHER {
        let tokens = choice.text.as_bytes();
        let kept = match read_either::<Letters, Pairs, u8>(rt.alloc(), tokens) {
            Ok(Either::First(letters)) => letters.as_slice() == choice.letters.as_bytes(),
            Ok(Either::Second(pairs)) => {
                firsts_of(rt.alloc(), pairs.as_slice())?.as_slice() == choice.letters.as_bytes()
            }
            Err(Refusal::At(rest)) => tokens.len().checked_sub(rest.len()) == choice.refused_at,
            Err(Refusal::NoMemory) => false,
        };
        assert!(rt; kept, "{}", choice.text);
    }
    Ok(())
}

#[test]
fn the_next_token_chooses(rt: HostRuntime) {
    for (text, value, left) in [("!a", 10, 1), ("#4", 4, 0), ("b!", 98, 1)] {
        let chosen = match choice_of::<Setting, Letter, u8>(rt.alloc(), text.as_bytes()) {
            Ok(found) => match found.value {
                Either::First(setting) => setting == value && found.rest.len() == left,
                Either::Second(letter) => letter == value && found.rest.len() == left,
            },
            Err(_) => false,
        };
        assert!(rt; chosen, "{text}");
    }
}
