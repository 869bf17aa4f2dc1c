ghost use Rattle.std.specs.Prelude.{◌≡◌, ◌-◌, ◌<◌, ◌≤◌, option_map, take, drop, length, slice_index, IfSome};
ghost use Rattle.std.specs.Option.{option_copied};
ghost use Rattle.mandatory_roles.specs.Cutting.{past_mark, begins_with_mark, closed_at, host_at, name_at, plain_host_at, quoted_at, word_at, written_at};

use crate::runs::{Run, past_blanks, split_run};
use grant_lex::is_reserved;

/// A role as it is written: its name, its host, which is `%` where none stands, and what follows
/// them and the blanks behind them.
#[derive(Clone, Copy)]
pub(crate) struct Written<'a> {
    pub(crate) name: &'a str,
    pub(crate) host: &'a str,
    pub(crate) rest: &'a str,
}

/// The role that `text` begins with, behind blanks.
#[tactic(auto, unfolding(crate::specs::Cutting::written_at))]
pub(crate) fn written_at(text: &str) -> Option<Written<'_>>
    ensures { option_map (λ w. record { name = w.name.now; host = w.host.now; rest = w.rest.now }) result ≡ written_at text.now }
{
    let (name, rest) = name_at(past_blanks(text))?;
    let rest = past_blanks(rest);
    match past_mark(rest, b'@') {
        None => Some(Written {
            name,
            host: "%",
            rest,
        }),
        Some(after) => {
            let (host, rest) = host_at(past_blanks(after))?;
            let rest = past_blanks(rest);
            Some(Written { name, host, rest })
        }
    }
}

/// What follows `mark`, an ASCII byte, where `text` begins with it.
pub(crate) fn past_mark(text: &str, mark: u8) -> Option<&str>
    requires { mark < 128 }
    ensures { option_copied result ≡ past_mark mark text.now }
{
    match text.as_bytes() {
        [first, ..] if *first == mark => Some(&text[1..]),
        _ => None,
    }
}

fn begins_with_mark(text: &str, mark: u8) -> bool
    ensures { result ≡ begins_with_mark mark text.now }
{
    match text.as_bytes() {
        [first, ..] => *first == mark,
        [] => false,
    }
}

fn name_at(text: &str) -> Option<(&str, &str)>
    ensures { option_map (λ cut. record { front = cut.0.now; rest = cut.1.now }) result ≡ name_at text.now }
{
    if begins_with_mark(text, b'`') {
        quoted_at(text)
    } else {
        word_at(text)
    }
}

fn word_at(text: &str) -> Option<(&str, &str)>
    ensures { option_map (λ cut. record { front = cut.0.now; rest = cut.1.now }) result ≡ word_at text.now }
{
    let (word, rest) = split_run(text, Run::Word);
    if word.is_empty() || is_reserved(word) {
        None
    } else {
        Some((word, rest))
    }
}

fn host_at(text: &str) -> Option<(&str, &str)>
    ensures { option_map (λ cut. record { front = cut.0.now; rest = cut.1.now }) result ≡ host_at text.now }
{
    if begins_with_mark(text, b'`') {
        quoted_at(text)
    } else {
        plain_host_at(text)
    }
}

fn plain_host_at(text: &str) -> Option<(&str, &str)>
    ensures { option_map (λ cut. record { front = cut.0.now; rest = cut.1.now }) result ≡ plain_host_at text.now }
{
    let (host, rest) = split_run(text, Run::Host);
    if begins_with_mark(text, b'\'') || begins_with_mark(text, b'"') || host.is_empty() {
        None
    } else {
        Some((host, rest))
    }
}

/// A name or a host in backquotes, with them, and what follows it.
fn quoted_at(text: &str) -> Option<(&str, &str)>
    ensures { option_map (λ cut. record { front = cut.0.now; rest = cut.1.now }) result ≡ quoted_at text.now }
{
    match text.as_bytes() {
        [_, inside @ ..] => {
            let length = closed_length(inside)?;
            Some(text.split_at(length + 1))
        }
        [] => None,
    }
}

/// How many bytes there are up to and with the first backquote that is not doubled.
fn closed_length(inside: &[u8]) -> Option<usize>
    ensures cut { option_map (λ n. record { front = take n inside.now; rest = drop n inside.now }) result ≡ closed_at inside.now }
    ensures within { IfSome result (λ n. (0 < n) × (n ≤ length inside.now)) }
    ensures quote { IfSome result (λ n. slice_index inside.now (n - 1) ≡ 96) }
{
    let mut length = 0;
    while length < inside.len() {
        if inside[length] != b'`' {
            length += 1;
        } else if length + 1 < inside.len() && inside[length + 1] == b'`' {
            length += 2;
        } else {
            return Some(length + 1);
        }
    }
    None
}
