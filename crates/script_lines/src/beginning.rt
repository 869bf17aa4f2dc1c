//! How a command line begins.
ghost use Rattle.std.specs.Prelude.{◌≡◌, ◌≢◌, ℕ, ◌<◌, ◌≤◌, List, ◌∷◌, ◌++◌, length, slice_index, true, false, IfErr, IfOk, IfSome, IsSome, IsSomeAnd, IsTrue};
ghost use Rattle.script_lines.specs.Beginnings.{is_session_byte, is_session_name, line_text, IsUnbegun};

use crate::session_name::{SessionName, is_session};

const MOST_NAME_BYTES: usize = 32;

/// The name of the session and the text of the command, or the place at which a command line does not begin so.
pub(crate) fn split_line(text: &str) -> Result<(&str, &str), usize>
    ensures name { IfOk result (λ parts. IsTrue (is_session_name parts.0.now)) }
    ensures found { IfOk result (λ parts. text.now ≡ line_text parts.0.now parts.1.now) }
    ensures err { IfErr result (IsUnbegun text.now) }
{
    match parts_of(text) {
        Some(parts) => Ok(parts),
        None => Err(unbegun_place(text.as_bytes())),
    }
}

fn parts_of(text: &str) -> Option<(&str, &str)>
    ensures name { IfSome result (λ parts. IsTrue (is_session_name parts.0.now)) }
    ensures found { IfSome result (λ parts. text.now ≡ line_text parts.0.now parts.1.now) }
    ensures only { (name command : List ℕ) → IsTrue (is_session_name name) →
        text.now ≡ line_text name command → IsSome result }
{
    let (name, rest) = around(text, '>')?;
    let command = after(rest, " ")?;
    if !SessionName::is_valid(name) {
        return None;
    }
    Some((name, command))
}

// What follows `front`.
fn after<'a>(text: &'a str, front: &str) -> Option<&'a str>
    ensures found { IfSome result (λ rest. text.now ≡ front.now ++ rest.now) }
    ensures only { (rest : List ℕ) → text.now ≡ front.now ++ rest →
        IsSomeAnd result (λ found. found.now ≡ rest) }
{
    text.strip_prefix(front)
}

// What stands before and behind the first `mark`, an ASCII character.
fn around(text: &str, mark: char) -> Option<(&str, &str)>
    requires { mark < 128 }
    ensures found { IfSome result (λ parts. text.now ≡ parts.0.now ++ mark ∷ parts.1.now) }
    ensures only { (front rest : List ℕ) → text.now ≡ front ++ mark ∷ rest →
        ((i : ℕ) → i < length front → slice_index front i ≢ mark) →
        IsSomeAnd result (λ parts. (parts.0.now ≡ front) × (parts.1.now ≡ rest)) }
{
    text.split_once(mark)
}

// Where a text that is no command line stops to begin as one.
fn unbegun_place(text: &[u8]) -> usize
    requires { (name command : List ℕ) → IsTrue (is_session_name name) →
        text.now ≡ line_text name command → ⊥ }
    ensures { IsUnbegun text.now result }
{
    let name = name_length(text);
    if name > MOST_NAME_BYTES {
        return MOST_NAME_BYTES;
    }
    if name == 0 {
        return 0;
    }
    if name == text.len() {
        return name;
    }
    if text[name] == b'>' { name + 1 } else { name }
}

// The number of bytes in front that a session's name may have.
fn name_length(text: &[u8]) -> usize
    ensures within { result ≤ length text.now }
    ensures before { (k : ℕ) → k < result → is_session_byte (slice_index text.now k) ≡ true }
    ensures ends { result < length text.now → is_session_byte (slice_index text.now result) ≡ false }
{
    for (place, byte) in text.iter().enumerate() {
        if !is_session(*byte) {
            return place;
        }
    }
    text.len()
}
