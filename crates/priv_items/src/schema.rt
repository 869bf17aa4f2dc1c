ghost use Rattle.std.specs.Prelude.{◌≡◌, ℕ, ◌<◌, ◌^◌, ◌++◌, ◌==◌, ◌&&◌, ◌||◌, not, List, [], ◌∷◌, if◌then◌else◌, None, length, string_bytes, IfErr, IfOk, OnOk};
ghost use Rattle.std.specs.Char.{encode_utf8};
ghost use Rattle.acl_names.specs.Limits.{ident_limit};
ghost use Rattle.acl_names.specs.Name.{IsRefusal, ident_fault};
ghost use Rattle.priv_items.specs.Escapes.{held_back, unescaped};

use acl_names::{Ident, NameRefusal};
use std::alloc::{AllocError, Global};

/// Reads the name of a schema in the target of a GRANT or a REVOKE on all of the schema, where `\%` and `\_` stand for
/// `%` and `_`.
///
/// MySQL 8.0 Reference Manual, "GRANT Statement".
#[tactic(auto, using(crate::proofs::Escaping::unescaped_is_short))]
pub fn read_schema(alloc: Global, text: &str) -> Result<Ident, NameRefusal>
    requires { length text.now < 2 ^ 32 }
    ensures ok { IfOk result (λ name. name ≡ unescaped text.now) }
    ensures within { OnOk result (ident_fault ident_limit (unescaped text.now) ≡ None) }
    ensures err { IfErr result (IsRefusal (ident_fault ident_limit (unescaped text.now))) }
{
    let name = unescaped(alloc, text).map_err(|_| NameRefusal::NoMemory)?;
    Ident::read(alloc, name.as_str())
}

fn unescaped(alloc: Global, text: &str) -> Result<String, AllocError>
    ensures { IfOk result (λ name. string_bytes name ≡ unescaped text.now) }
{
    let mut name = String::new(alloc);
    let mut held = false;
    for character in text.chars() {
        held = push_unescaped(&mut name, held, character)?;
    }
    push_backslash(&mut name, held)?;
    Ok(name)
}

// Adds a character to a name, behind a backslash that was held back until the character after it is known. Says whether
// the character is a backslash, which is then held back.
fn push_unescaped(name: &mut String, held: bool, character: char) -> Result<bool, AllocError>
    ensures { IfOk result (λ holds. (rest : List ℕ) →
        string_bytes name.new ++ unescaped (held_back holds rest) ≡
        string_bytes name.old ++ unescaped (held_back held (encode_utf8 character ++ rest))) }
{
    push_held(name, held, character)?;
    if character == '\\' {
        return Ok(true);
    }
    name.push(character)?;
    Ok(false)
}

// Adds the backslash that was held back, but where a wildcard comes after it.
fn push_held(name: &mut String, held: bool, character: char) -> Result<(), AllocError>
    ensures { OnOk result (string_bytes name.new ≡ string_bytes name.old ++
        (if held && not (character == 37 || character == 95) then 92 ∷ [] else [])) }
{
    match character {
        '%' | '_' => Ok(()),
        _ => push_backslash(name, held),
    }
}

fn push_backslash(name: &mut String, given: bool) -> Result<(), AllocError>
    ensures { OnOk result (string_bytes name.new ≡
        string_bytes name.old ++ (if given then 92 ∷ [] else [])) }
{
    if given { name.push('\\') } else { Ok(()) }
}
