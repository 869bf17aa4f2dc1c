ghost use Rattle.std.specs.Prelude.{◌≡◌, ◌<◌, ◌^◌, length, position};
ghost use Rattle.std.specs.Char.{is_ascii_control};
ghost use Rattle.std.specs.Str.{chars};
ghost use Rattle.acl_names.specs.Name.{ident_fault, name_fault};

use crate::refusal::NameRefusal;

/// What keeps `text` from being a name of at most `limit` characters.
pub(crate) fn fault_of(text: &str, limit: u32) -> Option<NameRefusal>
    requires { length text.now < 2 ^ 32 }
    ensures { result ≡ name_fault limit text.now }
{
    if let Some(offset) = first_control_byte(text) {
        let offset = offset as u32;
        return Some(NameRefusal::BadByte { offset });
    }
    if character_count(text) > limit as usize {
        return Some(NameRefusal::TooLong { limit });
    }
    None
}

/// What keeps `text` from being an identifier of at most `limit` characters.
pub(crate) fn ident_fault_of(text: &str, limit: u32) -> Option<NameRefusal>
    requires { length text.now < 2 ^ 32 }
    ensures { result ≡ ident_fault limit text.now }
{
    if text.is_empty() {
        return Some(NameRefusal::Empty);
    }
    fault_of(text, limit)
}

fn first_control_byte(text: &str) -> Option<usize>
    ensures { result ≡ position is_ascii_control text.now }
{
    text.as_bytes()
        .iter()
        .position(|byte| byte.is_ascii_control())
}

#[tactic(auto, using(std::proofs::lemmas::Str::chars_from_encodes))]
fn character_count(text: &str) -> usize
    ensures { result ≡ length (chars text.now) }
{
    text.chars().count()
}
