//! The fields of an entry, read one by one from the front of the bytes.

ghost use Rattle.std.specs.Prelude.{◌≡◌, ◌++◌, IfOk, IfErr, IfSome, IsNone, length};
ghost use Rattle.entry_bytes.specs.Faults.{NoneBegins};
ghost use Rattle.entry_bytes.specs.Texts.{IsShort, IsLong, IsOfLength, IsSize};
ghost use Rattle.entry_fields.specs.Reading.{IsFieldFault};
ghost use Rattle.entry_bytes.specs.Spelling.{IsHost, IsNumber, IsUser, long_text, number_bytes, short_text, size_bytes};

use acl_names::{HostText, NameRefusal, UserName};
use std::alloc::{AllocError, Global};
use std::str;

/// Why a field could not be read from the front of the bytes.
#[derive(Debug, Drop)]
pub enum FieldFault {
    /// The field is cut short or out of its rules.
    Bad,
    NoMemory,
}

impl From<AllocError> for FieldFault {
    ghost use Rattle.entry_fields.specs.declared.fields.FieldFault.TheVariants.{NoMemory};

    ghost from_gives = { λ _ fault. fault ≡ NoMemory };

    fn from(_error: AllocError) -> FieldFault {
        FieldFault::NoMemory
    }
}

impl From<NameRefusal> for FieldFault {
    ghost use Rattle.entry_fields.specs.Reading.{name_field_fault};

    ghost from_gives = { λ refusal fault. fault ≡ name_field_fault refusal };

    fn from(refusal: NameRefusal) -> FieldFault {
        match refusal {
            NameRefusal::NoMemory => FieldFault::NoMemory,
            _ => FieldFault::Bad,
        }
    }
}

/// The number with which the bytes begin, and the bytes behind it; None where there are too few.
pub fn number_at(bytes: &[u8]) -> Option<(u32, &[u8])>
    ensures found { IfSome result (λ x. bytes.now ≡ number_bytes x.0 ++ x.1.now) }
    ensures fits { IfSome result (λ x. IsNumber x.0) }
    ensures none { IsNone result → NoneBegins number_bytes IsNumber bytes.now }
{
    match bytes {
        [a, b, c, d, rest @ ..] => Some((u32::from_le_bytes([*a, *b, *c, *d]), rest)),
        _ => None,
    }
}

/// The text of so many bytes with which the bytes begin, and the bytes behind it.
fn text_of_length(bytes: &[u8], count: usize) -> Option<(&str, &[u8])>
    ensures found { IfSome result (λ x. bytes.now ≡ x.0.now ++ x.1.now) }
    ensures long { IfSome result (λ x. length x.0.now ≡ count) }
    ensures none { IsNone result → NoneBegins (λ text. text) (λ text. IsOfLength count text) bytes.now }
{
    if bytes.len() < count {
        return None;
    }
    let (front, rest) = bytes.split_at(count);
    match str::from_utf8(front) {
        Ok(text) => Some((text, rest)),
        Err(_) => None,
    }
}

/// The length in two bytes with which the bytes begin, and the bytes behind it; None where there are too few.
fn size_at(bytes: &[u8]) -> Option<(u16, &[u8])>
    ensures found { IfSome result (λ x. bytes.now ≡ size_bytes x.0 ++ x.1.now) }
    ensures fits { IfSome result (λ x. IsSize x.0) }
    ensures none { IsNone result → NoneBegins size_bytes IsSize bytes.now }
{
    match bytes {
        [a, b, rest @ ..] => Some((u16::from_le_bytes([*a, *b]), rest)),
        _ => None,
    }
}

/// The text with which the bytes begin, behind its length in two bytes, and the bytes behind it.
pub fn short_text_at(bytes: &[u8]) -> Option<(&str, &[u8])>
    ensures found { IfSome result (λ x. bytes.now ≡ short_text x.0.now ++ x.1.now) }
    ensures short { IfSome result (λ x. IsShort x.0.now) }
    ensures none { IsNone result → NoneBegins short_text IsShort bytes.now }
{
    let (size, rest) = size_at(bytes)?;
    text_of_length(rest, size as usize)
}

/// The text with which the bytes begin, behind its length in four bytes, and the bytes behind it.
pub fn long_text_at(bytes: &[u8]) -> Option<(&str, &[u8])>
    ensures found { IfSome result (λ x. bytes.now ≡ long_text x.0.now ++ x.1.now) }
    ensures short { IfSome result (λ x. IsLong x.0.now) }
    ensures none { IsNone result → NoneBegins long_text IsLong bytes.now }
{
    let (length, rest) = number_at(bytes)?;
    text_of_length(rest, length as usize)
}

/// The user with which the bytes begin, and the bytes behind it.
pub fn user_at(alloc: Global, bytes: &[u8]) -> Result<(UserName, &[u8]), FieldFault>
    ensures found { IfOk result (λ x. bytes.now ≡ short_text x.0 ++ x.1.now) }
    ensures within { IfOk result (λ x. IsUser x.0) }
    ensures err { IfErr result (IsFieldFault (NoneBegins short_text IsUser bytes.now)) }
{
    let Some((text, rest)) = short_text_at(bytes) else {
        return Err(FieldFault::Bad);
    };
    let user = UserName::read(alloc, text)?;
    Ok((user, rest))
}

/// The host with which the bytes begin, and the bytes behind it.
pub fn host_at(alloc: Global, bytes: &[u8]) -> Result<(HostText, &[u8]), FieldFault>
    ensures found { IfOk result (λ x. bytes.now ≡ short_text x.0 ++ x.1.now) }
    ensures within { IfOk result (λ x. IsHost x.0) }
    ensures err { IfErr result (IsFieldFault (NoneBegins short_text IsHost bytes.now)) }
{
    let Some((text, rest)) = short_text_at(bytes) else {
        return Err(FieldFault::Bad);
    };
    let host = HostText::read(alloc, text)?;
    // What was not in lower case has become another text.
    if host.as_str() != text {
        return Err(FieldFault::Bad);
    }
    Ok((host, rest))
}
