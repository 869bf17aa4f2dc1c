ghost use Rattle.std.specs.Prelude.{◌≡◌, ◌⊎◌, ◌++◌, string_bytes, IfOk, OnOk};
ghost use Rattle.std.specs.Str.{IsUtf8};
ghost use Rattle.grant_lex.specs.Class.{class_of, is_quote};
ghost use Rattle.grant_lex.specs.Inside.{keeps_backslash, meaning};
ghost use Rattle.grant_lex.specs.Value.{inside_value, value_of};
ghost use Rattle.grant_lex.specs.declared.class.Class.TheVariants.{Quote, Backquote};

use crate::inside::{Inside, Piece, next_inside};
use std::alloc::{AllocError, Global};

/// What the text of a token stands for: between quotes, that with each doubled quote once and each escape
/// resolved; a word and a mark stand for themselves.
///
/// MySQL 8.0 Reference Manual, "String Literals" and "Schema Object Names".
pub fn value_of(alloc: Global, text: &str) -> Result<String, AllocError>
    ensures { IfOk result (λ value. string_bytes value ≡ value_of text.now) }
{
    match text.as_bytes() {
        [quote, inside @ ..] if is_quote(*quote) => {
            let value = unquoted(alloc, *quote, inside)?;
            Ok(String::from_utf8(value).unwrap())
        }
        _ => String::from_str(alloc, text),
    }
}

/// The bytes that `inside` stands for behind an opening `quote`.
fn unquoted(alloc: Global, quote: u8, inside: &[u8]) -> Result<Vec<u8>, AllocError>
    requires sort { (class_of quote ≡ Quote) ⊎ (class_of quote ≡ Backquote) }
    requires utf8 { IsUtf8 inside.now }
    ensures value { IfOk result (λ value. value.items ≡ inside_value quote inside.now) }
    ensures text { IfOk result (λ value. IsUtf8 value.items) }
{
    let mut value = Vec::with_capacity(alloc, inside.len())?;
    let mut length = 0;
    while let Inside::Next(piece) = next_inside(quote, &inside[length..]) {
        push_meaning(&mut value, quote, piece)?;
        length += piece.length();
    }
    Ok(value)
}

fn push_meaning(value: &mut Vec<u8>, quote: u8, piece: Piece) -> Result<(), AllocError>
    ensures ok { OnOk result (value.new.items ≡ value.old.items ++ meaning quote piece) }
{
    match piece {
        Piece::Plain(byte) => value.push(byte)?,
        Piece::Doubled => value.push(quote)?,
        Piece::Escaped(byte) => {
            if keeps_backslash(byte) {
                value.push(b'\\')?;
            }
            value.push(byte)?;
        }
    }
    Ok(())
}

fn is_quote(byte: u8) -> bool
    ensures { result ≡ is_quote byte }
{
    matches!(byte, b'\'' | b'"' | b'`')
}

fn keeps_backslash(byte: u8) -> bool
    ensures { result ≡ keeps_backslash byte }
{
    matches!(byte, b'%' | b'_')
}
