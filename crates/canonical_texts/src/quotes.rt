ghost use Rattle.std.specs.Prelude.{◌≡◌, ◌++◌, OnOk, IfOk, string_bytes, encode_utf8};
ghost use Rattle.acl_names.specs.Quoted.{doubled, quoted};
ghost use Rattle.priv_items.specs.Escapes.{escaped, escaped_behind, is_wildcard};
ghost use Rattle.canonical_texts.specs.Quotes.{schema_text, string_inside, string_text};

use std::alloc::{AllocError, Global};

/// Appends a name between backquotes.
pub(crate) fn write_quoted(text: &mut String, name: &str) -> Result<(), AllocError>
    ensures { OnOk result (string_bytes text.new ≡ string_bytes text.old ++ quoted name.now) }
{
    text.push('`')?;
    write_doubled(text, name)?;
    text.push('`')
}

fn write_doubled(text: &mut String, name: &str) -> Result<(), AllocError>
    ensures { OnOk result (string_bytes text.new ≡ string_bytes text.old ++ doubled name.now) }
{
    for character in name.chars() {
        write_doubled_character(text, character)?;
    }
    Ok(())
}

fn write_doubled_character(text: &mut String, character: char) -> Result<(), AllocError>
    ensures { OnOk result (string_bytes text.new ≡ string_bytes text.old ++ doubled (encode_utf8 character)) }
{
    if character == '`' {
        text.push_str("``")
    } else {
        text.push(character)
    }
}

/// Appends a string between single quotes.
pub(crate) fn write_string(text: &mut String, value: &str) -> Result<(), AllocError>
    ensures { OnOk result (string_bytes text.new ≡ string_bytes text.old ++ string_text value.now) }
{
    text.push('\'')?;
    write_inside(text, value)?;
    text.push('\'')
}

fn write_inside(text: &mut String, value: &str) -> Result<(), AllocError>
    ensures { OnOk result (string_bytes text.new ≡ string_bytes text.old ++ string_inside value.now) }
{
    for character in value.chars() {
        write_inside_character(text, character)?;
    }
    Ok(())
}

fn write_inside_character(text: &mut String, character: char) -> Result<(), AllocError>
    ensures { OnOk result (string_bytes text.new ≡ string_bytes text.old ++ string_inside (encode_utf8 character)) }
{
    if character == '\'' {
        text.push_str("''")
    } else if character == '\\' {
        text.push_str("\\\\")
    } else {
        text.push(character)
    }
}

/// Appends the name of a schema that a privilege is granted on, or revoked.
pub(crate) fn write_schema(text: &mut String, alloc: Global, schema: &str) -> Result<(), AllocError>
    ensures { OnOk result (string_bytes text.new ≡ string_bytes text.old ++ schema_text schema.now) }
{
    let kept = escaped(alloc, schema)?;
    write_quoted(text, kept.as_str())
}

fn escaped(alloc: Global, schema: &str) -> Result<String, AllocError>
    ensures { IfOk result (λ kept. string_bytes kept ≡ escaped schema.now) }
{
    let mut kept = String::new(alloc);
    let mut after = false;
    for character in schema.chars() {
        write_kept_character(&mut kept, after, character)?;
        after = character == '\\';
    }
    Ok(kept)
}

/// Appends a character of a schema's name, `after` a backslash or not.
fn write_kept_character(kept: &mut String, after: bool, character: char) -> Result<(), AllocError>
    ensures { OnOk result (string_bytes kept.new ≡ string_bytes kept.old ++ escaped_behind after (encode_utf8 character)) }
{
    if after && is_wildcard(character) {
        kept.push('\\')?;
        kept.push(character)
    } else {
        kept.push(character)
    }
}

fn is_wildcard(character: char) -> bool
    ensures { result ≡ is_wildcard character }
{
    character == '%' || character == '_'
}
