//! Names between backquotes.
ghost use Rattle.std.specs.Prelude.{Some};
ghost use Rattle.std.specs.Char.{encode_utf8};
ghost use Rattle.std.specs.Fmt.{WritesOnOk};
ghost use Rattle.acl_names.specs.Quoted.{doubled, quoted};

use std::fmt;

/// A name that prints between backquotes, with each backquote in it doubled.
#[derive(Clone, Copy)]
pub struct Quoted<'a>(pub &'a str);

impl fmt::Display for Quoted<'_> {
    ghost output = { λ name. Some (quoted name.0.now) };

    fn fmt<W: fmt::Write>(&self, f: &mut fmt::Formatter<W>) -> fmt::Result {
        f.write_str("`")?;
        write_doubled(f, self.0)?;
        f.write_str("`")
    }
}

fn write_doubled<W: fmt::Write>(f: &mut fmt::Formatter<W>, text: &str) -> fmt::Result
    ensures { WritesOnOk W.write_str_gives f.old result (doubled text.now) f.new }
{
    for character in text.chars() {
        write_character(f, character)?;
    }
    Ok(())
}

fn write_character<W: fmt::Write>(f: &mut fmt::Formatter<W>, character: char) -> fmt::Result
    ensures { WritesOnOk W.write_str_gives f.old result (doubled (encode_utf8 character)) f.new }
{
    if character == '`' {
        f.write_str("``")
    } else {
        f.write_char(character)
    }
}
