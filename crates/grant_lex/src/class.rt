ghost use Rattle.std.specs.Prelude.{◌≡◌};
ghost use Rattle.grant_lex.specs.Class.{class_of, is_blank, is_word_byte};
ghost use Rattle.grant_lex.specs.Next.{IsLongestRun};

/// What a byte may be outside quotes.
#[derive(Clone, Copy, Debug, PartialEq, Eq)]
pub(crate) enum Class {
    Blank,
    Word,
    Mark,
    Quote,
    Backquote,
    Other,
}

/// Whether the byte is a space or a tab.
pub fn is_blank(byte: u8) -> bool
    ensures { result ≡ is_blank byte }
{
    matches!(byte, b' ' | b'\t')
}

/// Whether a word may have the byte: a letter, a digit, `_`, `$` or a byte from 0x80.
pub fn is_word_byte(byte: u8) -> bool
    ensures { result ≡ is_word_byte byte }
{
    byte.is_ascii_alphanumeric() || byte == b'_' || byte == b'$' || byte >= 0x80
}

pub(crate) fn class_of(byte: u8) -> Class
    ensures { result ≡ class_of byte }
{
    match byte {
        _ if is_blank(byte) => Class::Blank,
        _ if is_word_byte(byte) => Class::Word,
        b'@' | b',' | b'.' | b'(' | b')' | b'*' | b'=' | b';' => Class::Mark,
        b'\'' | b'"' => Class::Quote,
        b'`' => Class::Backquote,
        _ => Class::Other,
    }
}

/// How many bytes at the front are of the class.
pub(crate) fn run_length(bytes: &[u8], class: Class) -> usize
    ensures { IsLongestRun class bytes.now result }
{
    let mut length = 0;
    while length < bytes.len() && class_of(bytes[length]) == class {
        length += 1;
    }
    length
}
