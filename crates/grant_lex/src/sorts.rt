/// The sort of a token.
#[derive(Clone, Copy, Debug, PartialEq, Eq, Hash, Drop)]
pub enum Kind {
    /// Letters, digits, `_`, `$` and bytes from 0x80.
    Word,
    /// A string between `'` or `"`.
    Quoted,
    /// A name between backquotes.
    Backquoted,
    /// One of the bytes `@ , . ( ) * = ;`.
    Mark(u8),
}

/// A token, as a slice of its text: the bytes from `from` up to and without `to`.
#[derive(Clone, Copy, Debug, PartialEq, Eq, Hash, Drop)]
pub struct Token {
    pub kind: Kind,
    pub from: u32,
    pub to: u32,
}
