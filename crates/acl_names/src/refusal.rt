use thiserror::Error;

/// Why a text was not read as a name.
#[derive(Clone, Copy, Debug, PartialEq, Eq, Hash, Error)]
pub enum NameRefusal {
    /// The text has a byte below 0x20 or the byte 0x7F; the first one stands `offset` bytes from its start.
    #[error("a control byte stands at {offset}")]
    BadByte { offset: u32 },
    /// The text is empty, and names of this kind are not.
    #[error("a name of this kind is not empty")]
    Empty,
    /// The text has more than `limit` characters, each a Unicode scalar value.
    #[error("a name of this kind has at most {limit} characters")]
    TooLong { limit: u32 },
    /// Memory ran out; nothing is said of the text.
    #[error("out of memory")]
    NoMemory,
}
