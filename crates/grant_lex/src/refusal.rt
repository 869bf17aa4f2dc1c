use std::alloc::AllocError;
use thiserror::Error;

/// Why a text has no tokens: the fault that a reader from the left meets first.
#[derive(Clone, Copy, Debug, PartialEq, Eq, Hash, Error)]
pub enum LexRefusal {
    /// A byte that begins no token, or a backslash in a string with a byte behind it that it cannot have;
    /// it stands `offset` bytes from the start of the text.
    #[error("a byte that fits no token stands at {offset}")]
    BadByte { offset: u32 },
    /// The quote that stands `offset` bytes from the start of the text is not closed.
    #[error("the quote at {offset} is not closed")]
    Unclosed { offset: u32 },
    /// Memory ran out; nothing is said of the text.
    #[error("out of memory")]
    NoMemory,
}

impl From<AllocError> for LexRefusal {
    ghost use Rattle.std.specs.Prelude.{◌≡◌};
    ghost use Rattle.grant_lex.specs.declared.refusal.LexRefusal.TheVariants.{NoMemory};

    ghost from_gives = { λ _ refusal. refusal ≡ NoMemory };

    fn from(_: AllocError) -> LexRefusal {
        LexRefusal::NoMemory
    }
}
