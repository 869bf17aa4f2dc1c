//! Why a text is no statement, no request and no command.
#![tactic(auto)]

use priv_sets::Privilege;
use thiserror::Error;

/// Why a text was not read. What stands before the first fault is the beginning of some text that is read.
#[derive(Clone, Copy, Debug, PartialEq, Eq, Error)]
pub enum ParseRefusal {
    /// The text has more bytes than it may have.
    #[error("the text is too long")]
    Limit,
    /// No text that is read goes on with what stands `offset` bytes from the start: a token, a byte of none, a quote
    /// that is not closed, or the end of the text.
    #[error("a fault of spelling stands at {offset}")]
    Syntax { offset: u32 },
    /// The first privilege that is not granted at the level of the target.
    #[error("the level of the target has no {privilege}")]
    WrongLevel { privilege: Privilege },
    /// Memory ran out; nothing is said of the text.
    #[error("out of memory")]
    NoMemory,
}
