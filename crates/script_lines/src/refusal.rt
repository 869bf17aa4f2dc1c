ghost use Rattle.std.specs.Prelude.{◌≡◌};
ghost use Rattle.script_lines.specs.declared.refusal.ScriptRefusal.TheVariants.{NoMemory as NoMemoryForScript};

use grant_refusal::ParseRefusal;
use std::alloc::{AllocError, AllocFailed};
use std::fmt;
use thiserror::Error;

/// Why the text of a command is none that is taken.
#[derive(Clone, Copy, Debug, PartialEq, Eq)]
pub enum CommandRefusal {
    /// The text is refused so, and an offset counts from its first byte.
    Text(ParseRefusal),
    /// The text is a command of a form that is not built: its line is refused at the line's first byte.
    Unbuilt,
}

/// Why a script was not read.
#[derive(Clone, Copy, Debug, PartialEq, Eq, Error)]
pub enum ScriptRefusal {
    /// The first line that is neither passed over nor a command line, counted from 1. The refusal is never NoMemory, and
    /// an offset counts from the line's first byte.
    #[error("line {line}: {refusal}")]
    BadLine { line: u32, refusal: ParseRefusal },
    /// More than this many of these.
    #[error("more than {number} {which}")]
    Limit { which: Which, number: u64 },
    /// Memory ran out; nothing is said of the script.
    #[error("out of memory")]
    NoMemory,
}

impl From<AllocError> for ScriptRefusal {
    ghost from_gives = { λ _ e. e ≡ NoMemoryForScript };

    fn from(_: AllocError) -> ScriptRefusal {
        ScriptRefusal::NoMemory
    }
}

impl<T: Drop> From<AllocFailed<T>> for ScriptRefusal {
    ghost from_gives = { λ _ e. e ≡ NoMemoryForScript };

    fn from(_: AllocFailed<T>) -> ScriptRefusal {
        ScriptRefusal::NoMemory
    }
}

/// What a limit counts.
#[derive(Clone, Copy, Debug, PartialEq, Eq)]
pub enum Which {
    Bytes,
    Lines,
    Sessions,
}

impl fmt::Display for Which {
    ghost use Rattle.std.specs.Prelude.{Some};
    ghost use Rattle.script_lines.specs.LimitTexts.{which_text};

    ghost output = { λ which. Some (which_text which) };

    fn fmt<W: fmt::Write>(&self, f: &mut fmt::Formatter<W>) -> fmt::Result {
        f.write_str(match self {
            Which::Bytes => "bytes",
            Which::Lines => "lines",
            Which::Sessions => "sessions",
        })
    }
}
