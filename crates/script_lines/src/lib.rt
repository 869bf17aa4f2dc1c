//! The lines of a script: which of them have a command, of which session it is, and the first fault of a script that has
//! one. How a command is spelled is for the caller to say, by an implementation of `Commands`.
#![tactic(auto)]

mod beginning;
mod commands;
mod cut;
mod lines;
mod read;
mod refusal;
mod session_name;

pub use commands::Commands;
pub use lines::{Line, Lines};
pub use read::{MOST_BYTES, MOST_LINES, MOST_SESSIONS, read_lines};
pub use refusal::{CommandRefusal, ScriptRefusal, Which};
pub use session_name::SessionName;
