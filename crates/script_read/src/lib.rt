//! Scripts of commands: their lines, the commands that stand on them, and the first fault of a script that has one.
#![tactic(auto)]

mod command;
mod forms;
mod meaning;
mod reading;
mod script;
mod written;

pub use command::Command;
pub use forms::Forms;
pub use reading::MOST_COMMAND_BYTES;
pub use script::{Line, Script, read_script, read_script_of};
pub use script_lines::{ScriptRefusal, SessionName, Which};
