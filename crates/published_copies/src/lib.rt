//! A value that stands for a list of entries, in two published copies: one publisher changes it, and views read it without a lock.
//! A view never reads less than it read or was told before.
#![tactic(auto)]

mod awaiting;
mod copies;
mod front;
mod heard;
mod history;
mod publisher;
mod stage;
mod state;
mod view;

pub use awaiting::{Awaited, await_length, read_last};
pub use copies::{Content, Operation, PublishedCopy};
pub use front::Front;
pub use history::Mark;
pub use publisher::Publisher;
pub use stage::{Notice, Stage};
pub use state::Missed;
pub use view::{NoEntry, View};
