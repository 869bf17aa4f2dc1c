//! The journal of an account system: a file of the accepted entries, to which one is added so that every image which a
//! crash may leave stands for the list before it or for the list with it.
#![tactic(auto)]

mod gate;
mod journal;
mod opening;
mod prepared;
mod recovery;
mod refusal;
mod replay;

pub use journal::Journal;
pub use opening::Opened;
pub use prepared::Prepared;
pub use refusal::OpenRefusal;
pub use replay::Replay;
