//! What is read of a script.

use crate::session_name::SessionName;
use acl_items::Items;

/// The lines of a script that have a command.
#[derive(Debug, Drop)]
pub struct Lines<C> {
    /// The sessions, in the order in which they first appear.
    pub sessions: Items<SessionName>,
    pub lines: Items<Line<C>>,
}

/// A line with a command.
#[derive(Debug, Drop)]
pub struct Line<C> {
    /// The number of the line, counted from 1; lines that are passed over count too.
    pub number: u32,
    /// The place of the line's session among the sessions, counted from 0.
    pub session: u32,
    pub command: C,
}
