//! The disk of a journal: its records are written so that every image which a crash may leave stands for a list, and read
//! in pieces.
#![tactic(auto)]

mod reading;
mod writing;

pub use reading::{Front, MOST_BYTES, ReadFault, fill, front_at, record_at};
pub use writing::{set_gate, write_behind, write_header};
