//! Entries as bytes: one spelling each, and the one place where other bytes are no entry.
#![tactic(auto)]

mod laws;
mod writing;

pub use laws::{
    entries_have_one_spelling, faults_have_one_offset, read_statements_are_read_back,
    spellings_have_no_fault,
};
pub use writing::encode;
