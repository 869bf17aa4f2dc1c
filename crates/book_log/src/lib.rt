//! What the log of an account system says: definitions of its items, of the accepted statements, of the replies to statements
//! and logins, and of legal logs. They stand in the specifications; the code here is empty and carries their laws.
//!
//! MySQL 8.0 Reference Manual, "Access Control and Account Management".
#![tactic(auto)]

mod laws;

pub use laws::{
    calls_have_no_gaps, fronts_are_legal, history_grows_with_done, legal_logs_may_end,
    logins_choose_once, stamps_count_the_log, worked_log_is_legal,
};
