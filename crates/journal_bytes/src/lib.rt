//! The file of a journal: for which list of accepted entries its bytes stand, and where other bytes are damaged. The
//! definitions stand in the specifications; the code here is their laws.
#![tactic(auto)]

mod laws;

pub use laws::{
    bytes_behind_the_last_gate_are_passed_over, damage_has_one_offset, files_stand_for_one_list,
    files_that_stand_are_not_damaged, journals_are_not_foreign,
};
