//! Lists of rows that go and come, tried and carried out.
#![tactic(auto)]

mod come;
mod limits;
mod tried;

pub use come::{edit, options_of, plain_of, put_each};
pub use limits::within_limits;
pub use tried::{RowEdit, carry_out, try_gone, try_rows};
