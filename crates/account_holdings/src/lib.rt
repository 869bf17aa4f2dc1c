//! What numbered accounts hold: privileges, restrictions, roles and default roles.
#![tactic(auto)]

mod account_holdings;
mod bits;
mod globals;
mod holding;
mod role_number;
mod room;

pub use account_holdings::AccountHoldings;
pub use bits::has_bit;
pub use globals::{GlobalBits, GlobalKind};
pub use holding::Holding;
pub use role_number::RoleNumber;
pub use room::HoldingsRoom;
