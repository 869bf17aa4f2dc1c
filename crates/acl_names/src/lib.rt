//! Names: users, hosts and the accounts that they form, and identifiers of schemas and what stands in them, each kept
//! within its rules from the moment it is read; and the small types that speak of accounts.
#![tactic(auto)]

mod auth;
mod caller;
mod host;
mod ident;
mod name;
mod policy;
mod quoted;
mod refusal;
mod text;
mod user;

pub use auth::AuthId;
pub use caller::Caller;
pub use host::{HOST_LIMIT, HostText};
pub use ident::{IDENT_LIMIT, Ident};
pub use policy::{LockTime, Policy, Verifier};
pub use quoted::Quoted;
pub use refusal::NameRefusal;
pub use user::{USER_LIMIT, UserName};
