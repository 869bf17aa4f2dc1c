//! Tests of the crates that know nothing of accounts: devices, lists, what holders hold on things, masks, grammars, and the
//! graph of roles.
#![tactic(auto)]

#[cfg(test)]
mod disks;
#[cfg(test)]
mod files;
#[cfg(test)]
mod held;
#[cfg(test)]
mod lists;
#[cfg(test)]
mod masks;
#[cfg(test)]
mod pipes;
#[cfg(test)]
mod roles;
#[cfg(test)]
mod sentences;
