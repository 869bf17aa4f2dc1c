//! Tests of names, hosts, privileges, tokens, statements, requests and scripts, each one table.
#![tactic(auto)]

#[cfg(test)]
mod hosts;
#[cfg(test)]
mod moments;
#[cfg(test)]
mod names;
#[cfg(test)]
mod privileges;
#[cfg(test)]
mod requests;
#[cfg(test)]
mod roles;
#[cfg(test)]
mod scripts;
#[cfg(test)]
mod statements;
#[cfg(test)]
mod tokens;
