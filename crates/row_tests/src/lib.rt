//! Tests of the rows that statements leave, of their refusals, and of checks over them, each one table.
#![tactic(auto)]

#[cfg(test)]
mod checks;
#[cfg(test)]
mod effects;
#[cfg(test)]
mod histories;
#[cfg(test)]
mod texts;
