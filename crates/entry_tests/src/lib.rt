//! Tests of entries as bytes, each one table.
#![tactic(auto)]

#[cfg(test)]
mod answers;
#[cfg(test)]
mod example;
#[cfg(test)]
mod kinds;
#[cfg(test)]
mod limits;
#[cfg(test)]
mod spelling;
