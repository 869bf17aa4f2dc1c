//! Tests of two published copies, over a small value that keeps what its entries weigh together.
#![tactic(auto)]

#[cfg(test)]
mod published;
pub mod scale;
pub mod shown;
