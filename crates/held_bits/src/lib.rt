//! What holders hold on things, as two sets of bits for each pair of them.
#![tactic(auto)]

mod bits;
mod held_bits;
mod numbers;
mod record;
mod table;

pub use bits::Bits;
pub use held_bits::HeldBits;
