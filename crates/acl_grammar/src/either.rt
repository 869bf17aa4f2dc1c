//! A value of one of two rules.

/// What was read by the first rule or by the second one.
#[derive(Drop)]
pub enum Either<V: Drop, W: Drop> {
    First(V),
    Second(W),
}
