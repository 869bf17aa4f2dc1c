//! What a rule's code reads.

/// A value, and the tokens behind those that spell it.
#[derive(Drop)]
pub struct Found<'a, T, V: Drop> {
    pub value: V,
    pub rest: &'a [T],
}
