use std::collections::LinkedList;

/// The entries so far, and whether none comes any more. Contracts alone see it, and no value of it is made.
pub struct Stage<E> {
    pub entries: LinkedList<E>,
    pub ended: bool,
}

/// What a view read or was told. Contracts alone see it, and no value of it is made.
pub struct Notice<E> {
    pub stage: Stage<E>,
    pub told: bool,
}
