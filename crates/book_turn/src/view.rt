use std::collections::LinkedList;

/// What a seat knows. It exists in proofs alone, and no value of it is made.
pub struct View<I, O> {
    /// The history as far as it was seen, and another seat's, which was just joined.
    pub seen: LinkedList<I>,
    pub passed_on: LinkedList<I>,
    /// The history is at least as long.
    pub known: u64,
    /// The items of each caller whose calls are the seat's to make.
    pub mine: LinkedList<(u64, LinkedList<I>)>,
    pub turn: bool,
    /// The table has no book yet.
    pub fresh: bool,
    /// How many callers there are, in the seat that makes them.
    pub drawn: Option<u64>,
    /// The book's origin, and that of a seat that was just joined.
    pub origin: Option<O>,
    pub hint: Option<O>,
}
