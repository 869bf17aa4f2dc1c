/// Who calls the account system: one of the sessions of a run, by its number.
#[derive(Clone, Copy, Debug, PartialEq, Eq, PartialOrd, Ord, Hash, Drop)]
pub struct Caller(pub u32);
