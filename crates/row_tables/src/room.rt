/// How many more rows are to fit without memory.
#[derive(Clone, Copy, Debug)]
pub struct Room {
    /// Accounts.
    pub accounts: u32,
    /// Schemas on which somebody holds a privilege or has a restriction.
    pub schemas: u32,
    /// Pairs of an account and such a schema.
    pub pairs: u32,
    /// Pairs of an account and a table, a column or a routine.
    pub objects: u32,
    /// Granted roles, and as many default roles.
    pub edges: u32,
}
