/// How many more of each are to fit without memory.
#[derive(Clone, Copy, Debug)]
pub struct HoldingsRoom {
    /// Accounts.
    pub accounts: u32,
    /// Schemas on which something is held.
    pub schemas: u32,
    /// Pairs of an account and a schema.
    pub pairs: u32,
    /// Pairs of an account and a table, a column or a routine.
    pub objects: u32,
    /// Granted roles, and as many default roles.
    pub edges: u32,
}
