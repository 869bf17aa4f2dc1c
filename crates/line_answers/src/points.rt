/// How many statements had been accepted at a session's readings.
#[derive(Clone, Copy, Debug, PartialEq, Eq, Drop)]
pub struct Points {
    /// At the reading of the global level.
    pub global: u32,
    /// At the reading of the current schema.
    pub schema: u32,
}
