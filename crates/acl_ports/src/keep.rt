// What a stop leaves.

/// Which bytes a disk in memory is left with when it is stopped.
#[derive(Clone, Copy, Debug, PartialEq, Eq)]
pub enum Keep {
    /// Those of the last sync that succeeded, or those that the disk was made of.
    Synced,
    /// Those that a read gives.
    Written,
}
