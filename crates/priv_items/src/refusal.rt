use priv_sets::Privilege;
use thiserror::Error;

/// Why named privileges are no request on their target.
#[derive(Clone, Copy, Debug, PartialEq, Eq, Error)]
pub enum LevelRefusal {
    /// The first privilege that is not granted at the level of the target.
    #[error("the level of the target has no {privilege}")]
    WrongLevel { privilege: Privilege },
    /// Memory ran out; nothing is said of the privileges.
    #[error("out of memory")]
    NoMemory,
}
