use acl_stmt::Missing;

/// Whether a request may be carried out.
#[derive(Clone, Copy, Debug, PartialEq, Eq, Drop)]
pub enum Verdict {
    Allowed,
    /// The first privilege that is missing.
    Denied(Missing),
}
