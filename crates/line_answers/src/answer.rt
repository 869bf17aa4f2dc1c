use acl_names::{AuthId, Ident};
use acl_stmt::{Missing, Refusal, Target};

/// The answer to a line.
#[derive(Debug, PartialEq, Eq, Drop)]
pub enum Answer {
    /// The session is connected as this account.
    Connected(AuthId),
    /// The session's connection has ended.
    Bye,
    /// The schema is the current one.
    Schema(Ident),
    /// The session has each privilege of the request.
    Allowed,
    Denied(Denial),
    /// The statement is accepted: it is the one with this number, counted from 1.
    Done { position: u32 },
    Refused(LineRefusal),
}

/// A privilege that is missing, with what is printed of it: where, and on which column.
#[derive(Debug, PartialEq, Eq, Drop)]
pub struct Denial {
    pub missing: Missing,
    pub target: Target,
    pub column: Option<Ident>,
}

/// Why a line is refused.
#[derive(Debug, PartialEq, Eq, Drop)]
pub enum LineRefusal {
    /// The session has no connection, and the command needs one.
    NotConnected,
    /// The session lacks a privilege that the command needs.
    Denied(Denial),
    /// Never one of want of memory, nor a denial: these stand beside it.
    Statement(Refusal),
    Login(LoginRefusal),
    /// Memory ran out.
    NoMemory,
}

/// Why a login is refused.
#[derive(Clone, Copy, Debug, PartialEq, Eq, Drop)]
pub enum LoginRefusal {
    /// No account fits the user and the client.
    NoAccount,
}
