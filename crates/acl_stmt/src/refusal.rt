use acl_names::AuthId;
use priv_sets::Privilege;

/// Why a privilege that is asked for is not there.
#[derive(Clone, Copy, Debug, PartialEq, Eq, Drop)]
pub enum Why {
    /// Nothing grants it.
    NoGrant,
    /// It is held on `*.*`, and revoked for this schema.
    Restricted,
}

/// The first privilege that is missing.
#[derive(Clone, Copy, Debug, PartialEq, Eq, Drop)]
pub struct Missing {
    pub privilege: Privilege,
    /// Whether it is missing on the target, or else on `*.*`.
    pub on_target: bool,
    /// The place of the column among those that the privilege was asked for on, from 0.
    pub column: Option<u32>,
    pub why: Why,
}

/// What there may be no more of.
#[derive(Clone, Copy, Debug, PartialEq, Eq, Drop)]
pub enum Full {
    /// Accounts, of which there are at most 4,096.
    Accounts,
    /// Different names of schemas in schema privileges and restrictions, at most 4,096.
    Schemas,
    /// Pairs of an account and a schema with a schema privilege or a restriction, at most 262,144.
    Pairs,
    /// Tables, columns and routines on which accounts hold something, at most 65,536 for all accounts together.
    Objects,
    /// Granted roles and default roles, at most 65,536 together.
    Edges,
}

/// Why a statement was refused.
#[derive(Debug, PartialEq, Eq, Drop)]
pub enum Refusal {
    /// The account system takes no more statements.
    Closed,
    /// The session's account lacks a privilege.
    Denied(Missing),
    NoSuchAccount { account: AuthId },
    AccountExists { account: AuthId },
    /// The role is mandatory.
    Mandatory { role: AuthId },
    /// The role is not granted to the account.
    NotGranted { role: AuthId, account: AuthId },
    /// The role reaches the account, or is the account.
    Loop { role: AuthId, account: AuthId },
    /// The account holds nothing of what is to be revoked.
    NoSuchGrant { account: AuthId },
    Full { what: Full },
    /// The journal takes no more statements.
    HistoryFull,
    DiskFault,
    NoMemory,
}
