//! What a made line does, and how it is written.
ghost use Rattle.std.specs.Prelude.{◌≡◌, Some};
ghost use Rattle.made_scripts.specs.Texts.{deed_text, line_text, right_text};

use std::fmt;

/// A privilege of the made scripts.
#[derive(Clone, Copy, Debug, PartialEq, Eq)]
pub enum Right {
    Select,
    Insert,
    Update,
    Delete,
}

/// A command of the made scripts. Users, roles and schemas have numbers: `u7`, `r7` and `d7`.
#[derive(Clone, Copy, Debug, PartialEq, Eq)]
pub enum Deed {
    CreateUser {
        user: u64,
    },
    CreateRole {
        role: u64,
    },
    GrantOnSchema {
        right: Right,
        schema: u64,
        user: u64,
    },
    GrantRole {
        role: u64,
        user: u64,
    },
    GrantEverywhere {
        right: Right,
        role: u64,
    },
    RevokeOnSchema {
        right: Right,
        schema: u64,
        role: u64,
    },
    UseSchema {
        schema: u64,
    },
    CheckOnTable {
        right: Right,
        schema: u64,
    },
}

/// A line of the made scripts behind those that connect the sessions.
#[derive(Clone, Copy, Debug, PartialEq, Eq)]
pub struct MadeLine {
    /// The number of its session, which is named `s7`.
    pub session: u64,
    pub deed: Deed,
}

fn right_text(right: Right) -> &'static str
    ensures { result.now ≡ right_text right }
{
    match right {
        Right::Select => "SELECT",
        Right::Insert => "INSERT",
        Right::Update => "UPDATE",
        Right::Delete => "DELETE",
    }
}

impl fmt::Display for Right {
    ghost output = { λ right. Some (right_text right) };

    fn fmt<W: fmt::Write>(&self, f: &mut fmt::Formatter<W>) -> fmt::Result {
        f.write_str(right_text(*self))
    }
}

impl fmt::Display for Deed {
    ghost output = { λ deed. Some (deed_text deed) };

    fn fmt<W: fmt::Write>(&self, f: &mut fmt::Formatter<W>) -> fmt::Result {
        match *self {
            Deed::CreateUser { user } => write!(f, "CREATE USER IF NOT EXISTS u{user}"),
            Deed::CreateRole { role } => write!(f, "CREATE ROLE IF NOT EXISTS r{role}"),
            Deed::GrantOnSchema {
                right,
                schema,
                user,
            } => write!(f, "GRANT {right} ON d{schema}.* TO u{user}"),
            Deed::GrantRole { role, user } => write!(f, "GRANT r{role} TO u{user}"),
            Deed::GrantEverywhere { right, role } => write!(f, "GRANT {right} ON *.* TO r{role}"),
            Deed::RevokeOnSchema {
                right,
                schema,
                role,
            } => write!(f, "REVOKE {right} ON d{schema}.* FROM r{role}"),
            Deed::UseSchema { schema } => write!(f, "USE d{schema}"),
            Deed::CheckOnTable { right, schema } => write!(f, "CHECK {right} ON d{schema}.t"),
        }
    }
}

impl fmt::Display for MadeLine {
    ghost output = { λ line. Some (line_text line) };

    fn fmt<W: fmt::Write>(&self, f: &mut fmt::Formatter<W>) -> fmt::Result {
        let session = self.session;
        let deed = &self.deed;
        writeln!(f, "s{session}> {deed}")
    }
}
