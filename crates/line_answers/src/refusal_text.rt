//! How the refusals of statements are written.
ghost use Rattle.std.specs.Prelude.{◌≡◌, Some};
ghost use Rattle.line_answers.specs.Texts.{full_text, object_text, refusal_text};

use acl_names::Quoted;
use acl_stmt::{Full, Refusal, Target};
use std::fmt;

/// A refusal as it prints.
#[derive(Clone, Copy)]
pub(crate) struct Reason<'a>(pub(crate) &'a Refusal);

impl fmt::Display for Reason<'_> {
    ghost output = { λ reason. Some (refusal_text reason.0.now) };

    fn fmt<W: fmt::Write>(&self, f: &mut fmt::Formatter<W>) -> fmt::Result {
        match self.0 {
            Refusal::Closed => f.write_str("closed"),
            Refusal::Denied(_) => f.write_str("denied"),
            Refusal::NoSuchAccount { account } => write!(f, "no such account {account}"),
            Refusal::AccountExists { account } => write!(f, "account exists {account}"),
            Refusal::Mandatory { role } => write!(f, "mandatory role {role}"),
            Refusal::NotGranted { role, account } => write!(f, "not granted {role} to {account}"),
            Refusal::Loop { role, account } => write!(f, "loop {role} to {account}"),
            Refusal::NoSuchGrant { account } => write!(f, "no such grant for {account}"),
            Refusal::Full { what } => f.write_str(full(*what)),
            Refusal::HistoryFull => f.write_str("history full"),
            Refusal::DiskFault => f.write_str("disk fault"),
            Refusal::NoMemory => f.write_str("no memory"),
        }
    }
}

fn full(what: Full) -> &'static str
    ensures { result.now ≡ full_text what }
{
    match what {
        Full::Accounts => "full accounts 4096",
        Full::Schemas => "full schemas 4096",
        Full::Pairs => "full pairs 262144",
        Full::Objects => "full objects 65536",
        Full::Edges => "full edges 65536",
    }
}

/// What a privilege is missing on, as it prints.
#[derive(Clone, Copy)]
pub(crate) struct Object<'a>(pub(crate) &'a Target);

impl fmt::Display for Object<'_> {
    ghost output = { λ object. Some (object_text object.0.now) };

    fn fmt<W: fmt::Write>(&self, f: &mut fmt::Formatter<W>) -> fmt::Result {
        match self.0 {
            Target::Global => f.write_str("*.*"),
            Target::Schema(schema) => {
                let schema = Quoted(schema.as_str());
                write!(f, "{schema}.*")
            }
            Target::Table(schema, table) => {
                let schema = Quoted(schema.as_str());
                let table = Quoted(table.as_str());
                write!(f, "{schema}.{table}")
            }
            Target::Function(schema, name) => {
                let schema = Quoted(schema.as_str());
                let name = Quoted(name.as_str());
                write!(f, "FUNCTION {schema}.{name}")
            }
            Target::Procedure(schema, name) => {
                let schema = Quoted(schema.as_str());
                let name = Quoted(name.as_str());
                write!(f, "PROCEDURE {schema}.{name}")
            }
        }
    }
}
