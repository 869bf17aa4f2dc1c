//! Statements and requests from their texts.
ghost use Rattle.std.specs.Prelude.{◌≡◌, [], IfOk, IfSome, IsTrue};
ghost use Rattle.acl_apply.specs.Built.{is_built};
ghost use Rattle.acl_stmt.specs.Entries.{is_entry};
ghost use Rattle.acl_stmt.specs.Statements.{is_statement};

use acl_items::Items;
use acl_names::{AuthId, Caller, HostText, UserName};
use acl_stmt::{Entry, Request, Statement};
use grant_parse::{parse, parse_request};
use priv_map::PrivMap;
use std::alloc::Global;
use std::process::Abort;
use std::test::Fail;

// An account at any host, or root's.
pub(crate) fn account(rt: &impl Abort, alloc: Global, user: &str) -> Result<AuthId, Fail> {
    assert!(rt; user.len() < 100);
    let host = if user == "root" { "localhost" } else { "%" };
    let user = UserName::read(alloc, user)?;
    let host = HostText::read(alloc, host)?;
    Ok(AuthId { user, host })
}

// The statement, where it is one that is carried out.
#[tactic(auto, unfolding(acl_stmt::specs::Entries::is_entry))]
fn carried_out(statement: Statement) -> Option<Statement>
    requires { IsTrue (is_statement statement) }
    ensures rules { IfSome result (λ kept. IsTrue (is_entry [] kept)) }
    ensures built { IfSome result (λ kept. IsTrue (is_built kept)) }
{
    match &statement {
        Statement::CreateUser { .. }
        | Statement::DropUser { .. }
        | Statement::RenameUser { .. }
        | Statement::Grant { .. }
        | Statement::Revoke { .. }
        | Statement::RevokeAll { .. } => Some(statement),
        _ => None,
    }
}

fn entry_of(alloc: Global, by: AuthId, statement: Statement) -> Entry
    requires { IsTrue (is_entry [] statement) }
    ensures { result.statement ≡ statement }
{
    Entry {
        caller: Caller(0),
        number: 0,
        by,
        limits: Items::new(alloc),
        statement,
    }
}

// The entry of a statement that root issues.
pub(crate) fn entry(rt: &impl Abort, alloc: Global, text: &str) -> Result<Entry, Fail>
    ensures { IfOk result (λ entry. IsTrue (is_built entry.statement)) }
{
    let root = account(rt, alloc, "root")?;
    let statement = parse(alloc, text, 1000)?;
    let statement = carried_out(statement).ok_or("not carried out")?;
    Ok(entry_of(alloc, root, statement))
}

pub(crate) fn request(alloc: Global, text: &str) -> Result<Request, Fail> {
    Ok(parse_request(alloc, text, 1000)?)
}

// Whether the statement is carried out.
pub(crate) fn is_done(alloc: Global, map: &mut PrivMap, entry: &Entry) -> bool
    requires { IsTrue (is_built entry.now.statement) }
{
    match map.prepare(alloc, entry) {
        Ok(change) => {
            map.commit(change);
            true
        }
        Err(_) => false,
    }
}
