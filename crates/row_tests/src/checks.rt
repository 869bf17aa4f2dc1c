//! Checks of requests over what an account holds and over what its session has read.
use crate::texts::{account, entry, is_done, request};
use acl_items::Items;
use acl_names::Ident;
use acl_stmt::{Missing, Target};
use line_answers::{Answer, Denial};
use priv_map::{Acting, PrivMap, Verdict};
use std::alloc::Global;
use std::process::Abort;
use std::test::Fail;

// Statements, a line each, before `u` logs in and chooses the schema `s`; others after that; and checks, each with its
// answer.
struct Session {
    before: &'static str,
    after: &'static str,
    checks: &'static str,
    answers: &'static str,
}

static SESSIONS: [Session; 3] = [
    // The first privilege that is missing is named, with its column.
    Session {
        before: "CREATE USER u
GRANT SELECT (a, c), INSERT ON s.t TO u
GRANT EXECUTE ON FUNCTION s.f TO u
GRANT EVENT ON s.* TO u
GRANT PROCESS, ROLE_ADMIN ON *.* TO u",
        after: "",
        checks: "SELECT (a, c) ON s.t
SELECT (a, b, c) ON s.t
SELECT ON s.t
INSERT (z) ON s.t
DELETE, INSERT, DROP ON s.t
EXECUTE ON FUNCTION s.F
EXECUTE ON PROCEDURE s.f
EVENT ON s.*
EVENT ON r.*
PROCESS, ROLE_ADMIN ON *.*
AUDIT_ADMIN, PROCESS ON *.*
ALL ON *.*
ALL ON world.*
USAGE ON *.*",
        answers: "allowed
denied SELECT ON `s`.`t`
denied SELECT ON `s`.`t`
allowed
denied DELETE ON `s`.`t`
allowed
denied EXECUTE ON PROCEDURE `s`.`f`
allowed
denied EVENT ON `r`.*
allowed
denied AUDIT_ADMIN ON *.*
denied SELECT ON *.*
denied SELECT ON `world`.*
allowed
",
    },
    // What is read at login, when the schema is chosen, and at each check.
    Session {
        before: "CREATE USER u
GRANT UPDATE ON *.* TO u",
        after: "GRANT INSERT ON *.* TO u
GRANT SELECT ON s.* TO u
GRANT SELECT ON r.* TO u
GRANT DELETE ON s.t TO u
REVOKE UPDATE ON *.* FROM u",
        checks: "INSERT ON *.*
UPDATE ON s.t
SELECT ON s.t
SELECT ON r.t
DELETE ON s.t",
        answers: "denied INSERT ON *.*
allowed
denied SELECT ON `s`.`t`
allowed
allowed
",
    },
    // Restrictions are read at login, and a grant at a table goes beside them.
    Session {
        before: "CREATE USER u
GRANT SELECT, INSERT, DELETE ON *.* TO u
REVOKE SELECT, INSERT ON s.* FROM u
GRANT SELECT ON s.t TO u",
        after: "GRANT INSERT ON s.* TO u
REVOKE DELETE ON s.* FROM u
REVOKE DELETE ON r.* FROM u",
        checks: "SELECT ON s.t
SELECT ON s.*
INSERT ON s.t
DELETE ON s.t
DELETE ON r.t
INSERT ON r.t",
        answers: "allowed
denied SELECT ON `s`.* restricted
denied INSERT ON `s`.`t` restricted
allowed
allowed
allowed
",
    },
];

fn run(rt: &impl Abort, alloc: Global, map: &mut PrivMap, statements: &str) -> Result<(), Fail> {
    for statement in statements.lines() {
        let entry = entry(rt, alloc, statement)?;
        assert!(rt; is_done(alloc, map, &entry), "{statement}");
    }
    Ok(())
}

fn session_of(rt: &impl Abort, alloc: Global, map: &PrivMap) -> Result<Acting, Fail> {
    let user = account(rt, alloc, "u")?;
    let mut acting = map.acting(alloc, &user, Items::new(alloc))?;
    let schema = Ident::read(alloc, "s")?;
    let held = map.schema_held(alloc, &acting, &schema)?;
    acting.current = Some(held);
    Ok(acting)
}

// The columns of a denial are told by the sessions' crate.
fn denied(missing: Missing, target: Target) -> Answer {
    Answer::Denied(Denial {
        missing,
        target,
        column: None,
    })
}

fn check(alloc: Global, map: &PrivMap, acting: &Acting, text: &str) -> Result<String, Fail> {
    let request = request(alloc, text)?;
    let answer = match map.verdict(acting, &request) {
        Verdict::Allowed => Answer::Allowed,
        Verdict::Denied(missing) => denied(missing, request.target.copy(alloc)?),
    };
    Ok(format!(in alloc; "{answer}\n")?)
}

fn answers_of(alloc: Global, map: &PrivMap, acting: &Acting, checks: &str) -> Result<String, Fail> {
    let mut answers = String::new(alloc);
    for text in checks.lines() {
        let answer = check(alloc, map, acting, text)?;
        answers.push_str(answer.as_str())?;
    }
    Ok(answers)
}

// The session that logs in after the first statements.
fn session_after(
    rt: &impl Abort,
    alloc: Global,
    map: &mut PrivMap,
    before: &str,
) -> Result<Acting, Fail> {
    run(rt, alloc, map, before)?;
    session_of(rt, alloc, map)
}

// The answers to its checks after the later ones.
fn answers_on(
    rt: &impl Abort,
    alloc: Global,
    map: &mut PrivMap,
    case: &Session,
) -> Result<String, Fail> {
    let acting = session_after(rt, alloc, map, case.before)?;
    run(rt, alloc, map, case.after)?;
    answers_of(alloc, map, &acting, case.checks)
}

// The same from the opening on.
fn answers_after(rt: &impl Abort, alloc: Global, case: &Session) -> Result<String, Fail> {
    let mut map = PrivMap::opening(alloc)?;
    answers_on(rt, alloc, &mut map, case)
}

#[test]
fn a_check_names_what_is_missing(rt: HostRuntime) -> Result<(), Fail> {
    for case in &SESSIONS {
        let answers = answers_after(&rt, rt.alloc(), case)?;
        assert_eq!(rt; answers.as_str(), case.answers);
    }
    Ok(())
}
