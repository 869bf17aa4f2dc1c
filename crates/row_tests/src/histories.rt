//! Statements one after the other: how each is answered, and the rows that stand at the end.
use crate::texts::{entry, is_done};
use acl_names::AuthId;
use acl_rows::{Row, Rows};
use priv_map::PrivMap;
use std::alloc::Global;
use std::process::Abort;
use std::test::Fail;

// The statements, a line each; for each whether it is done (`d`) or refused (`r`); and the rows of each account but root,
// with root's number.
struct History {
    statements: &'static str,
    answers: &'static str,
    rows: &'static str,
}

static HISTORIES: [History; 11] = [
    History {
        statements: "",
        answers: "",
        rows: "root 72 rows\n",
    },
    // A name that stands twice is created once.
    History {
        statements: "CREATE USER x, x
CREATE USER IF NOT EXISTS x, x
CREATE USER y, x",
        answers: "rdr",
        rows: "root 72 rows
x
",
    },
    // A renaming moves the rows, and names may change places.
    History {
        statements: "CREATE USER a, b
GRANT SELECT ON s.* TO a
RENAME USER a TO c, b TO a
RENAME USER c TO a
RENAME USER x TO y",
        answers: "dddrr",
        rows: "a
c
 schema s 0
root 72 rows
",
    },
    // What is not there is refused, and changes nothing.
    History {
        statements: "CREATE USER u1, u2
REVOKE SELECT ON s.* FROM u1
REVOKE SELECT ON s.t FROM u1
GRANT SELECT ON *.* TO u1, nobody
REVOKE ALL PRIVILEGES, GRANT OPTION FROM nobody, u1",
        answers: "drrrr",
        rows: "root 72 rows
u1
u2
",
    },
    // An account goes, and is not there again.
    History {
        statements: "CREATE USER x, y
GRANT SELECT (c), INSERT ON s.t TO x, y
DROP USER x
DROP USER x
DROP USER IF EXISTS x
DROP USER y, y",
        answers: "dddrdr",
        rows: "root 72 rows
y
 table s t 1
 column s t c 0
",
    },
    // A grant at a schema lifts its restriction.
    History {
        statements: "CREATE USER u1
GRANT SELECT, INSERT, DELETE ON *.* TO u1
REVOKE INSERT, DELETE ON world.* FROM u1
GRANT DELETE ON world.* TO u1",
        answers: "dddd",
        rows: "root 72 rows
u1
 global 0
 global 1
 global 3
 restriction 1 world
",
    },
    // A grant at *.* lifts restrictions, and a revoke there takes them.
    History {
        statements: "CREATE USER u, v
GRANT SELECT ON *.* TO u, v
REVOKE SELECT ON a.* FROM u, v
REVOKE SELECT ON b.* FROM u
GRANT SELECT ON *.* TO u
REVOKE SELECT ON *.* FROM v
GRANT SELECT ON a.* TO v",
        answers: "ddddddd",
        rows: "root 72 rows
u
 global 0
v
 schema a 0
",
    },
    // A revoke at a table leaves privileges on its columns, and one at a schema those on its tables.
    History {
        statements: "CREATE USER u
GRANT SELECT, SELECT (a, b), UPDATE (b) ON s.t TO u
GRANT SELECT, EVENT ON s.* TO u
REVOKE SELECT ON s.t FROM u
REVOKE SELECT ON s.* FROM u
REVOKE SELECT (a) ON s.t FROM u
REVOKE SELECT (a) ON s.t FROM u",
        answers: "ddddddd",
        rows: "root 72 rows
u
 schema s 25
 column s t b 0
 column s t b 2
",
    },
    // Routines, GRANT OPTION, and all of them at once.
    History {
        statements: "CREATE USER u, v
GRANT EXECUTE ON FUNCTION s.F TO u WITH GRANT OPTION
GRANT ALL ON PROCEDURE s.p TO u, v
REVOKE GRANT OPTION ON FUNCTION s.f FROM u
REVOKE ALL ON PROCEDURE s.p FROM v",
        answers: "ddddd",
        rows: "root 72 rows
u
 function s f 17
 procedure s p 17
 procedure s p 23
v
",
    },
    History {
        statements: "CREATE USER u, v
GRANT ALL ON *.* TO u WITH GRANT OPTION
GRANT SELECT ON s.* TO v
REVOKE ALL PRIVILEGES, GRANT OPTION FROM u, v
REVOKE ROLE_ADMIN, SELECT, GRANT OPTION ON *.* FROM root@localhost",
        answers: "ddddd",
        rows: "root 49 rows
u
v
",
    },
    History {
        statements: "CREATE USER u
GRANT ROLE_ADMIN, SELECT ON *.* TO u WITH GRANT OPTION
GRANT AUDIT_ADMIN ON *.* TO u
REVOKE SELECT ON s.* FROM u
REVOKE ALL ON *.* FROM root@localhost",
        answers: "ddddd",
        rows: "root 2 rows
u
 global 0
 global 30
 dynamic 1
 dynamic 14
 grant of dynamic 14
 restriction 0 s
",
    },
];

fn objects_text(alloc: Global, row: &Row) -> Result<String, Fail> {
    Ok(match row {
        Row::Schema(_, s, p) => format!(in alloc; " schema {} {p}\n", s.as_str())?,
        Row::Table(_, s, t, p) => format!(in alloc; " table {} {} {p}\n", s.as_str(), t.as_str())?,
        Row::Column(_, s, t, c, p) => format!(in alloc;
            " column {} {} {} {p}\n",
            s.as_str(),
            t.as_str(),
            c.as_str()
        )?,
        Row::Function(_, s, n, p) => format!(in alloc;
            " function {} {} {p}\n",
            s.as_str(),
            n.as_str()
        )?,
        Row::Procedure(_, s, n, p) => format!(in alloc;
            " procedure {} {} {p}\n",
            s.as_str(),
            n.as_str()
        )?,
        Row::Restriction(_, p, s) => format!(in alloc; " restriction {p} {}\n", s.as_str())?,
        _ => String::from_str(alloc, " role\n")?,
    })
}

fn row_text(alloc: Global, row: &Row) -> Result<String, Fail> {
    Ok(match row {
        Row::Account(account) => format!(in alloc; "{}\n", account.user.as_str())?,
        Row::Global(_, p) => format!(in alloc; " global {p}\n")?,
        Row::Dynamic(_, d) => format!(in alloc; " dynamic {d}\n")?,
        Row::DynamicGrant(_, d) => format!(in alloc; " grant of dynamic {d}\n")?,
        _ => objects_text(alloc, row)?,
    })
}

// How many rows are this one.
fn count_of(row: &Row, rows: &[Row]) -> usize {
    let mut count = 0usize;
    for other in rows {
        if row.is(other) {
            count = count.saturating_add(1);
        }
    }
    count
}

// How many rows are the copy of this one.
fn copies_of(alloc: Global, row: &Row, rows: &[Row]) -> Result<usize, Fail> {
    let copy = row.copy(alloc)?;
    Ok(count_of(&copy, rows))
}

// Whether the copy of each row is one row, and no other.
fn differ(alloc: Global, rows: &[Row]) -> Result<bool, Fail> {
    for row in rows {
        if copies_of(alloc, row, rows)? != 1 {
            return Ok(false);
        }
    }
    Ok(true)
}

fn account_text(alloc: Global, rows: &Rows, account: &AuthId) -> Result<String, Fail> {
    let rows = rows.rows_of(alloc, account)?;
    if account.user.as_str() == "root" {
        return Ok(format!(in alloc; "root {} rows\n", rows.len())?);
    }
    let mut text = String::new(alloc);
    for row in rows.as_slice() {
        text.push_str(row_text(alloc, row)?.as_str())?;
    }
    if !differ(alloc, rows.as_slice())? {
        text.push_str("two rows are one\n")?;
    }
    Ok(text)
}

fn rows_text(alloc: Global, rows: &Rows) -> Result<String, Fail> {
    let mut text = String::new(alloc);
    for account in rows.accounts(alloc)?.as_slice() {
        text.push_str(account_text(alloc, rows, account)?.as_str())?;
    }
    Ok(text)
}

fn is_carried_out(
    rt: &impl Abort,
    alloc: Global,
    map: &mut PrivMap,
    text: &str,
) -> Result<bool, Fail> {
    let entry = entry(rt, alloc, text)?;
    Ok(is_done(alloc, map, &entry))
}

fn answers_of(
    rt: &impl Abort,
    alloc: Global,
    map: &mut PrivMap,
    statements: &str,
) -> Result<String, Fail> {
    let mut answers = String::new(alloc);
    for statement in statements.lines() {
        let is_done = is_carried_out(rt, alloc, map, statement)?;
        answers.push(if is_done { 'd' } else { 'r' })?;
    }
    Ok(answers)
}

// Whether the statements are answered so and leave these rows.
fn are_answered(
    rt: &impl Abort,
    alloc: Global,
    map: &mut PrivMap,
    case: &History,
) -> Result<bool, Fail> {
    let answers = answers_of(rt, alloc, map, case.statements)?;
    let left = rows_text(alloc, map.rows())?;
    Ok(answers.as_str() == case.answers && left.as_str() == case.rows)
}

// The same from the opening on.
fn is_as_told(rt: &impl Abort, alloc: Global, case: &History) -> Result<bool, Fail> {
    let mut map = PrivMap::opening(alloc)?;
    are_answered(rt, alloc, &mut map, case)
}

#[test]
fn statements_leave_their_rows(rt: HostRuntime) -> Result<(), Fail> {
    for case in &HISTORIES {
        assert!(rt; is_as_told(&rt, rt.alloc(), case)?, "{}", case.statements);
    }
    Ok(())
}
