//! Scripts that are made from a number.
use made_scripts::made_script;
use std::test::Fail;

struct Case {
    number: u64,
    sessions: u64,
    lines: u64,
    script: &'static str,
}

static CASES: [Case; 3] = [
    Case {
        number: 0,
        sessions: 3,
        lines: 8,
        script: "s0> CONNECT root FROM LOCAL
s1> CONNECT root FROM LOCAL
s2> CONNECT root FROM LOCAL
s2> CREATE USER IF NOT EXISTS u137
s1> REVOKE DELETE ON d4.* FROM r25
s0> GRANT r3 TO u82
s0> REVOKE SELECT ON d2.* FROM r45
s0> GRANT r33 TO u134
s2> CHECK UPDATE ON d13.t
s0> CREATE ROLE IF NOT EXISTS r1
s2> USE d17
",
    },
    Case {
        number: 1,
        sessions: 2,
        lines: 12,
        script: "s0> CONNECT root FROM LOCAL
s1> CONNECT root FROM LOCAL
s0> CREATE ROLE IF NOT EXISTS r46
s0> GRANT DELETE ON d10.* TO u102
s1> GRANT DELETE ON d2.* TO u52
s0> GRANT SELECT ON d10.* TO u95
s0> REVOKE DELETE ON d17.* FROM r26
s0> REVOKE SELECT ON d4.* FROM r22
s1> CREATE USER IF NOT EXISTS u7
s0> GRANT INSERT ON *.* TO r44
s0> GRANT UPDATE ON d16.* TO u189
s1> GRANT UPDATE ON *.* TO r30
s1> USE d8
s1> CHECK UPDATE ON d2.t
",
    },
    Case {
        number: u64::MAX,
        sessions: 4,
        lines: 6,
        script: "s0> CONNECT root FROM LOCAL
s1> CONNECT root FROM LOCAL
s2> CONNECT root FROM LOCAL
s3> CONNECT root FROM LOCAL
s0> CHECK INSERT ON d2.t
s0> GRANT r35 TO u47
s0> GRANT DELETE ON *.* TO r12
s0> GRANT UPDATE ON d0.* TO u1
s0> GRANT UPDATE ON d1.* TO u180
s1> GRANT r7 TO u37
",
    },
];

#[test]
fn a_number_makes_its_script(rt: HostRuntime) -> Result<(), Fail> {
    for case in &CASES {
        let sessions = case.sessions.max(1);
        let script = made_script(rt.alloc(), case.number, sessions, case.lines)?;
        assert_eq!(rt; script.as_bytes(), case.script.as_bytes());
    }
    Ok(())
}
