//! Statements of all kinds, and the canonical texts from which they are read back.
use entry_codec::text_of;
use grant_lex::tokens;
use grant_parse::parse;
use grant_refusal::ParseRefusal;
use std::alloc::Global;
use std::process::Abort;
use std::test::Fail;

// A text, and the canonical text of the statement that it is, or how it is refused.
struct Text {
    text: &'static str,
    read: &'static str,
}

#[rattlefmt::skip]
static READ: [Text; 50] = [
    Text { text: "create user u1", read: "CREATE USER `u1`@`%` IDENTIFIED BY VERIFIER 'e3b0c44298fc1c149afbf4c8996fb92427ae41e4649b934ca495991b7852b855'" },
    Text { text: "create user if not exists a@H1 identified by 'x', b account lock failed_login_attempts 007 account unlock", read: "CREATE USER IF NOT EXISTS `a`@`h1` IDENTIFIED BY VERIFIER '2d711642b726b04401627ca9fbac32f5c8530fb1903cc4db02258717921a4881', `b`@`%` IDENTIFIED BY VERIFIER 'e3b0c44298fc1c149afbf4c8996fb92427ae41e4649b934ca495991b7852b855' FAILED_LOGIN_ATTEMPTS 7 ACCOUNT UNLOCK" },
    Text { text: "CREATE USER u FAILED_LOGIN_ATTEMPTS 00003 PASSWORD_LOCK_TIME UNBOUNDED", read: "CREATE USER `u`@`%` IDENTIFIED BY VERIFIER 'e3b0c44298fc1c149afbf4c8996fb92427ae41e4649b934ca495991b7852b855' FAILED_LOGIN_ATTEMPTS 3 PASSWORD_LOCK_TIME UNBOUNDED" },
    // The last of several options counts.
    Text { text: "ALTER USER u ACCOUNT LOCK FAILED_LOGIN_ATTEMPTS 1 ACCOUNT UNLOCK FAILED_LOGIN_ATTEMPTS 2 PASSWORD_LOCK_TIME 5", read: "ALTER USER `u`@`%` FAILED_LOGIN_ATTEMPTS 2 PASSWORD_LOCK_TIME 5 ACCOUNT UNLOCK" },
    Text { text: "alter user a password_lock_time unbounded;", read: "ALTER USER `a`@`%` PASSWORD_LOCK_TIME UNBOUNDED" },
    Text { text: "ALTER USER u, v IDENTIFIED BY VERIFIER 'ba7816bf8f01cfea414140de5dae2223b00361a396177a9cb410ff61f20015ad'", read: "ALTER USER `u`@`%`, `v`@`%` IDENTIFIED BY VERIFIER 'ba7816bf8f01cfea414140de5dae2223b00361a396177a9cb410ff61f20015ad'" },
    Text { text: "drop user if exists a, `b``c`@'192.0.2.0/255.255.255.0'", read: "DROP USER IF EXISTS `a`@`%`, `b``c`@`192.0.2.0/255.255.255.0`" },
    Text { text: "rename user `we``ird`@H1 to `it's\\`", read: "RENAME USER `we``ird`@`h1` TO `it's\\`@`%`" },
    Text { text: "RENAME USER a TO b, ''@h TO c", read: "RENAME USER `a`@`%` TO `b`@`%`, ``@`h` TO `c`@`%`" },
    Text { text: "CREATE ROLE IF NOT EXISTS r1, r2@h", read: "CREATE ROLE IF NOT EXISTS `r1`@`%`, `r2`@`h`" },
    Text { text: "drop role if exists r", read: "DROP ROLE IF EXISTS `r`@`%`" },
    Text { text: "grant r1, event to u with admin option", read: "GRANT `r1`@`%`, `event`@`%` TO `u`@`%` WITH ADMIN OPTION" },
    Text { text: "GRANT r@on TO u", read: "GRANT `r`@`on` TO `u`@`%`" },
    Text { text: "revoke r from u", read: "REVOKE `r`@`%` FROM `u`@`%`" },
    Text { text: "set default role all to u", read: "SET DEFAULT ROLE ALL TO `u`@`%`" },
    Text { text: "SET DEFAULT ROLE NONE TO u", read: "SET DEFAULT ROLE NONE TO `u`@`%`" },
    Text { text: "SET DEFAULT ROLE r1, r2 TO u, v", read: "SET DEFAULT ROLE `r1`@`%`, `r2`@`%` TO `u`@`%`, `v`@`%`" },
    Text { text: "set password for u = 'x'", read: "SET PASSWORD FOR `u`@`%` = VERIFIER '2d711642b726b04401627ca9fbac32f5c8530fb1903cc4db02258717921a4881'" },
    Text { text: "set persist mandatory_roles = 'r1, r3@%.Example.com, `it''s\\\\`'", read: "SET PERSIST mandatory_roles = '`r1`@`%`,`r3`@`%.example.com`,`it''s\\\\`@`%`'" },
    Text { text: "SET PERSIST Activate_All_Roles_On_Login = ON", read: "SET PERSIST activate_all_roles_on_login = ON" },
    Text { text: "set persist activate_all_roles_on_login = off", read: "SET PERSIST activate_all_roles_on_login = OFF" },
    Text { text: "grant insert,select on world.* to 'u1';", read: "GRANT SELECT, INSERT ON `world`.* TO `u1`@`%`" },
    Text { text: "GRANT event TO u1", read: "GRANT `event`@`%` TO `u1`@`%`" },
    Text { text: "GRANT event ON *.* TO u1", read: "GRANT EVENT ON *.* TO `u1`@`%`" },
    Text { text: "GRANT EVENT ON event.* TO event", read: "GRANT EVENT ON `event`.* TO `event`@`%`" },
    Text { text: "GRANT ALL ON s.* TO u1", read: "GRANT ALL ON `s`.* TO `u1`@`%`" },
    Text { text: "GRANT ALL PRIVILEGES ON s.* TO u1 WITH GRANT OPTION", read: "GRANT ALL ON `s`.* TO `u1`@`%` WITH GRANT OPTION" },
    Text { text: "REVOKE ALL, GRANT OPTION FROM u1", read: "REVOKE ALL PRIVILEGES, GRANT OPTION FROM `u1`@`%`" },
    Text { text: "REVOKE ALL PRIVILEGES, GRANT OPTION FROM u, v;", read: "REVOKE ALL PRIVILEGES, GRANT OPTION FROM `u`@`%`, `v`@`%`" },
    Text { text: "REVOKE ALL ON TABLE s.t FROM u1", read: "REVOKE ALL ON `s`.`t` FROM `u1`@`%`" },
    Text { text: "grant create user, Create, CREATE Temporary TABLES, drop, drop role, lock tables on *.* to a@H, `b c` with grant option", read: "GRANT CREATE, DROP, CREATE TEMPORARY TABLES, LOCK TABLES, CREATE USER, DROP ROLE ON *.* TO `a`@`h`, `b c`@`%` WITH GRANT OPTION" },
    Text { text: "GRANT SELECT (b, `a``c`, B), insert, UPDATE(d), USAGE ON TABLE W.`t` TO 'a'@'%'", read: "GRANT SELECT (`b`, `a``c`), INSERT, UPDATE (`d`) ON `W`.`t` TO `a`@`%`" },
    Text { text: "GRANT UPDATE (b), SELECT (Id,name), SELECT, SELECT (NAME,area,ID) ON s.t TO a", read: "GRANT SELECT, SELECT (`id`, `name`, `area`), UPDATE (`b`) ON `s`.`t` TO `a`@`%`" },
    Text { text: "GRANT REFERENCES (x,X,y,x) ON s.t TO a", read: "GRANT REFERENCES (`x`, `y`) ON `s`.`t` TO `a`@`%`" },
    Text { text: "GRANT DELETE, SELECT, Delete ON s.* TO a", read: "GRANT SELECT, DELETE ON `s`.* TO `a`@`%`" },
    Text { text: "GRANT USAGE ON *.* TO a", read: "GRANT USAGE ON *.* TO `a`@`%`" },
    Text { text: "GRANT Binlog_Admin, GRANT OPTION, APPLICATION_PASSWORD_ADMIN, USAGE ON *.* TO a", read: "GRANT APPLICATION_PASSWORD_ADMIN, BINLOG_ADMIN ON *.* TO `a`@`%` WITH GRANT OPTION" },
    Text { text: "GRANT GRANT OPTION, SELECT ON `a\\_b`.* TO u", read: "GRANT SELECT ON `a_b`.* TO `u`@`%` WITH GRANT OPTION" },
    Text { text: "GRANT GRANT OPTION ON s.t TO u", read: "GRANT USAGE ON `s`.`t` TO `u`@`%` WITH GRANT OPTION" },
    Text { text: "GRANT SELECT (A) ON s.t TO u WITH GRANT OPTION", read: "GRANT SELECT (`a`) ON `s`.`t` TO `u`@`%` WITH GRANT OPTION" },
    Text { text: "GRANT ALL ON `a\\_b\\%\\\\c`.* TO a", read: "GRANT ALL ON `a_b%\\\\c`.* TO `a`@`%`" },
    Text { text: "GRANT ALL ON `a_b%`.* TO a", read: "GRANT ALL ON `a_b%`.* TO `a`@`%`" },
    Text { text: "GRANT SELECT ON `a\\\\%_b\\`.* TO a", read: "GRANT SELECT ON `a\\\\%_b\\`.* TO `a`@`%`" },
    Text { text: "GRANT ALL PRIVILEGES ON `a\\_b`.`c\\_d` TO a", read: "GRANT ALL ON `a\\_b`.`c\\_d` TO `a`@`%`" },
    Text { text: "revoke grant option, select (b, a), select on table s.t from u", read: "REVOKE SELECT, SELECT (`b`, `a`), GRANT OPTION ON `s`.`t` FROM `u`@`%`" },
    Text { text: "REVOKE EXECUTE, ALTER ROUTINE ON FUNCTION w.F FROM a", read: "REVOKE EXECUTE, ALTER ROUTINE ON FUNCTION `w`.`f` FROM `a`@`%`" },
    Text { text: "REVOKE ALL ON PROCEDURE W.`P` FROM a, b@`10.0.0.0/8`", read: "REVOKE ALL ON PROCEDURE `W`.`p` FROM `a`@`%`, `b`@`10.0.0.0/8`" },
    Text { text: "REVOKE USAGE ON `\\_`.* FROM a", read: "REVOKE USAGE ON `_`.* FROM `a`@`%`" },
    Text { text: "GRANT SHOW DATABASES, SHOW VIEW, REPLICATION SLAVE, REPLICATION CLIENT ON *.* TO a", read: "GRANT SHOW DATABASES, REPLICATION SLAVE, REPLICATION CLIENT, SHOW VIEW ON *.* TO `a`@`%`" },
    Text { text: "GRANT EVENT ON `abcdefghijklmnopqrstuvwxyzabcdefghijklmnopqrstuvwxyzabcdefghijk\\%`.* TO a", read: "GRANT EVENT ON `abcdefghijklmnopqrstuvwxyzabcdefghijklmnopqrstuvwxyzabcdefghijk%`.* TO `a`@`%`" },
];

#[rattlefmt::skip]
static REFUSED: [Text; 66] = [
    Text { text: "CREATE USER u FAILED_LOGIN_ATTEMPTS 32768", read: "syntax at 36" },
    Text { text: "CREATE USER u FAILED_LOGIN_ATTEMPTS 000003", read: "syntax at 36" },
    Text { text: "CREATE USER u ACCOUNT", read: "syntax at 21" },
    Text { text: "CREATE USER IF EXISTS u", read: "syntax at 15" },
    Text { text: "CREATE USER u IDENTIFIED BY VERIFIER 'ab'", read: "syntax at 37" },
    Text { text: "CREATE USER u IDENTIFIED BY x", read: "syntax at 28" },
    Text { text: "CREATE USER 'u'@'198.51.100.0/255.0.255.0'", read: "syntax at 16" },
    Text { text: "CREATE x", read: "syntax at 7" },
    Text { text: "ALTER USER u IDENTIFIED BY VERIFIER 'BA7816bf8f01cfea414140de5dae2223b00361a396177a9cb410ff61f20015ad'", read: "syntax at 36" },
    Text { text: "ALTER ROLE u", read: "syntax at 6" },
    Text { text: "DROP USER", read: "syntax at 9" },
    Text { text: "DROP USER u;;", read: "syntax at 12" },
    Text { text: "DROP USER `u", read: "syntax at 10" },
    Text { text: "RENAME USER a TO ''", read: "syntax at 17" },
    Text { text: "RENAME USER a b", read: "syntax at 14" },
    Text { text: "DROP ROLE ''", read: "syntax at 10" },
    Text { text: "GRANT r1 TO u1 WITH GRANT OPTION", read: "syntax at 20" },
    Text { text: "GRANT r@h ON s.t TO u", read: "syntax at 10" },
    Text { text: "GRANT a, b c ON", read: "syntax at 11" },
    Text { text: "REVOKE r TO u", read: "syntax at 9" },
    Text { text: "SET DEFAULT r1 TO u", read: "syntax at 12" },
    Text { text: "SET PASSWORD FOR u = VERIFIER 'x'", read: "syntax at 30" },
    Text { text: "SET PERSIST mandatory_roles = 'r1,'", read: "syntax at 30" },
    Text { text: "SET PERSIST activate_all_roles_on_login = YES", read: "syntax at 42" },
    Text { text: "REVOKE ALL GRANT OPTION FROM u", read: "syntax at 11" },
    Text { text: "REVOKE ALL, SELECT ON s.* FROM u", read: "syntax at 12" },
    Text { text: "GRANT EVENT ON `abcdefghijklmnopqrstuvwxyzabcdefghijklmnopqrstuvwxyzabcdefghijk\\%`.t TO a", read: "syntax at 83" },
    Text { text: "GRANT EVENT ON `abcdefghijklmnopqrstuvwxyzabcdefghijklmnopqrstuvwxyzabcdefghijklm`.* TO a", read: "syntax at 15" },
    // The first privilege of the text that the level of the target lacks.
    Text { text: "GRANT FILE ON s.* TO u1", read: "wrong level FILE" },
    Text { text: "GRANT SELECT, FILE, RELOAD ON TABLE s.t TO u1", read: "wrong level FILE" },
    Text { text: "GRANT FILE, AUDIT_ADMIN ON s.t TO u1", read: "wrong level FILE" },
    Text { text: "GRANT AUDIT_ADMIN, FILE ON s.t TO u1", read: "wrong level AUDIT_ADMIN" },
    Text { text: "GRANT SELECT (a) ON *.* TO u1", read: "wrong level SELECT" },
    Text { text: "GRANT DELETE (a) ON s.t TO u1", read: "wrong level DELETE" },
    Text { text: "GRANT EXECUTE, SELECT ON PROCEDURE s.p TO u1", read: "wrong level SELECT" },
    Text { text: "REVOKE FILE ON FUNCTION s.f FROM u1", read: "wrong level FILE" },
    // The spelling comes before the levels.
    Text { text: "GRANT FILE ON s.* TO", read: "syntax at 20" },
    Text { text: "", read: "syntax at 0" },
    Text { text: "SELECT ON *.*", read: "syntax at 0" },
    Text { text: "USE `d", read: "syntax at 4" },
    Text { text: "GRANT", read: "syntax at 5" },
    Text { text: "GRANT GRANT #", read: "syntax at 12" },
    Text { text: "GRANT SELECT", read: "syntax at 12" },
    Text { text: "GRANT SELECT ON TO u1", read: "syntax at 16" },
    Text { text: "GRANT SELECT, ON *.* TO a", read: "syntax at 14" },
    Text { text: "GRANT ROLE_ADMIN (a) ON *.* TO a", read: "syntax at 17" },
    Text { text: "GRANT USAGE (a) ON *.* TO a", read: "syntax at 12" },
    Text { text: "GRANT GRANT OPTION (a) ON *.* TO a", read: "syntax at 19" },
    Text { text: "GRANT SELECT () ON w.t TO a", read: "syntax at 14" },
    Text { text: "GRANT SELECT (a,) ON w.t TO a", read: "syntax at 16" },
    Text { text: "GRANT SELECT ('a') ON w.t TO a", read: "syntax at 14" },
    Text { text: "GRANT SHOW ON *.* TO a", read: "syntax at 11" },
    Text { text: "GRANT CREATE TEMPORARY ON s.* TO u1", read: "syntax at 23" },
    Text { text: "GRANT CREATE USER TABLES ON *.* TO a", read: "syntax at 18" },
    Text { text: "GRANT ALL, SELECT ON *.* TO a", read: "syntax at 9" },
    Text { text: "GRANT SELECT, ALL ON *.* TO a", read: "syntax at 14" },
    Text { text: "GRANT SELECT ON w TO a", read: "syntax at 18" },
    Text { text: "GRANT SELECT ON *.t TO a", read: "syntax at 18" },
    Text { text: "GRANT SELECT ON TABLE w.* TO a", read: "syntax at 24" },
    Text { text: "GRANT SELECT ON 'w'.* TO a", read: "syntax at 16" },
    Text { text: "GRANT SELECT ON *.* TO", read: "syntax at 22" },
    Text { text: "GRANT SELECT ON *.* TO a WITH ADMIN OPTION", read: "syntax at 30" },
    Text { text: "REVOKE SELECT ON *.* TO a", read: "syntax at 21" },
    Text { text: "REVOKE SELECT ON *.* FROM a WITH GRANT OPTION", read: "syntax at 28" },
    Text { text: "GRANT r ON", read: "syntax at 8" },
    Text { text: "GRANT SELECT ON s.t TO to", read: "syntax at 23" },
];

// The canonical text of the statement.
fn written(alloc: Global, text: &str) -> Result<String, Fail> {
    let statement = parse(alloc, text, 1000)?;
    Ok(text_of(alloc, &statement)?)
}

// Whether both texts are one statement.
fn are_one(alloc: Global, text: &str, other: &str) -> Result<bool, Fail> {
    let statement = parse(alloc, text, 1000)?;
    let again = parse(alloc, other, 1000)?;
    Ok(statement == again)
}

// Whether a copy of the statement is the same.
fn is_copied(alloc: Global, text: &str) -> Result<bool, Fail> {
    let statement = parse(alloc, text, 1000)?;
    let copy = statement.copy(alloc)?;
    Ok(copy == statement)
}

#[test]
fn statements_are_read_back(rt: HostRuntime) -> Result<(), Fail> {
    for case in &READ {
        let written = written(rt.alloc(), case.text)?;
        assert_eq!(rt; written.as_str(), case.read, "{}", case.text);
        assert!(rt; are_one(rt.alloc(), case.text, case.read)?, "{}", case.text);
        assert!(rt; is_copied(rt.alloc(), case.text)?, "{}", case.text);
    }
    Ok(())
}

pub(crate) fn refusal_text(alloc: Global, refusal: ParseRefusal) -> Result<String, Fail> {
    Ok(match refusal {
        ParseRefusal::Limit => String::from_str(alloc, "too long")?,
        ParseRefusal::Syntax { offset } => format!(in alloc; "syntax at {offset}")?,
        ParseRefusal::WrongLevel { privilege } => format!(in alloc; "wrong level {privilege}")?,
        ParseRefusal::NoMemory => String::from_str(alloc, "no memory")?,
    })
}

fn refusal_of(alloc: Global, text: &str) -> Result<String, Fail> {
    match parse(alloc, text, 1000).err() {
        None => Ok(String::from_str(alloc, "a statement")?),
        Some(refusal) => refusal_text(alloc, refusal),
    }
}

#[test]
fn other_texts_have_their_refusal(rt: HostRuntime) -> Result<(), Fail> {
    for case in &REFUSED {
        let refusal = refusal_of(rt.alloc(), case.text)?;
        assert_eq!(rt; refusal.as_str(), case.read, "{}", case.text);
    }
    Ok(())
}

#[test]
fn longer_texts_are_refused(rt: HostRuntime) -> Result<(), Fail> {
    assert!(rt; parse(rt.alloc(), "DROP USER u", 11).is_ok());
    let refusal = parse(rt.alloc(), "DROP USER `u", 11).err();
    assert_eq!(rt; refusal, Some(ParseRefusal::Limit));
    Ok(())
}

// A statement of each kind, and how many of its fronts of whole tokens, without the last, are statements too.
struct Fronts {
    text: &'static str,
    whole: u32,
}

#[rattlefmt::skip]
static FRONTS: [Fronts; 15] = [
    Fronts { text: "CREATE USER IF NOT EXISTS a@h IDENTIFIED BY 'x', b ACCOUNT LOCK;", whole: 5 },
    Fronts { text: "ALTER USER a, b FAILED_LOGIN_ATTEMPTS 3;", whole: 3 },
    Fronts { text: "DROP USER IF EXISTS a;", whole: 1 },
    Fronts { text: "RENAME USER a TO b;", whole: 1 },
    Fronts { text: "CREATE ROLE r;", whole: 1 },
    Fronts { text: "DROP ROLE r;", whole: 1 },
    Fronts { text: "GRANT SELECT (a), DELETE ON s.t TO u WITH GRANT OPTION;", whole: 2 },
    Fronts { text: "GRANT r TO u WITH ADMIN OPTION;", whole: 2 },
    Fronts { text: "REVOKE EXECUTE ON FUNCTION s.f FROM u;", whole: 1 },
    Fronts { text: "REVOKE ALL PRIVILEGES, GRANT OPTION FROM u;", whole: 1 },
    Fronts { text: "REVOKE r FROM u;", whole: 1 },
    Fronts { text: "SET DEFAULT ROLE ALL TO u;", whole: 1 },
    Fronts { text: "SET PASSWORD FOR u = 'x';", whole: 1 },
    Fronts { text: "SET PERSIST mandatory_roles = 'r';", whole: 1 },
    Fronts { text: "SET PERSIST activate_all_roles_on_login = OFF;", whole: 1 },
];

// How many fronts are statements; None where one is refused elsewhere than at its end.
fn count(rt: &impl Abort, alloc: Global, text: &str) -> Result<Option<u32>, Fail> {
    assert!(rt; text.len() < 1000);
    let mut whole: u32 = 0;
    for token in tokens(alloc, text)?.as_slice() {
        let Some(front) = text.get(..token.from as usize) else {
            return Ok(None);
        };
        match parse(alloc, front, 100) {
            Ok(_) => whole = whole.saturating_add(1),
            Err(ParseRefusal::Syntax { offset }) if offset == token.from => {}
            Err(_) => return Ok(None),
        }
    }
    Ok(Some(whole))
}

#[test]
fn fronts_of_statements_are_refused_at_their_end(rt: HostRuntime) -> Result<(), Fail> {
    for case in &FRONTS {
        assert!(rt; parse(rt.alloc(), case.text, 100).is_ok(), "{}", case.text);
        let whole = count(&rt, rt.alloc(), case.text)?;
        assert_eq!(rt; whole, Some(case.whole), "{}", case.text);
    }
    Ok(())
}
