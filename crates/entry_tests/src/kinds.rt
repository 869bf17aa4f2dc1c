//! Entries of statements of each kind, with no limits.
use crate::answers::{Answer, read_as};
use crate::spelling::{front, put_long};
use std::alloc::{AllocError, Global};
use std::process::Abort;
use std::test::Fail;

struct Kind {
    text: &'static str,
    read: Answer,
}

#[rattlefmt::skip]
static KINDS: [Kind; 26] = [
    Kind { text: "CREATE USER `u1`@`%` IDENTIFIED BY VERIFIER 'e3b0c44298fc1c149afbf4c8996fb92427ae41e4649b934ca495991b7852b855'", read: Answer::Entry },
    Kind { text: "ALTER USER `u`@`%` FAILED_LOGIN_ATTEMPTS 2 PASSWORD_LOCK_TIME 5 ACCOUNT UNLOCK", read: Answer::Entry },
    Kind { text: "DROP USER IF EXISTS `a`@`%`, `b``c`@`192.0.2.0/255.255.255.0`", read: Answer::Entry },
    Kind { text: "RENAME USER `a`@`%` TO `b`@`%`, ``@`h` TO `c`@`%`", read: Answer::Entry },
    Kind { text: "CREATE ROLE IF NOT EXISTS `r1`@`%`, `r2`@`h`", read: Answer::Entry },
    Kind { text: "DROP ROLE IF EXISTS `r`@`%`", read: Answer::Entry },
    Kind { text: "GRANT SELECT (`b`, `a``c`), INSERT, UPDATE (`d`) ON `W`.`t` TO `a`@`%`", read: Answer::Entry },
    Kind { text: "GRANT APPLICATION_PASSWORD_ADMIN, BINLOG_ADMIN ON *.* TO `a`@`%` WITH GRANT OPTION", read: Answer::Entry },
    Kind { text: "GRANT `r1`@`%`, `event`@`%` TO `u`@`%` WITH ADMIN OPTION", read: Answer::Entry },
    Kind { text: "REVOKE EXECUTE, ALTER ROUTINE ON FUNCTION `w`.`f` FROM `a`@`%`", read: Answer::Entry },
    Kind { text: "REVOKE ALL PRIVILEGES, GRANT OPTION FROM `u`@`%`, `v`@`%`", read: Answer::Entry },
    Kind { text: "REVOKE `r`@`%` FROM `u`@`%`", read: Answer::Entry },
    Kind { text: "SET DEFAULT ROLE `r1`@`%`, `r2`@`%` TO `u`@`%`, `v`@`%`", read: Answer::Entry },
    Kind { text: "SET PASSWORD FOR `u`@`%` = VERIFIER '2d711642b726b04401627ca9fbac32f5c8530fb1903cc4db02258717921a4881'", read: Answer::Entry },
    Kind { text: "SET PERSIST mandatory_roles = '`r1`@`%`,`r3`@`%.example.com`,`it''s\\\\`@`%`'", read: Answer::Entry },
    Kind { text: "SET PERSIST activate_all_roles_on_login = ON", read: Answer::Entry },
    // No account is named.
    Kind { text: "SET PASSWORD = VERIFIER '2d711642b726b04401627ca9fbac32f5c8530fb1903cc4db02258717921a4881'", read: Answer::Bad(18) },
    // Read, but spelled otherwise: in other case or spacing, with options out of order, shorter, or with an end.
    Kind { text: "SET PERSIST activate_all_roles_on_login = on", read: Answer::Bad(18) },
    Kind { text: "DROP ROLE  `r`@`%`", read: Answer::Bad(18) },
    Kind { text: "DROP ROLE `r`", read: Answer::Bad(18) },
    Kind { text: "DROP ROLE `r`@`%`;", read: Answer::Bad(18) },
    Kind { text: "GRANT INSERT, SELECT ON *.* TO `a`@`%`", read: Answer::Bad(18) },
    Kind { text: "ALTER USER `u`@`%` ACCOUNT UNLOCK FAILED_LOGIN_ATTEMPTS 2", read: Answer::Bad(18) },
    // Not read at all.
    Kind { text: "", read: Answer::Bad(18) },
    Kind { text: "GRANT FILE ON `s`.* TO `a`@`%`", read: Answer::Bad(18) },
    Kind { text: "DROP ROLE `r`@`%", read: Answer::Bad(18) },
];

fn entry_of(alloc: Global, text: &str) -> Result<Vec<u8>, AllocError> {
    let mut bytes = front(alloc, 0)?;
    put_long(&mut bytes, text)?;
    Ok(bytes)
}

#[test]
fn statements_of_each_kind_are_read_back(rt: HostRuntime) -> Result<(), Fail> {
    for kind in &KINDS {
        let bytes = entry_of(rt.alloc(), kind.text)?;
        assert_eq!(rt;
            read_as(rt.alloc(), bytes.as_slice()),
            kind.read,
            "{}",
            kind.text
        );
    }
    Ok(())
}
