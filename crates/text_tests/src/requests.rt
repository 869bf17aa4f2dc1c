//! Requests, and how they are refused.
use crate::statements::refusal_text;
use acl_items::Items;
use acl_names::{AuthId, HostText, UserName};
use acl_stmt::{Request, Statement};
use entry_codec::text_of;
use grant_parse::parse_request;
use grant_refusal::ParseRefusal;
use std::alloc::Global;
use std::process::Abort;
use std::test::Fail;

// A text, and the grant of what is requested, or how it is refused.
struct Asked {
    text: &'static str,
    read: &'static str,
}

#[rattlefmt::skip]
static REQUESTS: [Asked; 16] = [
    Asked { text: "SELECT ON w.*", read: "GRANT SELECT ON `w`.* TO `u`@`%`" },
    Asked { text: "SELECT (a, b), GRANT OPTION, USAGE ON s.t", read: "GRANT SELECT (`a`, `b`), GRANT OPTION ON `s`.`t` TO `u`@`%`" },
    // The name of a schema has no escapes here.
    Asked { text: "select (`a`, b), Create View, xa_recover_admin, drop ON `a\\_b`.t", read: "wrong level XA_RECOVER_ADMIN" },
    Asked { text: "Create View, drop ON `a\\_b`.*", read: "GRANT DROP, CREATE VIEW ON `a\\\\_b`.* TO `u`@`%`" },
    Asked { text: "ALL ON *.*", read: "GRANT ALL ON *.* TO `u`@`%`" },
    Asked { text: "ALL ON table w.t", read: "GRANT ALL ON `w`.`t` TO `u`@`%`" },
    Asked { text: "GRANT OPTION, ROLE_ADMIN ON *.*", read: "GRANT GRANT OPTION, ROLE_ADMIN ON *.* TO `u`@`%`" },
    Asked { text: "EXECUTE ON FUNCTION s.F", read: "GRANT EXECUTE ON FUNCTION `s`.`f` TO `u`@`%`" },
    Asked { text: "FILE ON s.t", read: "wrong level FILE" },
    Asked { text: "SELECT, FILE, RELOAD ON s.*", read: "wrong level FILE" },
    Asked { text: "EVENT ON `abcdefghijklmnopqrstuvwxyzabcdefghijklmnopqrstuvwxyzabcdefghijk\\%`.*", read: "syntax at 9" },
    Asked { text: "SELECT ON *.* TO a", read: "syntax at 14" },
    Asked { text: "SELECT", read: "syntax at 6" },
    Asked { text: "SELECT ON s.t;", read: "syntax at 13" },
    Asked { text: "SELECT s.t", read: "syntax at 7" },
    Asked { text: "", read: "syntax at 0" },
];

fn account(alloc: Global) -> Result<AuthId, Fail> {
    let user = UserName::read(alloc, "u")?;
    let host = HostText::read(alloc, "%")?;
    Ok(AuthId { user, host })
}

// The grant of what is requested.
fn grant_of(alloc: Global, request: Request) -> Result<Statement, Fail> {
    let mut accounts = Items::new(alloc);
    accounts.push(account(alloc)?)?;
    Ok(Statement::Grant {
        privileges: request.privileges,
        target: request.target,
        accounts,
        with_grant_option: false,
    })
}

fn granted(alloc: Global, request: &Request) -> Result<String, Fail> {
    let statement = grant_of(alloc, request.copy(alloc)?)?;
    Ok(text_of(alloc, &statement)?)
}

fn reading(alloc: Global, text: &str) -> Result<String, Fail> {
    match parse_request(alloc, text, 1000) {
        Ok(request) => granted(alloc, &request),
        Err(refusal) => refusal_text(alloc, refusal),
    }
}

#[test]
fn texts_are_requests_or_have_their_refusal(rt: HostRuntime) -> Result<(), Fail> {
    for case in &REQUESTS {
        let read = reading(rt.alloc(), case.text)?;
        assert_eq!(rt; read.as_str(), case.read, "{}", case.text);
    }
    let refusal = parse_request(rt.alloc(), "SELECT ON `", 10).err();
    assert_eq!(rt; refusal, Some(ParseRefusal::Limit));
    Ok(())
}
