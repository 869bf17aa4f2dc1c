//! Lists of mandatory roles, lists of accounts in statements, and reserved words.
use acl_grammar::{Found, Refusal};
use acl_items::Items;
use acl_names::AuthId;
use grant_lex::{is_reserved, tokens};
use grant_words::{Lexeme, accounts, lexemes, roles};
use mandatory_roles::read_roles;
use std::alloc::Global;
use std::process::Abort;
use std::test::Fail;

// A text, and the accounts that it lists.
struct Listed {
    text: &'static str,
    read: &'static str,
}

#[rattlefmt::skip]
static MANDATORY: [Listed; 37] = [
    Listed { text: "", read: "" },
    Listed { text: "r1", read: "r1@% " },
    Listed { text: " r1\t,\tr2 ", read: "r1@% r2@% " },
    Listed { text: "r1,R1,r1", read: "r1@% R1@% r1@% " },
    Listed { text: "r3@%.Example.com", read: "r3@%.example.com " },
    Listed { text: "r1,r3 @ \t H1 , r4", read: "r1@% r3@h1 r4@% " },
    Listed { text: "`we``ird`@`%`,`a b`@``", read: "we`ird@% a b@ " },
    Listed { text: "`select`@`H,1`", read: "select@h,1 " },
    Listed { text: "r@a'b\"c`;d@e", read: "r@a'b\"c`;d@e " },
    Listed { text: "r@select", read: "r@select " },
    Listed { text: "r@10.0.0.0/8", read: "r@10.0.0.0/8 " },
    Listed { text: "\u{e9}$_9@\u{c9}", read: "\u{e9}$_9@\u{c9} " },
    Listed { text: "`'\"\\`", read: "'\"\\@% " },
    Listed { text: " ", read: "none" },
    Listed { text: "\t \t", read: "none" },
    Listed { text: ",", read: "none" },
    Listed { text: "r1,", read: "none" },
    Listed { text: ",r1", read: "none" },
    Listed { text: "r1 r2", read: "none" },
    Listed { text: "r1,,r2", read: "none" },
    Listed { text: "select", read: "none" },
    Listed { text: "to@h", read: "none" },
    Listed { text: "``", read: "none" },
    Listed { text: "``@h", read: "none" },
    Listed { text: "'r1'", read: "none" },
    Listed { text: "\"r1\"", read: "none" },
    Listed { text: "r@'h'", read: "none" },
    Listed { text: "r@\"h\"", read: "none" },
    Listed { text: "r@", read: "none" },
    Listed { text: "r@ ", read: "none" },
    Listed { text: "r@,s", read: "none" },
    Listed { text: "r1@h@i j", read: "none" },
    Listed { text: "r1;", read: "none" },
    Listed { text: "`r1", read: "none" },
    Listed { text: "`r`s", read: "none" },
    Listed { text: "r@10.0.0.0/33", read: "none" },
    Listed { text: "r@\n", read: "none" },
];

fn listing(alloc: Global, accounts: &[AuthId]) -> Result<String, Fail> {
    let mut text = String::new(alloc);
    for account in accounts {
        text.push_str(account.user.as_str())?;
        text.push('@')?;
        text.push_str(account.host.as_str())?;
        text.push(' ')?;
    }
    Ok(text)
}

fn mandatory(alloc: Global, text: &str) -> Result<String, Fail> {
    match read_roles(alloc, text)? {
        Some(roles) => listing(alloc, roles.as_slice()),
        None => Ok(String::from_str(alloc, "none")?),
    }
}

#[test]
fn reads_lists_of_mandatory_roles(rt: HostRuntime) -> Result<(), Fail> {
    for case in &MANDATORY {
        let read = mandatory(rt.alloc(), case.text)?;
        assert_eq!(rt; read.as_str(), case.read, "at {:?}", case.text);
    }
    Ok(())
}

// A piece that is repeated, what stands behind it, and how many roles are read.
struct Repeated {
    piece: &'static str,
    times: usize,
    end: &'static str,
    count: usize,
}

#[rattlefmt::skip]
static LIMITS: [Repeated; 5] = [
    Repeated { piece: "\u{1f600}", times: 32, end: "", count: 1 },
    Repeated { piece: "\u{1f600}", times: 33, end: "", count: 0 },
    Repeated { piece: "a", times: 129, end: "", count: 0 },
    Repeated { piece: "r,", times: 4_095, end: "r", count: 4_096 },
    Repeated { piece: "r,", times: 4_096, end: "r", count: 0 },
];

#[test]
fn keeps_the_limits_of_names_and_lists(rt: HostRuntime) -> Result<(), Fail> {
    let alloc = rt.alloc();
    for case in &LIMITS {
        let text = case.piece.repeat(alloc, case.times)?;
        let text = format!(in alloc; "{text}{}", case.end)?;
        let found = read_roles(alloc, text.as_str())?.map_or(0, |roles| roles.len());
        assert_eq!(rt; found, case.count, "at {} {} times", case.piece, case.times);
    }
    Ok(())
}

// A text in a statement, and what it is as accounts and as roles, with how many tokens are left, or where it is refused.
struct Named {
    text: &'static str,
    accounts: &'static str,
    roles: &'static str,
}

#[rattlefmt::skip]
static NAMED: [Named; 14] = [
    Named { text: "u1", accounts: "u1@% 0", roles: "u1@% 0" },
    Named { text: "'u 1'@LocalHost", accounts: "u 1@localhost 0", roles: "u 1@localhost 0" },
    Named { text: "`a``b`@`h`, c", accounts: "a`b@h c@% 0", roles: "a`b@h c@% 0" },
    Named { text: "user @ on , event", accounts: "user@on event@% 0", roles: "user@on event@% 0" },
    Named { text: "u@'10.0.0.0/8' x", accounts: "u@10.0.0.0/8 1", roles: "u@10.0.0.0/8 1" },
    Named { text: "''@''", accounts: "@ 0", roles: "refused 3" },
    Named { text: "``", accounts: "@% 0", roles: "refused 1" },
    Named { text: "u@'10.0.0.0/33'", accounts: "refused 1", roles: "refused 1" },
    Named { text: "u@.", accounts: "refused 1", roles: "refused 1" },
    Named { text: "u, to", accounts: "refused 1", roles: "refused 1" },
    Named { text: "Select", accounts: "refused 1", roles: "refused 1" },
    Named { text: "a,,b", accounts: "refused 2", roles: "refused 2" },
    Named { text: "a b", accounts: "a@% 1", roles: "a@% 1" },
    Named { text: "", accounts: "refused 0", roles: "refused 0" },
];

fn found_text(
    alloc: Global,
    found: Result<Found<'_, Lexeme, Items<AuthId>>, Refusal<'_, Lexeme>>,
) -> Result<String, Fail> {
    match found {
        Ok(found) => {
            let listed = listing(alloc, found.value.as_slice())?;
            Ok(format!(in alloc; "{listed}{}", found.rest.len())?)
        }
        Err(Refusal::At(rest)) => Ok(format!(in alloc; "refused {}", rest.len())?),
        Err(Refusal::NoMemory) => Ok(String::from_str(alloc, "no memory")?),
    }
}

#[test]
fn accounts_and_roles_are_read_or_refused(rt: HostRuntime) -> Result<(), Fail> {
    let alloc = rt.alloc();
    for case in &NAMED {
        assert!(rt; case.text.len() < 1000);
        let cut = tokens(alloc, case.text)?;
        let lexemes = lexemes(alloc, case.text, cut.as_slice())?;
        let read = found_text(alloc, accounts(alloc, lexemes.as_slice()))?;
        assert_eq!(rt; read.as_str(), case.accounts, "{}", case.text);
        let read = found_text(alloc, roles(alloc, lexemes.as_slice()))?;
        assert_eq!(rt; read.as_str(), case.roles, "{}", case.text);
    }
    Ok(())
}

#[rattlefmt::skip]
static RESERVED: [(&str, bool); 10] = [
    ("ALL", true),
    ("with", true),
    ("pRoCeDuRe", true),
    ("", false),
    ("user", false),
    ("persist", false),
    ("t", false),
    ("tos", false),
    ("t\u{f6}", false),
    ("option", false),
];

#[test]
fn tells_reserved_words_in_any_case(rt: HostRuntime) {
    for (word, reserved) in &RESERVED {
        assert_eq!(rt; is_reserved(word), *reserved, "at {word:?}");
    }
}
