//! Names of users, hosts and objects, and accounts.
use acl_items::Copied;
use acl_names::{AuthId, HostText, Ident, NameRefusal, UserName};
use indexmap::IndexMap;
use std::alloc::Global;
use std::cmp::Ordering;
use std::process::Abort;
use std::test::Fail;

// A piece that is repeated, the same in lower case, and how the text is refused as a user, as a host and as an
// identifier; `read` where it is not.
struct Text {
    piece: &'static str,
    lower: &'static str,
    times: usize,
    user: &'static str,
    host: &'static str,
    ident: &'static str,
}

#[rattlefmt::skip]
static TEXTS: [Text; 13] = [
    Text { piece: "", lower: "", times: 1, user: "read", host: "read", ident: "empty" },
    Text { piece: "H1.Example.NET", lower: "h1.example.net", times: 1, user: "read", host: "read", ident: "read" },
    Text { piece: "Order Line", lower: "order line", times: 1, user: "read", host: "read", ident: "read" },
    Text { piece: "\u{c4}", lower: "\u{c4}", times: 1, user: "read", host: "read", ident: "read" },
    Text { piece: "\u{20ac}", lower: "\u{20ac}", times: 32, user: "read", host: "read", ident: "read" },
    Text { piece: "\u{20ac}", lower: "\u{20ac}", times: 33, user: "longer than 32", host: "read", ident: "read" },
    Text { piece: "\u{c4}", lower: "\u{c4}", times: 64, user: "longer than 32", host: "read", ident: "read" },
    Text { piece: "\u{1f600}", lower: "\u{1f600}", times: 65, user: "longer than 32", host: "read", ident: "longer than 64" },
    Text { piece: "\u{1f600}", lower: "\u{1f600}", times: 255, user: "longer than 32", host: "read", ident: "longer than 64" },
    Text { piece: "\u{1f600}", lower: "", times: 256, user: "longer than 32", host: "longer than 255", ident: "longer than 64" },
    Text { piece: "\u{e4}\u{7f}\u{1f}", lower: "", times: 100, user: "bad byte at 2", host: "bad byte at 2", ident: "bad byte at 2" },
    Text { piece: "a\u{1f}", lower: "", times: 65, user: "bad byte at 1", host: "bad byte at 1", ident: "bad byte at 1" },
    Text { piece: "a\u{7f}", lower: "", times: 1, user: "bad byte at 1", host: "bad byte at 1", ident: "bad byte at 1" },
];

fn refusal_text(alloc: Global, refusal: NameRefusal) -> Result<String, Fail> {
    Ok(match refusal {
        NameRefusal::Empty => String::from_str(alloc, "empty")?,
        NameRefusal::BadByte { offset } => format!(in alloc; "bad byte at {offset}")?,
        NameRefusal::TooLong { limit } => format!(in alloc; "longer than {limit}")?,
        NameRefusal::NoMemory => String::from_str(alloc, "no memory")?,
    })
}

// Whether a name is the wanted one.
fn likeness(alloc: Global, name: &str, wanted: &str) -> Result<String, Fail> {
    if name == wanted {
        Ok(String::from_str(alloc, "read")?)
    } else {
        Ok(format!(in alloc; "read as {name}")?)
    }
}

fn user_reading(rt: &impl Abort, alloc: Global, text: &str) -> Result<String, Fail> {
    assert!(rt; text.len() < 10_000);
    match UserName::read(alloc, text) {
        Ok(name) => likeness(alloc, name.as_str(), text),
        Err(refusal) => refusal_text(alloc, refusal),
    }
}

fn host_reading(rt: &impl Abort, alloc: Global, text: &str, lower: &str) -> Result<String, Fail> {
    assert!(rt; text.len() < 10_000);
    match HostText::read(alloc, text) {
        Ok(name) => likeness(alloc, name.as_str(), lower),
        Err(refusal) => refusal_text(alloc, refusal),
    }
}

fn ident_reading(rt: &impl Abort, alloc: Global, text: &str) -> Result<String, Fail> {
    assert!(rt; text.len() < 10_000);
    match Ident::read(alloc, text) {
        Ok(name) => likeness(alloc, name.as_str(), text),
        Err(refusal) => refusal_text(alloc, refusal),
    }
}

fn lower_reading(rt: &impl Abort, alloc: Global, text: &str, lower: &str) -> Result<String, Fail> {
    assert!(rt; text.len() < 10_000);
    match Ident::read_lower(alloc, text) {
        Ok(name) => likeness(alloc, name.copied(alloc)?.as_str(), lower),
        Err(refusal) => refusal_text(alloc, refusal),
    }
}

#[test]
fn names_are_read_within_their_rules(rt: HostRuntime) -> Result<(), Fail> {
    let alloc = rt.alloc();
    for case in &TEXTS {
        let text = case.piece.repeat(alloc, case.times)?;
        let lower = case.lower.repeat(alloc, case.times)?;
        let read = user_reading(&rt, alloc, text.as_str())?;
        assert_eq!(rt; read.as_str(), case.user, "at {text}");
        let read = host_reading(&rt, alloc, text.as_str(), lower.as_str())?;
        assert_eq!(rt; read.as_str(), case.host, "at {text}");
        let read = ident_reading(&rt, alloc, text.as_str())?;
        assert_eq!(rt; read.as_str(), case.ident, "at {text}");
        let read = lower_reading(&rt, alloc, text.as_str(), lower.as_str())?;
        assert_eq!(rt; read.as_str(), case.ident, "at {text}");
    }
    Ok(())
}

// Accounts in their order, and how they print.
struct Printed {
    user: &'static str,
    host: &'static str,
    text: &'static str,
}

#[rattlefmt::skip]
static ACCOUNTS: [Printed; 5] = [
    Printed { user: "", host: "%", text: "to ``@`%`" },
    Printed { user: "Zoe", host: "h", text: "to `Zoe`@`h`" },
    Printed { user: "ann", host: "", text: "to `ann`@``" },
    Printed { user: "ann", host: "B.Example", text: "to `ann`@`b.example`" },
    Printed { user: "we`ird", host: "%", text: "to `we``ird`@`%`" },
];

fn account(rt: &impl Abort, alloc: Global, printed: &Printed) -> Result<AuthId, Fail> {
    assert!(rt; printed.user.len() < 100 && printed.host.len() < 100);
    let user = UserName::read(alloc, printed.user)?;
    let host = HostText::read(alloc, printed.host)?;
    Ok(AuthId { user, host })
}

#[test]
fn accounts_are_ordered_copied_and_printed(rt: HostRuntime) -> Result<(), Fail> {
    let alloc = rt.alloc();
    let mut before: Option<AuthId> = None;
    for case in &ACCOUNTS {
        let account = account(&rt, alloc, case)?;
        if let Some(before) = &before {
            assert_eq!(rt; before.cmp(&account), Ordering::Less, "at {}", case.text);
            assert!(rt; !before.is(&account));
        }
        let mut text = String::from_str(alloc, "to ")?;
        account.append_to(&mut text)?;
        assert_eq!(rt; text.as_str(), case.text);
        let text = format!(in alloc; "to {account}")?;
        assert_eq!(rt; text.as_str(), case.text);
        let copy = account.copy(alloc)?;
        assert!(rt; copy.is(&account));
        before = Some(copy);
    }
    Ok(())
}

// An account is found under its name, and under no other.
#[test]
fn an_account_is_a_key(rt: HostRuntime) -> Result<(), Fail> {
    let alloc = rt.alloc();
    let mut places = IndexMap::new(alloc);
    for (place, case) in ACCOUNTS.iter().enumerate() {
        places.insert(account(&rt, alloc, case)?, place)?;
    }
    for (place, case) in ACCOUNTS.iter().enumerate() {
        let wanted = account(&rt, alloc, case)?;
        assert_eq!(rt;
            places.get(&wanted).copied(),
            Some(place),
            "at {}",
            case.text
        );
    }
    let user = UserName::read(alloc, "Ann")?;
    let host = HostText::read(alloc, "")?;
    assert!(rt; places.get(&AuthId { user, host }).is_none());
    Ok(())
}
