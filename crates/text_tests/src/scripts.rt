//! Scripts: their lines, the commands on them, and how they are refused.
use account_match::Client;
use acl_items::Items;
use acl_names::{AuthId, UserName, Verifier};
use acl_stmt::RoleForm;
use entry_codec::text_of;
use login_throttle::verifier;
use script_read::{Command, Script, read_script};
use std::alloc::Global;
use std::test::Fail;

// A script, and how many sessions it has, with the number, the session and the command of each line; or how it is
// refused.
struct Lines {
    script: &'static [u8],
    read: &'static str,
}

#[rattlefmt::skip]
static LINES: [Lines; 32] = [
    Lines { script: b"", read: "0" },
    Lines { script: b"\n \t\n#\xff\n\r\n", read: "0" },
    Lines { script: b"a> DISCONNECT", read: "1, 1 a disconnect" },
    Lines { script: b"\n \t\n# x\n\r\na> DISCONNECT", read: "1, 5 a disconnect" },
    Lines { script: b"b> USE d\r\n\n# x\na_1> USE e\nb> DISCONNECT\n", read: "2, 1 b use d, 4 a_1 use e, 5 b disconnect" },
    Lines { script: b"a123456789_123456789_123456789_1> DISCONNECT", read: "1, 1 a123456789_123456789_123456789_1 disconnect" },
    Lines { script: b"a123456789_123456789_123456789_12> DISCONNECT", read: "line 1: a fault of spelling stands at 32" },
    Lines { script: b"a", read: "line 1: a fault of spelling stands at 1" },
    Lines { script: b"a>\n", read: "line 1: a fault of spelling stands at 2" },
    Lines { script: b"\na>DISCONNECT", read: "line 2: a fault of spelling stands at 2" },
    Lines { script: b"a > DISCONNECT", read: "line 1: a fault of spelling stands at 1" },
    Lines { script: b"A> DISCONNECT", read: "line 1: a fault of spelling stands at 0" },
    Lines { script: b"> DISCONNECT", read: "line 1: a fault of spelling stands at 0" },
    Lines { script: b" # x", read: "line 1: a fault of spelling stands at 0" },
    Lines { script: b" a> DISCONNECT", read: "line 1: a fault of spelling stands at 0" },
    Lines { script: b"a> DISCONNECT\r", read: "line 1: a fault of spelling stands at 13" },
    Lines { script: b"a> DISCON\rNECT\n", read: "line 1: a fault of spelling stands at 9" },
    Lines { script: b"a> DISCONNECT\r\r\n", read: "line 1: a fault of spelling stands at 13" },
    Lines { script: b"a\xc3\xa4> DISCONNECT", read: "line 1: a fault of spelling stands at 1" },
    Lines { script: b"A> \xff", read: "line 1: a fault of spelling stands at 3" },
    Lines { script: b"a> USE \xff", read: "line 1: a fault of spelling stands at 7" },
    Lines { script: b"#\n\xe2\x82", read: "line 2: a fault of spelling stands at 0" },
    Lines { script: b"a> \n", read: "line 1: a fault of spelling stands at 3" },
    Lines { script: b"abc> USE", read: "line 1: a fault of spelling stands at 8" },
    Lines { script: b"a> DISCONNECT\n\nb> USE\nb", read: "line 3: a fault of spelling stands at 6" },
    Lines { script: b"a> USE d\r\nb> SHOW GRANTS\n\na> USE", read: "line 4: a fault of spelling stands at 6" },
    Lines { script: b"a> GRANT FILE ON s.* TO u1", read: "line 1: the level of the target has no FILE" },
    Lines { script: b"a> GRANT FILE ON s.* TO", read: "line 1: a fault of spelling stands at 23" },
    Lines { script: b"a> CHECK FILE ON s.*", read: "line 1: the level of the target has no FILE" },
    Lines { script: b"a> CHECK FILE ON s.* x", read: "line 1: a fault of spelling stands at 21" },
    Lines { script: b"ab> USE d;", read: "line 1: a fault of spelling stands at 9" },
    Lines { script: b"ab> DROP USER u;", read: "1, 1 ab DROP USER `u`@`%`" },
];

// A command, and what it means or the byte at which it is refused.
struct One {
    command: &'static str,
    read: &'static str,
}

#[rattlefmt::skip]
static COMMANDS: [One; 65] = [
    One { command: "CONNECT u FROM LOCAL", read: "u here none" },
    One { command: "connect 'a b' from local password 'pw'", read: "a b here pw" },
    One { command: "CONNECT '' FROM ''", read: " <> <> none" },
    One { command: "CONNECT u FROM '10.0.0.1' NAME \"Db.Example\" PASSWORD 'x'", read: "u <10.0.0.1> <db.example> other" },
    One { command: "CONNECT u FROM '1/2'", read: "u <1/2> <> none" },
    One { command: "CONNECT ALL FROM LOCAL", read: "refused 8" },
    One { command: "CONNECT u@h FROM LOCAL", read: "refused 9" },
    One { command: "CONNECT u FROM LOCAL NAME 'n'", read: "refused 21" },
    One { command: "CONNECT u FROM h", read: "refused 15" },
    One { command: "CONNECT u FROM LOCAL PASSWORD", read: "refused 29" },
    One { command: "CONNECT u FROM LOCAL AT 2024-03-01T00:00:00Z", read: "u here none 1709251200" },
    One { command: "CONNECT u FROM LOCAL at \t 1970-01-01T00:00:01Z", read: "u here none 1" },
    One { command: "CONNECT u FROM 'h'AT 1970-01-01T00:00:02Z", read: "u <h> <> none 2" },
    One { command: "CONNECT u FROM 'h' NAME 'n' PASSWORD 'pw' AT 1969-12-31T23:59:59Z", read: "u <h> <n> pw -1" },
    One { command: "CONNECT at FROM LOCAL AT 1970-01-01T00:00:00Z", read: "at here none 0" },
    One { command: "CONNECT u FROM 'h' NAME 'n' PASSWORD 'pw' AT AT", read: "refused 45" },
    One { command: "CONNECT u FROM LOCAL AT", read: "refused 23" },
    One { command: "CONNECT u FROM LOCAL AT 'a\\b'", read: "refused 24" },
    One { command: "CONNECT u FROM LOCAL AT '", read: "refused 24" },
    One { command: "CONNECT u FROM LOCAL AT \u{e9}", read: "refused 24" },
    One { command: "CONNECT u FROM LOCAL AT 2024-02-30T00:00:00Z", read: "refused 24" },
    One { command: "CONNECT u FROM LOCAL AT  2024-03-01T00:00:00Z;", read: "refused 25" },
    One { command: "CONNECT u FROM LOCAL ATX", read: "refused 21" },
    One { command: "CONNECT u FROM LOCAL `AT`", read: "refused 21" },
    One { command: "CONNECT u FROM LOCAL - AT x", read: "refused 21" },
    One { command: "CONNECT u FROM '\\x' AT x", read: "refused 16" },
    One { command: "CONNECT u FROM ' AT 2024-03-01T00:00:00Z", read: "refused 15" },
    One { command: "CONNECT u FROM LOCAL PASSWORD AT x", read: "refused 30" },
    One { command: "DISCONNECT AT x", read: "refused 11" },
    One { command: "DISCONNECT", read: "disconnect" },
    One { command: "DISCONNECT;", read: "refused 10" },
    One { command: "USE `My Schema`", read: "use My Schema" },
    One { command: "USE 'd'", read: "refused 4" },
    One { command: "USE `d", read: "refused 4" },
    One { command: "SET x", read: "refused 4" },
    One { command: "SET ROLE", read: "refused 8" },
    One { command: "SET ROLE DEFAULT", read: "default" },
    One { command: "SET ROLE NONE", read: "none" },
    One { command: "SET ROLE ALL", read: "all" },
    One { command: "SET ROLE ALL EXCEPT r, s@h", read: "all except r@% s@h" },
    One { command: "SET ROLE r, s@h", read: "list r@% s@h" },
    One { command: "SET ROLE ''", read: "refused 9" },
    One { command: "SET DEFAULT ROLE r TO u", read: "SET DEFAULT ROLE `r`@`%` TO `u`@`%`" },
    One { command: "SET PASSWORD = VERIFIER '2d711642b726b04401627ca9fbac32f5c8530fb1903cc4db02258717921a4881'", read: "SET PASSWORD = VERIFIER '2d711642b726b04401627ca9fbac32f5c8530fb1903cc4db02258717921a4881'" },
    One { command: "CHECK USAGE, GRANT OPTION, SELECT (a) ON d.t", read: "check" },
    One { command: "CHECK SELECT ON TO u", read: "refused 16" },
    One { command: "SHOW GRANTS", read: "own" },
    One { command: "SHOW GRANTS FOR u", read: "of u with" },
    One { command: "SHOW GRANTS FOR u USING r, s", read: "of u with r@% s@%" },
    One { command: "SHOW GRANTS USING r", read: "refused 12" },
    One { command: "AWAIT 0 WITHIN 1", read: "await 0 1" },
    One { command: "AWAIT 4294967295 WITHIN 20000000", read: "await 4294967295 20000000" },
    One { command: "AWAIT 4294967296 WITHIN 1", read: "refused 6" },
    One { command: "AWAIT 00 WITHIN 1", read: "refused 6" },
    One { command: "AWAIT 1 WITHIN 0", read: "refused 15" },
    One { command: "AWAIT 1 WITHIN 20000001", read: "refused 15" },
    One { command: "AWAIT 1x WITHIN 1", read: "refused 6" },
    One { command: "AWAIT 1", read: "refused 7" },
    One { command: "GRANT r TO u", read: "GRANT `r`@`%` TO `u`@`%`" },
    One { command: "GRANT SELECT ON TO u1", read: "refused 16" },
    One { command: "GRANT r1 TO u1 WITH GRANT OPTION", read: "refused 20" },
    One { command: "CREATE USER 'u'@'198.51.100.0/255.0.255.0'", read: "refused 16" },
    One { command: "DROP USER u;", read: "DROP USER `u`@`%`" },
    One { command: "x", read: "refused 0" },
    One { command: "", read: "refused 0" },
];

fn listing(alloc: Global, accounts: &[AuthId]) -> Result<String, Fail> {
    let mut text = String::new(alloc);
    for account in accounts {
        text.push(' ')?;
        text.push_str(account.user.as_str())?;
        text.push('@')?;
        text.push_str(account.host.as_str())?;
    }
    Ok(text)
}

fn password_text(given: Verifier) -> &'static str {
    if given == verifier("") {
        "none"
    } else if given == verifier("pw") {
        "pw"
    } else {
        "other"
    }
}

fn client_text(alloc: Global, user: &UserName, client: &Client) -> Result<String, Fail> {
    Ok(match client {
        Client::Local => format!(in alloc; "{} here", user.as_str())?,
        Client::Tcp { address, name } => format!(in alloc;
            "{} <{}> <{}>",
            user.as_str(),
            address.as_str(),
            name.as_str()
        )?,
    })
}

fn connect_text(
    alloc: Global,
    user: &UserName,
    client: &Client,
    verifier: Verifier,
    moment: Option<i64>,
) -> Result<String, Fail> {
    let from = client_text(alloc, user, client)?;
    let password = password_text(verifier);
    Ok(match moment {
        None => format!(in alloc; "{from} {password}")?,
        Some(moment) => format!(in alloc; "{from} {password} {moment}")?,
    })
}

fn role_text(alloc: Global, form: &RoleForm) -> Result<String, Fail> {
    Ok(match form {
        RoleForm::Default => String::from_str(alloc, "default")?,
        RoleForm::Nothing => String::from_str(alloc, "none")?,
        RoleForm::All => String::from_str(alloc, "all")?,
        RoleForm::AllExcept(roles) => format!(in alloc;
            "all except{}",
            listing(alloc, roles.as_slice())?
        )?,
        RoleForm::List(roles) => format!(in alloc; "list{}", listing(alloc, roles.as_slice())?)?,
    })
}

fn shown_text(
    alloc: Global,
    account: &Option<AuthId>,
    roles: &Items<AuthId>,
) -> Result<String, Fail> {
    let roles = listing(alloc, roles.as_slice())?;
    Ok(match account {
        None => format!(in alloc; "own{roles}")?,
        Some(account) => format!(in alloc; "of {} with{roles}", account.user.as_str())?,
    })
}

fn command_text(alloc: Global, command: &Command) -> Result<String, Fail> {
    match command {
        Command::Connect {
            user,
            client,
            verifier,
            moment,
        } => connect_text(alloc, user, client, *verifier, *moment),
        Command::Disconnect => Ok(String::from_str(alloc, "disconnect")?),
        Command::UseSchema(name) => Ok(format!(in alloc; "use {}", name.as_str())?),
        Command::SetRole(form) => role_text(alloc, form),
        Command::Check(_) => Ok(String::from_str(alloc, "check")?),
        Command::ShowGrants { account, roles } => shown_text(alloc, account, roles),
        Command::Await { length, turns } => Ok(format!(in alloc; "await {length} {turns}")?),
        Command::Statement(statement) => Ok(text_of(alloc, statement)?),
    }
}

fn script_text(alloc: Global, script: &Script) -> Result<String, Fail> {
    let mut text = format!(in alloc; "{}", script.sessions.len())?;
    for line in script.lines.as_slice() {
        let name = script
            .sessions
            .get(line.session as usize)
            .ok_or("no session")?;
        let command = command_text(alloc, &line.command)?;
        let line = format!(in alloc; ", {} {} {command}", line.number, name.as_str())?;
        text.push_str(line.as_str())?;
    }
    Ok(text)
}

fn reading(alloc: Global, script: &[u8]) -> Result<String, Fail> {
    match read_script(alloc, script) {
        Ok(script) => script_text(alloc, &script),
        Err(refusal) => Ok(format!(in alloc; "{refusal}")?),
    }
}

#[test]
fn lines_are_cut_and_refused_at_their_bytes(rt: HostRuntime) -> Result<(), Fail> {
    for case in &LINES {
        let read = reading(rt.alloc(), case.script)?;
        assert_eq!(rt; read.as_str(), case.read);
    }
    Ok(())
}

// The same of a line of the session `a`, whose command stands at byte 3.
fn line_reading(alloc: Global, wanted: &str) -> Result<String, Fail> {
    match wanted.strip_prefix("refused ") {
        Some(place) => {
            let place: u32 = place.parse().map_err(|_| "no place")?;
            Ok(format!(in alloc;
                "line 1: a fault of spelling stands at {}",
                place.saturating_add(3)
            )?)
        }
        None => Ok(format!(in alloc; "1, 1 a {wanted}")?),
    }
}

#[test]
fn commands_mean_what_they_say(rt: HostRuntime) -> Result<(), Fail> {
    let alloc = rt.alloc();
    for case in &COMMANDS {
        let script = format!(in alloc; "a> {}", case.command)?;
        let read = reading(alloc, script.as_bytes())?;
        let wanted = line_reading(alloc, case.read)?;
        assert_eq!(rt; read.as_str(), wanted.as_str(), "{}", case.command);
    }
    Ok(())
}

// A piece so many times, with what stands before and behind, and how that is refused, if it is.
struct Repeated {
    front: &'static str,
    piece: &'static str,
    times: usize,
    refusal: &'static str,
}

#[rattlefmt::skip]
static LIMITS: [Repeated; 8] = [
    Repeated { front: "", piece: "\n", times: 200_000, refusal: "" },
    Repeated { front: "", piece: "\n", times: 200_001, refusal: "more than 200000 lines" },
    Repeated { front: "", piece: "#", times: 16_777_216, refusal: "" },
    Repeated { front: "", piece: "\n", times: 16_777_217, refusal: "more than 16777216 bytes" },
    Repeated { front: "a> DISCONNECT", piece: " ", times: 4_086, refusal: "" },
    Repeated { front: "a> DISCONNECT", piece: " ", times: 4_087, refusal: "line 1: the text is too long" },
    Repeated { front: "a> DISCONNECT `", piece: " ", times: 4_084, refusal: "line 1: a fault of spelling stands at 14" },
    Repeated { front: "a> DISCONNECT `", piece: " ", times: 4_087, refusal: "line 1: the text is too long" },
];

fn refusal_text(alloc: Global, script: &str) -> Result<String, Fail> {
    match read_script(alloc, script.as_bytes()).err() {
        None => Ok(String::new(alloc)),
        Some(refusal) => Ok(format!(in alloc; "{refusal}")?),
    }
}

#[test]
fn bytes_lines_and_commands_are_limited(rt: HostRuntime) -> Result<(), Fail> {
    let alloc = rt.alloc();
    for case in &LIMITS {
        let repeated = case.piece.repeat(alloc, case.times)?;
        let script = format!(in alloc; "{}{repeated}", case.front)?;
        let refusal = refusal_text(alloc, script.as_str())?;
        assert_eq!(rt; refusal.as_str(), case.refusal, "{} times", case.times);
    }
    Ok(())
}

// What stands behind a line of each of 64 sessions, and how that is refused, if it is.
#[rattlefmt::skip]
static LAST: [(&str, &str); 4] = [
    ("s63> DISCONNECT", ""),
    ("s0> bad", "line 65: a fault of spelling stands at 4"),
    ("t> bad", "line 65: a fault of spelling stands at 3"),
    ("t> DISCONNECT\nt> bad", "more than 64 sessions"),
];

fn full_script(alloc: Global, last: &str) -> Result<String, Fail> {
    let mut script = String::new(alloc);
    for number in 0..64u8 {
        let line = format!(in alloc; "s{number}> DISCONNECT\n")?;
        script.push_str(line.as_str())?;
    }
    script.push_str(last)?;
    Ok(script)
}

#[test]
fn a_session_too_many_comes_behind_a_bad_command(rt: HostRuntime) -> Result<(), Fail> {
    let alloc = rt.alloc();
    for (last, refusal) in &LAST {
        let script = full_script(alloc, last)?;
        let found = refusal_text(alloc, script.as_str())?;
        assert_eq!(rt; found.as_str(), *refusal, "{last}");
    }
    Ok(())
}
