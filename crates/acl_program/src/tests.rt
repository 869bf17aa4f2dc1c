//! Runs of the program over devices in memory.
use crate::serve::serve;
use acl_ports::{MemoryDisk, MemorySink, MemorySource};
use std::alloc::Global;
use std::test::Fail;

// The call that fails, counted from 0.
#[derive(Clone, Copy)]
enum Failing {
    Nothing,
    Read(u64),
    Write(u64),
    Tell(u64),
}

#[derive(Drop)]
struct Devices {
    script: MemorySource,
    out: MemorySink,
    err: MemorySink,
    disk: MemoryDisk,
}

fn memory_devices(alloc: Global, script: &[u8], failing: Failing) -> Result<Devices, Fail> {
    let (mut reads, mut writes, mut tells) = (Vec::new(alloc), Vec::new(alloc), Vec::new(alloc));
    match failing {
        Failing::Nothing => {}
        Failing::Read(number) => reads.push(number)?,
        Failing::Write(number) => writes.push(number)?,
        Failing::Tell(number) => tells.push(number)?,
    }
    Ok(Devices {
        script: MemorySource::new(script.to_vec(alloc)?, 4096, reads),
        out: MemorySink::new(alloc, 3, 4096, writes)?,
        err: MemorySink::new(alloc, 5, 4096, tells)?,
        disk: MemoryDisk::new(alloc, b"as before".to_vec(alloc)?, 9, 0, Vec::new(alloc))?,
    })
}

// What is on the output, on the error stream and on the disk at the end, and the status.
#[derive(Drop)]
struct Ended {
    status: u8,
    out: MemorySink,
    err: MemorySink,
    disk: MemoryDisk,
}

fn run(alloc: Global, words: &str, script: &[u8], failing: Failing) -> Result<Ended, Fail> {
    let mut spoken = Vec::new(alloc);
    for word in words.split_whitespace() {
        spoken.push(String::from_str(alloc, word)?)?;
    }
    let Devices {
        mut script,
        mut out,
        mut err,
        disk,
    } = memory_devices(alloc, script, failing)?;
    let served = serve(alloc, &spoken, &mut script, &mut out, &mut err, disk);
    Ok(Ended {
        status: served.status,
        out,
        err,
        disk: served.disk,
    })
}

// Words, a script and a fault: the status with which the program ends, and what it writes on the output and on the error
// stream.
struct Case {
    words: &'static str,
    script: &'static str,
    failing: Failing,
    status: u8,
    out: &'static str,
    told: &'static str,
}

static CASES: [Case; 29] = [
    Case {
        words: "step first.acl first.journal",
        failing: Failing::Nothing,
        status: 0,
        told: "",
        script: "",
        out: "history 0\n",
    },
    // Accounts, a grant and two checks.
    Case {
        words: "step first.acl first.journal",
        failing: Failing::Nothing,
        status: 0,
        told: "",
        script: "s1> CONNECT root FROM LOCAL
s1> CREATE USER 'u1'@'%'
s1> GRANT SELECT ON *.* TO 'u1'@'%'
s2> CONNECT u1 FROM LOCAL
s2> CHECK SELECT ON *.*
s2> CHECK INSERT ON *.*
",
        out: "s1:1 connected `root`@`localhost`
s1:2 done 1
s1:3 done 2
s2:4 connected `u1`@`%`
s2:5 allowed
s2:6 denied INSERT ON *.*
history 2
",
    },
    // A grant on *.* reaches a session at its next CONNECT. The last line lacks its line feed.
    Case {
        words: "step first.acl first.journal",
        failing: Failing::Nothing,
        status: 0,
        told: "",
        script: "a> CONNECT root FROM LOCAL
a> CREATE USER 'u1'@'%'
b> CONNECT u1 FROM LOCAL
a> GRANT INSERT ON *.* TO 'u1'@'%'
b> CHECK INSERT ON *.*
b> CONNECT u1 FROM LOCAL
b> CHECK INSERT ON *.*",
        out: "a:1 connected `root`@`localhost`
a:2 done 1
a:4 done 2
b:3 connected `u1`@`%`
b:5 denied INSERT ON *.*
b:6 connected `u1`@`%`
b:7 allowed
history 2
",
    },
    // Another account than root may not issue statements.
    Case {
        words: "step first.acl first.journal",
        failing: Failing::Nothing,
        status: 0,
        told: "",
        script: "a> CONNECT root FROM LOCAL
a> CREATE USER 'u1'@'%'
a> CONNECT u1 FROM LOCAL
a> CREATE USER 'u2'@'%'
a> GRANT SELECT ON *.* TO 'u1'@'%'
",
        out: "a:1 connected `root`@`localhost`
a:2 done 1
a:3 connected `u1`@`%`
a:4 refused denied CREATE USER ON *.*
a:5 refused denied CREATE USER ON *.*
history 1
",
    },
    // Lines without a connection, before the first one and after a refused one.
    Case {
        words: "step first.acl first.journal",
        failing: Failing::Nothing,
        status: 0,
        told: "",
        script: "a> CHECK SELECT ON *.*
a> CREATE USER 'u1'@'%'
a> CONNECT root FROM LOCAL
a> CONNECT u9 FROM LOCAL
a> CHECK SELECT ON *.*
",
        out: "a:1 refused not connected
a:2 refused not connected
a:3 connected `root`@`localhost`
a:4 refused no account
a:5 refused not connected
history 0
",
    },
    // An account that exists, and one that does not.
    Case {
        words: "step first.acl first.journal",
        failing: Failing::Nothing,
        status: 0,
        told: "",
        script: "a> CONNECT root FROM LOCAL
a> CREATE USER 'u1'@'%'
a> CREATE USER 'u1'@'%'
a> GRANT DROP ROLE ON *.* TO 'u2'@'%'
a> GRANT DROP ROLE ON *.* TO 'u1'@'%'
a> CHECK DROP ROLE ON *.*
",
        out: "a:1 connected `root`@`localhost`
a:2 done 1
a:3 refused account exists `u1`@`%`
a:4 refused no such account `u2`@`%`
a:5 done 2
a:6 allowed
history 2
",
    },
    // Names that change places, and an account that is named twice.
    Case {
        words: "step first.acl first.journal",
        failing: Failing::Nothing,
        status: 0,
        told: "",
        script: "a> CONNECT root FROM LOCAL
a> CREATE USER a, b;
a> GRANT SELECT ON s.* TO a
a> rename user a TO c, b TO a
a> RENAME USER c TO a
a> CREATE USER x, x
a> CREATE USER IF NOT EXISTS x, x
a> DROP USER y
a> DROP USER IF EXISTS x, y
b> CONNECT c FROM LOCAL
b> CHECK SELECT ON s.t
b> CONNECT a FROM LOCAL
b> CHECK SELECT ON s.t
b> DISCONNECT
b> DISCONNECT
",
        out: "a:1 connected `root`@`localhost`
a:2 done 1
a:3 done 2
a:4 done 3
a:5 refused account exists `a`@`%`
a:6 refused account exists `x`@`%`
a:7 done 4
a:8 refused no such account `y`@`%`
a:9 done 5
b:10 connected `c`@`%`
b:11 allowed
b:12 connected `a`@`%`
b:13 denied SELECT ON `s`.`t`
b:14 bye
b:15 refused not connected
history 5
",
    },
    // What is refused changes nothing, for none of its accounts. Carriage returns, comments and blank lines.
    Case {
        words: "step first.acl first.journal",
        failing: Failing::Nothing,
        status: 0,
        told: "",
        script: "# root\r
a> CONNECT root FROM LOCAL\r
\t \r
a> CREATE USER u1\r
a> REVOKE SELECT ON s.* FROM u1\r
a> REVOKE SELECT ON s.t FROM u1\r
a> GRANT SELECT ON *.* TO u1, nobody\r
b> CONNECT u1 FROM LOCAL\r
b> CHECK SELECT ON *.*\r
a> REVOKE ALL PRIVILEGES, GRANT OPTION FROM u1\r
a> DROP USER root@localhost\r
a> CHECK EXECUTE ON FUNCTION s.f\r
a> CREATE USER u2\r
",
        out: "a:2 connected `root`@`localhost`
a:4 done 1
a:5 refused no such grant for `u1`@`%`
a:6 refused no such grant for `u1`@`%`
a:7 refused no such account `nobody`@`%`
a:10 done 2
a:11 done 3
a:12 allowed
a:13 done 4
b:8 connected `u1`@`%`
b:9 denied SELECT ON *.*
history 4
",
    },
    // What a session has read when: at CONNECT, at USE and at each check.
    Case {
        words: "step first.acl first.journal",
        failing: Failing::Nothing,
        status: 0,
        told: "",
        script: "a> CONNECT root FROM LOCAL
a> CREATE USER u1
b> CONNECT u1 FROM LOCAL
b> USE shop
a> GRANT UPDATE ON shop.* TO u1
a> GRANT UPDATE ON depot.* TO u1
b> CHECK UPDATE ON shop.t
b> CHECK UPDATE ON depot.t
b> USE shop
b> CHECK UPDATE ON shop.t
a> GRANT SELECT (a, c) ON s.t TO u1
b> CHECK SELECT (a, b, c) ON s.t
b> CHECK SELECT ON s.t
b> CHECK SELECT (c) ON s.t
a> DROP USER u1
b> CHECK SELECT (c) ON s.t
b> CHECK UPDATE ON shop.t
b> CHECK UPDATE ON depot.t
",
        out: "a:1 connected `root`@`localhost`
a:2 done 1
a:5 done 2
a:6 done 3
a:11 done 4
a:15 done 5
b:3 connected `u1`@`%`
b:4 schema `shop`
b:7 denied UPDATE ON `shop`.`t`
b:8 allowed
b:9 schema `shop`
b:10 allowed
b:12 denied SELECT (`b`) ON `s`.`t`
b:13 denied SELECT ON `s`.`t`
b:14 allowed
b:16 denied SELECT (`c`) ON `s`.`t`
b:17 allowed
b:18 denied UPDATE ON `depot`.`t`
history 5
",
    },
    // Where restrictions come and go.
    Case {
        words: "step first.acl first.journal",
        failing: Failing::Nothing,
        status: 0,
        told: "",
        script: "root> CONNECT root FROM LOCAL
root> CREATE USER u1
root> GRANT SELECT, INSERT, DELETE ON *.* TO u1
root> REVOKE INSERT, DELETE ON world.* FROM u1
u1> CONNECT u1 FROM LOCAL
u1> CHECK SELECT, INSERT ON world.city
u1> CHECK INSERT ON moon.t
root> GRANT DELETE ON world.* TO u1
u1> CONNECT u1 FROM LOCAL
u1> CHECK DELETE ON world.city
root> REVOKE INSERT ON *.* FROM u1
root> REVOKE INSERT ON world.* FROM u1
root> GRANT INSERT ON world.* TO u1
u1> CHECK INSERT ON world.city
",
        out: "root:1 connected `root`@`localhost`
root:2 done 1
root:3 done 2
root:4 done 3
root:8 done 4
root:11 done 5
root:12 refused no such grant for `u1`@`%`
root:13 done 6
u1:5 connected `u1`@`%`
u1:6 denied INSERT ON `world`.`city` restricted
u1:7 allowed
u1:9 connected `u1`@`%`
u1:10 allowed
u1:14 allowed
history 6
",
    },
    Case {
        words: "run a",
        script: "",
        failing: Failing::Read(0),
        status: 2,
        out: "",
        told: "usage: acl step SCRIPT JOURNAL, acl make NUMBER SESSIONS LINES\n",
    },
    Case {
        words: "step a b c",
        script: "",
        failing: Failing::Read(0),
        status: 2,
        out: "",
        told: "usage: acl step SCRIPT JOURNAL, acl make NUMBER SESSIONS LINES\n",
    },
    Case {
        words: "make 1 65 1",
        script: "",
        failing: Failing::Read(0),
        status: 2,
        out: "",
        told: "usage: acl step SCRIPT JOURNAL, acl make NUMBER SESSIONS LINES\n",
    },
    // A made script: the source is not read.
    Case {
        words: "make 0 1 1",
        script: "no script",
        failing: Failing::Read(0),
        status: 0,
        out: "lines 2
history 1
done 1
refused 0
allowed 0
denied 0
recomputed 0
",
        told: "",
    },
    Case {
        words: "make 00 01 2",
        script: "",
        failing: Failing::Nothing,
        status: 0,
        out: "lines 3
history 1
done 1
refused 1
allowed 0
denied 0
recomputed 0
",
        told: "",
    },
    Case {
        words: "make 18446744073709551615 4 1",
        script: "",
        failing: Failing::Nothing,
        status: 0,
        out: "lines 5
history 0
done 0
refused 0
allowed 1
denied 0
recomputed 0
",
        told: "",
    },
    // A made line whose form is not run yet.
    Case {
        words: "make 0 1 3",
        script: "",
        failing: Failing::Nothing,
        status: 3,
        out: "",
        told: "line 4: syntax at 0\n",
    },
    Case {
        words: "make 0 1 1",
        script: "",
        failing: Failing::Write(1),
        status: 5,
        out: "lin",
        told: "write fault\n",
    },
    Case {
        words: "step a -b",
        script: "",
        failing: Failing::Nothing,
        status: 2,
        out: "",
        told: "usage: acl step SCRIPT JOURNAL, acl make NUMBER SESSIONS LINES\n",
    },
    // A form that is not run yet.
    Case {
        words: "step a b",
        script: "s1> CREATE ROLE r1",
        failing: Failing::Nothing,
        status: 3,
        out: "",
        told: "line 1: syntax at 0\n",
    },
    Case {
        words: "step a b",
        script: "\na> CONNECT root FROM LOCAL;\n",
        failing: Failing::Nothing,
        status: 3,
        out: "",
        told: "line 2: syntax at 26\n",
    },
    Case {
        words: "step a b",
        script: "a> GRANT SELECT ON TO u1",
        failing: Failing::Nothing,
        status: 3,
        out: "",
        told: "line 1: syntax at 19\n",
    },
    Case {
        words: "step a b",
        script: "a> GRANT r1 TO u1 WITH GRANT OPTION",
        failing: Failing::Nothing,
        status: 3,
        out: "",
        told: "line 1: syntax at 23\n",
    },
    Case {
        words: "step a b",
        script: "a> CREATE USER 'u'@'198.51.100.0/255.0.255.0'",
        failing: Failing::Nothing,
        status: 3,
        out: "",
        told: "line 1: syntax at 19\n",
    },
    Case {
        words: "step a b",
        script: "a> USE `d",
        failing: Failing::Nothing,
        status: 3,
        out: "",
        told: "line 1: syntax at 7\n",
    },
    Case {
        words: "step a b",
        script: "a> GRANT FILE ON s.* TO u1",
        failing: Failing::Nothing,
        status: 3,
        out: "",
        told: "line 1: wrong level FILE\n",
    },
    // The second read fails.
    Case {
        words: "step a b",
        script: "a> CONNECT root FROM LOCAL\n",
        failing: Failing::Read(1),
        status: 4,
        out: "",
        told: "read fault\n",
    },
    // The second put fails.
    Case {
        words: "step a b",
        script: "",
        failing: Failing::Write(1),
        status: 5,
        out: "his",
        told: "write fault\n",
    },
    // A fault of the error stream changes no status.
    Case {
        words: "step a b",
        script: "s1> CREATE ROLE r1",
        failing: Failing::Tell(3),
        status: 3,
        out: "",
        told: "line 1: syn",
    },
];

#[test]
fn each_run_ends_as_told(rt: HostRuntime) -> Result<(), Fail> {
    for case in &CASES {
        let script = case.script.as_bytes();
        let ended = run(rt.alloc(), case.words, script, case.failing)?;
        assert_eq!(rt; ended.out.written(), case.out.as_bytes());
        assert_eq!(rt; ended.err.written(), case.told.as_bytes());
        assert_eq!(rt; ended.status, case.status);
        assert_eq!(rt; ended.disk.bytes(), b"as before".as_slice());
    }
    Ok(())
}

// So many empty lines, and how the program ends.
static LENGTHS: [(usize, u8, &str); 2] = [(200_000, 0, ""), (200_001, 9, "limit lines 200000\n")];

#[test]
fn lines_are_counted_before_they_are_read(rt: HostRuntime) -> Result<(), Fail> {
    for (length, status, told) in &LENGTHS {
        let script = vec![in rt.alloc(); b'\n'; *length]?;
        let ended = run(rt.alloc(), "step a b", &script, Failing::Nothing)?;
        assert_eq!(rt; ended.err.written(), told.as_bytes());
        assert_eq!(rt; ended.status, *status);
    }
    Ok(())
}

// A script that creates 4,095 accounts beside root, 455 on a line, and then one more.
fn crowd(alloc: Global) -> Result<String, Fail> {
    let mut script = String::from_str(alloc, "a> CONNECT root FROM LOCAL\n")?;
    for line in 0..9u32 {
        push_accounts(alloc, &mut script, line)?;
    }
    script.push_str("a> CREATE USER one_more\n")?;
    Ok(script)
}

fn push_accounts(alloc: Global, script: &mut String, line: u32) -> Result<(), Fail> {
    let first = format!(in alloc; "a> CREATE USER u{line}")?;
    script.push_str(first.as_str())?;
    for number in 0..454u32 {
        let account = format!(in alloc; ", u{line}_{number}")?;
        script.push_str(account.as_str())?;
    }
    script.push_str("\n")?;
    Ok(())
}

#[test]
fn one_account_too_many_is_refused(rt: HostRuntime) -> Result<(), Fail> {
    let script = crowd(rt.alloc())?;
    let ended = run(rt.alloc(), "step a b", script.as_bytes(), Failing::Nothing)?;
    let wanted = "a:1 connected `root`@`localhost`
a:2 done 1
a:3 done 2
a:4 done 3
a:5 done 4
a:6 done 5
a:7 done 6
a:8 done 7
a:9 done 8
a:10 done 9
a:11 refused full accounts 4096
history 9
";
    assert_eq!(rt; ended.out.written(), wanted.as_bytes());
    Ok(())
}
