//! Entries with limits.
use crate::answers::{Answer, read_as};
use crate::spelling::{front, put_long, put_number, put_short};
use std::alloc::{AllocError, Global};
use std::process::Abort;
use std::test::Fail;

// Two limits, each the bits of its privileges and its schema, or the first of them alone.
struct Case {
    count: u32,
    first: (u32, &'static str),
    second: (u32, &'static str),
    text: &'static str,
    read: Answer,
}

// Bit 0 is SELECT, bit 1 INSERT, and bit 6 RELOAD, which no schema has. A first schema stands at 22, a second limit at 25.
#[rattlefmt::skip]
static CASES: [Case; 16] = [
    Case { count: 2, first: (1, "a"), second: (1, "b"), text: "GRANT SELECT ON *.* TO `u`@`%`", read: Answer::Entry },
    Case { count: 2, first: (1, "A"), second: (1, "a"), text: "GRANT SELECT ON *.* TO `u`@`%`", read: Answer::Entry },
    Case { count: 1, first: (3, "a"), second: (0, ""), text: "GRANT ALL ON *.* TO `u`@`%`", read: Answer::Entry },
    // Out of order, and repeated.
    Case { count: 2, first: (1, "b"), second: (1, "a"), text: "GRANT SELECT ON *.* TO `u`@`%`", read: Answer::Bad(29) },
    Case { count: 2, first: (1, "a"), second: (1, "a"), text: "GRANT SELECT ON *.* TO `u`@`%`", read: Answer::Bad(29) },
    Case { count: 2, first: (1, "a"), second: (1, "A"), text: "GRANT SELECT ON *.* TO `u`@`%`", read: Answer::Bad(29) },
    // On no privilege, on none that is known, and on one without the schema level.
    Case { count: 1, first: (0, "a"), second: (0, ""), text: "GRANT SELECT ON *.* TO `u`@`%`", read: Answer::Bad(18) },
    Case { count: 1, first: (2147483649, "a"), second: (0, ""), text: "GRANT SELECT ON *.* TO `u`@`%`", read: Answer::Bad(18) },
    Case { count: 1, first: (65, "a"), second: (0, ""), text: "GRANT ALL ON *.* TO `u`@`%`", read: Answer::Bad(18) },
    Case { count: 2, first: (1, "a"), second: (0, "b"), text: "GRANT SELECT ON *.* TO `u`@`%`", read: Answer::Bad(25) },
    // On a schema that no name is.
    Case { count: 1, first: (1, ""), second: (0, ""), text: "GRANT SELECT ON *.* TO `u`@`%`", read: Answer::Bad(22) },
    Case { count: 1, first: (1, "\n"), second: (0, ""), text: "GRANT SELECT ON *.* TO `u`@`%`", read: Answer::Bad(22) },
    // Beside a statement that grants no such privilege on `*.*`.
    Case { count: 1, first: (2, "a"), second: (0, ""), text: "GRANT SELECT ON *.* TO `u`@`%`", read: Answer::Bad(25) },
    Case { count: 1, first: (1, "a"), second: (0, ""), text: "GRANT SELECT ON `a`.* TO `u`@`%`", read: Answer::Bad(25) },
    Case { count: 1, first: (1, "a"), second: (0, ""), text: "REVOKE SELECT ON *.* FROM `u`@`%`", read: Answer::Bad(25) },
    Case { count: 1, first: (1, "a"), second: (0, ""), text: "DROP ROLE `r`@`%`", read: Answer::Bad(25) },
];

fn put_limit(bytes: &mut Vec<u8>, limit: (u32, &str)) -> Result<(), AllocError> {
    put_number(bytes, limit.0)?;
    put_short(bytes, limit.1)
}

fn case_bytes(alloc: Global, case: &Case) -> Result<Vec<u8>, AllocError> {
    let mut bytes = front(alloc, case.count)?;
    put_limit(&mut bytes, case.first)?;
    if case.count > 1 {
        put_limit(&mut bytes, case.second)?;
    }
    put_long(&mut bytes, case.text)?;
    Ok(bytes)
}

// Limits on so many schemas of six digits, the same one from `again` on.
fn many(alloc: Global, count: u32, again: u32) -> Result<Vec<u8>, AllocError> {
    let mut bytes = front(alloc, count)?;
    for number in 0..count {
        put_digits(&mut bytes, if number < again { number } else { again })?;
    }
    put_long(&mut bytes, "GRANT SELECT ON *.* TO `u`@`%`")?;
    Ok(bytes)
}

// A limit on SELECT on the schema of these digits.
fn put_digits(bytes: &mut Vec<u8>, number: u32) -> Result<(), AllocError> {
    put_number(bytes, 1)?;
    bytes.extend_from_slice(&6u16.to_le_bytes())?;
    for place in [100000, 10000, 1000, 100, 10, 1] {
        bytes.push(b'0' + (number / place % 10) as u8)?;
    }
    Ok(())
}

#[test]
fn limits_are_read_or_refused(rt: HostRuntime) -> Result<(), Fail> {
    for case in &CASES {
        let bytes = case_bytes(rt.alloc(), case)?;
        assert_eq!(rt;
            read_as(rt.alloc(), bytes.as_slice()),
            case.read,
            "{} {} {}",
            case.first.1,
            case.second.1,
            case.text
        );
    }
    Ok(())
}

#[test]
fn many_limits_are_read_or_refused(rt: HostRuntime) -> Result<(), Fail> {
    // From which one on the limits are the same, and how they are read.
    for (again, read) in [(100000, Answer::Entry), (99998, Answer::Bad(1200010))] {
        let bytes = many(rt.alloc(), 100000, again)?;
        assert_eq!(rt; read_as(rt.alloc(), bytes.as_slice()), read);
    }
    Ok(())
}
