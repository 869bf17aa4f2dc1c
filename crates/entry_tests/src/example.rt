//! ``CREATE ROLE `r`@`%` ``, the call of number 1 of caller 0, by `root`@`localhost`: its bytes, and others near them.
use crate::answers::{Answer, read_as};
use std::alloc::{AllocError, Global};
use std::process::Abort;
use std::test::Fail;

#[rattlefmt::skip]
static ENTRY: [u8; 52] = [
    0, 0, 0, 0,
    1, 0, 0, 0,
    4, 0, b'r', b'o', b'o', b't',
    9, 0, b'l', b'o', b'c', b'a', b'l', b'h', b'o', b's', b't',
    0, 0, 0, 0,
    19, 0, 0, 0,
    b'C', b'R', b'E', b'A', b'T', b'E', b' ', b'R', b'O', b'L', b'E', b' ', b'`', b'r', b'`', b'@', b'`', b'%', b'`',
];

// Where a field begins, and where it ends.
static FIELDS: [(u32, u32); 6] = [(0, 4), (4, 8), (8, 14), (14, 25), (25, 29), (29, 52)];

// A byte in place of the one at the offset.
struct Change {
    at: usize,
    byte: u8,
    read: Answer,
}

#[rattlefmt::skip]
static CHANGES: [Change; 26] = [
    Change { at: 0, byte: 255, read: Answer::Entry },
    Change { at: 3, byte: 255, read: Answer::Entry },
    Change { at: 4, byte: 0, read: Answer::Entry },
    // The user ends early or late, and the host's length is read from other bytes.
    Change { at: 8, byte: 5, read: Answer::Bad(8) },
    Change { at: 8, byte: 3, read: Answer::Bad(13) },
    Change { at: 8, byte: 0, read: Answer::Bad(10) },
    Change { at: 9, byte: 1, read: Answer::Bad(8) },
    Change { at: 10, byte: 255, read: Answer::Bad(8) },
    Change { at: 10, byte: 10, read: Answer::Bad(8) },
    Change { at: 10, byte: b'R', read: Answer::Entry },
    Change { at: 14, byte: 255, read: Answer::Bad(14) },
    // The host ends early: 116 limits, the first of them on privileges without the schema level.
    Change { at: 14, byte: 8, read: Answer::Bad(28) },
    Change { at: 16, byte: b'L', read: Answer::Bad(14) },
    Change { at: 16, byte: 0, read: Answer::Bad(14) },
    // One limit, on SELECT, INSERT and CREATE, whose schema is cut short.
    Change { at: 25, byte: 1, read: Answer::Bad(33) },
    Change { at: 29, byte: 18, read: Answer::Bad(29) },
    Change { at: 29, byte: 20, read: Answer::Bad(29) },
    Change { at: 30, byte: 1, read: Answer::Bad(29) },
    Change { at: 33, byte: b'c', read: Answer::Bad(29) },
    Change { at: 44, byte: 9, read: Answer::Bad(29) },
    Change { at: 45, byte: b'\'', read: Answer::Bad(29) },
    Change { at: 46, byte: 128, read: Answer::Bad(29) },
    Change { at: 46, byte: b's', read: Answer::Entry },
    Change { at: 50, byte: b'A', read: Answer::Bad(29) },
    Change { at: 50, byte: b'a', read: Answer::Entry },
    Change { at: 51, byte: b';', read: Answer::Bad(29) },
];

fn front_of(bytes: &[u8], length: usize) -> &[u8] {
    if length < bytes.len() {
        &bytes[..length]
    } else {
        bytes
    }
}

fn changed(alloc: Global, at: usize, byte: u8) -> Result<Vec<u8>, AllocError> {
    let mut bytes = ENTRY.to_vec(alloc)?;
    if at < bytes.len() {
        bytes[at] = byte;
    }
    Ok(bytes)
}

#[test]
fn the_example_is_read(rt: HostRuntime) {
    assert_eq!(rt; read_as(rt.alloc(), &ENTRY), Answer::Entry);
}

#[test]
fn each_front_is_refused_at_the_field_that_is_cut(rt: HostRuntime) {
    for (start, end) in &FIELDS {
        for length in *start..*end {
            assert_eq!(rt;
                read_as(rt.alloc(), front_of(&ENTRY, length as usize)),
                Answer::Bad(*start),
                "{length}"
            );
        }
    }
}

#[test]
fn one_byte_too_many_is_refused(rt: HostRuntime) -> Result<(), Fail> {
    let mut bytes = ENTRY.to_vec(rt.alloc())?;
    bytes.push(0)?;
    assert_eq!(rt; read_as(rt.alloc(), bytes.as_slice()), Answer::Bad(52));
    Ok(())
}

#[test]
fn changed_bytes_are_read_or_refused(rt: HostRuntime) -> Result<(), Fail> {
    for change in &CHANGES {
        let bytes = changed(rt.alloc(), change.at, change.byte)?;
        assert_eq!(rt;
            read_as(rt.alloc(), bytes.as_slice()),
            change.read,
            "{} at {}",
            change.byte,
            change.at
        );
    }
    Ok(())
}
