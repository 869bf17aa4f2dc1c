//! The disk in memory, and what a stop leaves on it.
use acl_ports::{Disk, Keep, MemoryDisk};
use std::alloc::Global;
use std::test::Fail;

// A disk of `abc` with room for 6 bytes: the number of the call that fails, a write, syncs, and a second write, which
// may be of nothing; and the bytes that a stop then leaves.
struct Stop {
    failing: u64,
    first_at: u64,
    first: &'static str,
    syncs: u8,
    second_at: u64,
    second: &'static str,
    synced: &'static str,
    written: &'static str,
}

const NO_CALL: u64 = 9;

static STOPS: [Stop; 6] = [
    // a write that a stop tears
    Stop {
        failing: NO_CALL,
        first_at: 2,
        first: "xy",
        syncs: 0,
        second_at: 0,
        second: "",
        synced: "abc",
        written: "abxy",
    },
    Stop {
        failing: NO_CALL,
        first_at: 0,
        first: "xy",
        syncs: 0,
        second_at: 1,
        second: "zzz",
        synced: "abc",
        written: "xzzz",
    },
    Stop {
        failing: NO_CALL,
        first_at: 0,
        first: "X",
        syncs: 1,
        second_at: 1,
        second: "YZ",
        synced: "Xbc",
        written: "XYZ",
    },
    // a sync that fails, and one that succeeds after it
    Stop {
        failing: 1,
        first_at: 1,
        first: "Z",
        syncs: 1,
        second_at: 0,
        second: "",
        synced: "abc",
        written: "aZc",
    },
    Stop {
        failing: 1,
        first_at: 1,
        first: "Z",
        syncs: 2,
        second_at: 0,
        second: "",
        synced: "aZc",
        written: "aZc",
    },
    // a write that has no room for all its bytes
    Stop {
        failing: NO_CALL,
        first_at: 3,
        first: "de",
        syncs: 0,
        second_at: 4,
        second: "EFG",
        synced: "abc",
        written: "abcde",
    },
];

// Writes where the disk has the place. What fails is seen by the bytes that are left.
fn write(disk: &mut MemoryDisk, at: u64, text: &str) {
    if at <= disk.bytes().len() as u64 {
        let _ = disk.write_at(at, text.as_bytes());
    }
}

fn left_by(alloc: Global, stop: &Stop, keep: Keep) -> Result<Vec<u8>, Fail> {
    let failing = [stop.failing].to_vec(alloc)?;
    let mut disk = MemoryDisk::new(alloc, b"abc".to_vec(alloc)?, 6, 8, failing)?;
    write(&mut disk, stop.first_at, stop.first);
    for _ in 0..stop.syncs {
        let _ = disk.sync();
    }
    write(&mut disk, stop.second_at, stop.second);
    Ok(disk.stopped(keep))
}

#[test]
fn a_stop_leaves_what_was_synced_or_what_was_written(rt: HostRuntime) -> Result<(), Fail> {
    for stop in &STOPS {
        let synced = left_by(rt.alloc(), stop, Keep::Synced)?;
        assert_eq!(rt; synced.as_slice(), stop.synced.as_bytes());
        let written = left_by(rt.alloc(), stop, Keep::Written)?;
        assert_eq!(rt; written.as_slice(), stop.written.as_bytes());
    }
    Ok(())
}

#[test]
fn a_disk_is_read_at_places(rt: HostRuntime) -> Result<(), Fail> {
    let alloc = rt.alloc();
    let mut disk = MemoryDisk::new(alloc, b"abcd".to_vec(alloc)?, 4, 16, Vec::new(alloc))?;
    let mut into = [0; 3];
    assert_eq!(rt; disk.read(2, &mut into).unwrap_or(0), 2);
    assert_eq!(rt; into, *b"cd\0");
    assert_eq!(rt; disk.read(u64::MAX, &mut into).unwrap_or(9), 0);
    assert_eq!(rt; disk.length().unwrap_or(0), 4);
    Ok(())
}
