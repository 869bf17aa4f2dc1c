//! Files of the system, written and read again.
use acl_ports::laws::write_and_sync;
use acl_ports::{Disk, FileDisk, Sink, Source, StdSink, StdSource};
use std::fs;
use std::fs::{File, OpenOptions};
use std::test::Fail;

#[test]
fn a_file_is_written_and_read_again(rt: HostRuntime) -> Result<(), Fail> {
    let name = "device_tests_file";
    let mut sink = StdSink::new(Some(File::create(&rt, name)?));
    assert_eq!(rt; sink.put(b"history 0").unwrap_or(0), 9);
    let mut source = StdSource::new(Some(File::open(&rt, name)?));
    let mut into = [0; 16];
    assert_eq!(rt; source.read(&mut into).unwrap_or(0), 9);
    assert_eq!(rt; into[..9], b"history 0"[..]);
    assert_eq!(rt; source.read(&mut into).unwrap_or(9), 0);
    fs::remove_file(&rt, name)?;
    Ok(())
}

// A place of a file of 6 bytes, what is written there, and what is then read from the place before it.
struct Place {
    at: u64,
    written: &'static str,
    read: &'static str,
}

static PLACES: [Place; 3] = [
    Place {
        at: 4,
        written: "xy",
        read: "dxy",
    },
    Place {
        at: 2,
        written: "C",
        read: "bCd",
    },
    Place {
        at: 6,
        written: "z",
        read: "yz",
    },
];

#[test]
fn a_disk_over_a_file_keeps_its_bytes_at_their_places(rt: HostRuntime) -> Result<(), Fail> {
    let name = "device_tests_disk";
    let mut options = OpenOptions::new();
    options.read(true).write(true).create_new(true);
    let mut disk = FileDisk::new(Some(options.open(&rt, name)?));
    assert!(rt; write_and_sync(&mut disk, 0, b"abcdef").is_ok());
    for place in &PLACES {
        assert!(rt; place.at >= 1 && disk.write_at(place.at, place.written.as_bytes()).is_ok());
        let mut into = [0; 3];
        let count = disk.read(place.at - 1, &mut into).unwrap_or(0);
        assert_eq!(rt; count, place.read.len(), "before {}", place.at);
        assert!(rt;
            into.starts_with(place.read.as_bytes()),
            "before {}",
            place.at
        );
    }
    assert!(rt; disk.sync().is_ok());
    assert_eq!(rt; disk.length().unwrap_or(0), 7);
    drop(disk);
    let mut disk = FileDisk::new(Some(File::open(&rt, name)?));
    let mut into = [0; 8];
    assert_eq!(rt; disk.read(1, &mut into).unwrap_or(0), 6);
    assert_eq!(rt; into, *b"bCdxyz\0\0");
    assert!(rt; disk.write_at(0, b"p").is_err(), "it is open to be read");
    assert_eq!(rt; disk.faults(), 1);
    fs::remove_file(&rt, name)?;
    Ok(())
}
