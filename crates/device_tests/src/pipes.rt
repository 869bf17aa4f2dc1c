//! Sources and sinks in memory, and over readers and writers that fail.
ghost use Rattle.std.specs.Prelude.{◌≤◌, IfOk};

use acl_ports::{Failed, MemorySink, MemorySource, Sink, Source, StdSink, StdSource};
use std::io;
use std::io::{Read, Write};
use std::test::Fail;

// How many bytes are asked for or put, and those that are moved; None where the call fails.
struct Call {
    bytes: &'static str,
    moved: Option<&'static str>,
}

static READS: [Call; 5] = [
    Call {
        bytes: "....",
        moved: Some("ab"),
    },
    Call {
        bytes: "....",
        moved: None,
    },
    Call {
        bytes: ".",
        moved: Some("c"),
    },
    Call {
        bytes: "...",
        moved: Some("de"),
    },
    Call {
        bytes: "...",
        moved: Some(""),
    },
];

#[test]
fn a_source_gives_pieces_and_fails_once(rt: HostRuntime) -> Result<(), Fail> {
    let alloc = rt.alloc();
    let failing = [1].to_vec(alloc)?;
    let mut source = MemorySource::new(b"abcde".to_vec(alloc)?, 2, failing);
    for call in &READS {
        let mut into = [0; 4];
        assert!(rt; call.bytes.len() <= 4);
        let answer = source.read(&mut into[..call.bytes.len()]);
        let moved = call.moved.unwrap_or("");
        assert_eq!(rt; answer.is_ok(), call.moved.is_some());
        assert_eq!(rt; answer.unwrap_or(0), moved.len());
        assert!(rt; into.starts_with(moved.as_bytes()));
    }
    assert_eq!(rt; source.faults(), 1);
    Ok(())
}

static PUTS: [Call; 4] = [
    Call {
        bytes: "history 0",
        moved: Some("his"),
    },
    Call {
        bytes: "tory 0",
        moved: None,
    },
    Call {
        bytes: "tory 0",
        moved: Some("tor"),
    },
    Call {
        bytes: "y",
        moved: Some("y"),
    },
];

#[test]
fn a_sink_takes_pieces_and_fails_once(rt: HostRuntime) -> Result<(), Fail> {
    let alloc = rt.alloc();
    let mut sink = MemorySink::new(alloc, 3, 9, [1].to_vec(alloc)?)?;
    for call in &PUTS {
        let answer = sink.put(call.bytes.as_bytes());
        assert_eq!(rt; answer.is_ok(), call.moved.is_some());
        assert_eq!(rt; answer.unwrap_or(0), call.moved.unwrap_or("").len());
    }
    assert_eq!(rt; sink.written(), b"history".as_slice());
    assert_eq!(rt; sink.faults(), 1);
    Ok(())
}

// Fails at its second call, and takes no byte at its third.
#[derive(Drop)]
struct Flaky {
    calls: u8,
}

impl Flaky {
    fn count(&mut self, size: usize) -> io::Result<usize>
        ensures { IfOk result (λ count. count ≤ size) }
    {
        self.calls = self.calls.saturating_add(1);
        match self.calls {
            2 => Err(io::Error::from(io::ErrorKind::Other)),
            3 => Ok(0),
            _ => Ok(size),
        }
    }
}

impl Read for Flaky {
    fn read(&mut self, into: &mut [u8]) -> io::Result<usize> {
        self.count(into.len())
    }
}

impl Write for Flaky {
    fn write(&mut self, bytes: &[u8]) -> io::Result<usize> {
        self.count(bytes.len())
    }

    fn flush(&mut self) -> io::Result<()> {
        Ok(())
    }
}

// What a source over it gives, and what a sink takes; 9 where the call fails.
static ANSWERS: [[usize; 2]; 4] = [[2, 2], [9, 9], [0, 9], [2, 2]];

#[test]
fn one_call_that_fails_is_a_fault(rt: HostRuntime) {
    let mut source = StdSource::new(Some(Flaky { calls: 0 }));
    let mut sink = StdSink::new(Some(Flaky { calls: 0 }));
    for answers in &ANSWERS {
        let given = source.read(&mut [0; 2]).unwrap_or(9);
        let taken = sink.put(b"ab").unwrap_or(9);
        assert_eq!(rt; [given, taken], *answers);
    }
    assert_eq!(rt; [source.faults(), sink.faults()], [1, 2]);
}
