//! How bytes are read.
ghost use Rattle.entry_bytes.specs.Spelling.{HasBytes};

use acl_stmt::Entry;
use entry_bytes::encode;
use entry_reading::{DecodeRefusal, decode};
use std::alloc::Global;

#[derive(Clone, Copy, Debug, PartialEq, Eq)]
pub(crate) enum Answer {
    /// As an entry that is written as these bytes again.
    Entry,
    /// As an entry that is written otherwise.
    Other,
    /// As none: the first fault is so many bytes from the start.
    Bad(u32),
    NoMemory,
    TooLong,
}

pub(crate) fn read_as(alloc: Global, bytes: &[u8]) -> Answer {
    if bytes.len() > 4294967295 {
        return Answer::TooLong;
    }
    match decode(alloc, bytes) {
        Ok(entry) => again(alloc, &entry, bytes),
        Err(DecodeRefusal::BadEntry { offset }) => Answer::Bad(offset),
        Err(DecodeRefusal::NoMemory) => Answer::NoMemory,
    }
}

fn again(alloc: Global, entry: &Entry, bytes: &[u8]) -> Answer
    requires { HasBytes entry.now }
{
    match encode(alloc, entry) {
        Ok(written) => {
            if written.as_slice() == bytes {
                Answer::Entry
            } else {
                Answer::Other
            }
        }
        Err(_) => Answer::NoMemory,
    }
}
