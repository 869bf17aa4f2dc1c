//! A whole input, read into memory.
ghost use Rattle.std.specs.Prelude.{◌≡◌, ◌≤◌, length, IfOk, IfSome};
ghost use Rattle.acl_ports.specs.Faults.{next_count};
ghost use Rattle.acl_program.specs.Streams.{IsReadWhole, IsCutBeyond, IsEndLeft, most_bytes};

use acl_ports::Source;
use std::alloc::Global;

/// The most bytes that an input may have: 16 MiB.
pub(crate) const MOST_BYTES: usize = 16_777_216;

// The most bytes that one read asks for. They stand on the stack.
const CHUNK: usize = 4096;

/// Why an input was not read to its end.
#[derive(Clone, Copy, Debug, PartialEq, Eq)]
pub(crate) enum InputFault {
    /// A read failed.
    Failed,
    /// There are more than `MOST_BYTES` bytes.
    TooLong,
    /// There was no memory for the bytes.
    NoMemory,
}

/// Reads a source to its end. Of an input that is too long it takes one byte more than `MOST_BYTES`, and
/// none behind it.
pub(crate) fn read_all<S: Source>(alloc: Global, source: &mut S) -> Result<Vec<u8>, InputFault>
    ensures ok { IfSome (S.left source.old) (λ bytes.
        IfOk result (λ read. IsReadWhole bytes read.items (S.left source.new))) }
    ensures within { IfOk result (λ read. length read.items ≤ most_bytes) }
    ensures too_long { result ≡ Err InputFault.TooLong →
        IfSome (S.left source.old) (λ bytes. IsCutBeyond most_bytes bytes (S.left source.new)) }
    ensures failed { result ≡ Err InputFault.Failed →
        next_count (S.faults source.old) ≤ S.faults source.new }
    ensures faults { S.faults source.old ≤ S.faults source.new }
    ensures left { IfSome (S.left source.old) (λ bytes. IsEndLeft bytes (S.left source.new)) }
{
    let mut bytes = Vec::new(alloc);
    let mut chunk = [0; CHUNK];
    while bytes.len() <= MOST_BYTES {
        let missing = MOST_BYTES + 1 - bytes.len();
        let room = missing.min(CHUNK);
        let count = source
            .read(&mut chunk[..room])
            .map_err(|_| InputFault::Failed)?;
        if count == 0 {
            return Ok(bytes);
        }
        bytes
            .extend_from_slice(&chunk[..count])
            .map_err(|_| InputFault::NoMemory)?;
    }
    Err(InputFault::TooLong)
}
