//! The record of an entry, ready to be written.

ghost use Rattle.std.specs.Prelude.{◌≡◌, ◌+◌, ◌<◌, ◌^◌, [], ◌∷◌, ◌++◌, length, IfOk, OnOk};
ghost use Rattle.canonical_texts.specs.Statements.{canonical_text};
ghost use Rattle.entry_bytes.specs.Spelling.{IsNumber, long_text, number_bytes};
ghost use Rattle.entry_codec.specs.ReadBack.{IsReadBack};

use acl_stmt::Entry;
use entry_bytes::encode;
use std::alloc::{AllocError, Global};

/// The record of an entry and a gate that is not open, without the record's own gate.
#[derive(Drop)]
pub struct Prepared {
    pub(crate) bytes: Vec<u8>,
}

impl Prepared {
    ghost use Rattle.acl_journal.specs.Journal.{IsPrepared};

    pub(crate) fn of(alloc: Global, entry: &Entry) -> Result<Prepared, AllocError>
        requires read_back { IsReadBack (canonical_text entry.now.statement) entry.now.statement }
        requires short { length (canonical_text entry.now.statement) < 2 ^ 32 }
        requires count { IsNumber (length entry.now.limits) }
        ensures { IfOk result (λ prepared. IsPrepared prepared entry.now) }
    {
        let payload = encode(alloc, entry)?;
        let bytes = record_behind_gate(alloc, payload.as_slice())?;
        Ok(Prepared { bytes })
    }
}

// The length of the payload, the payload and a gate that is not open. A payload that is too long for four bytes never fits
// a journal.
#[tactic(auto, using(entry_bytes::proofs::Once::number_length))]
fn record_behind_gate(alloc: Global, payload: &[u8]) -> Result<Vec<u8>, AllocError>
    ensures size { IfOk result (λ bytes. length bytes.items ≡ 5 + length payload.now) }
    ensures bytes { IfOk result (λ bytes. length payload.now < 2 ^ 32
        → bytes.items ≡ long_text payload.now ++ 0 ∷ []) }
{
    let mut bytes = Vec::new(alloc);
    append_number(&mut bytes, told_size(payload.len()))?;
    bytes.extend_from_slice(payload)?;
    bytes.extend_from_slice(&[0])?;
    Ok(bytes)
}

// The length as four bytes tell it.
fn told_size(count: usize) -> u32
    ensures { count < 2 ^ 32 → result ≡ count }
{
    count.min(u32::MAX as usize) as u32
}

#[tactic(auto, unfolding(entry_bytes::specs::Spelling::number_bytes))]
fn append_number(bytes: &mut Vec<u8>, number: u32) -> Result<(), AllocError>
    ensures { OnOk result (bytes.new.items ≡ bytes.old.items ++ number_bytes number) }
{
    bytes.extend_from_slice(&number.to_le_bytes())?;
    Ok(())
}
