//! A journal over a disk.

ghost use Rattle.std.specs.Prelude.{◌≡◌, ◌⊎◌, ◌+◌, ◌<◌, ◌≤◌, ◌^◌, ℕ, List, [], ◌∷◌, ◌++◌, false, true, length, IfErr, IfOk, IsOk, OnErr, OnOk};
ghost use Rattle.std.specs.Option.{ForSome};
ghost use Rattle.acl_model.specs.State.{State};
ghost use Rattle.acl_ports.specs.Faults.{HasCause, next_count};
ghost use Rattle.acl_stmt.specs.declared.entry.Entry.{Entry};
ghost use Rattle.canonical_texts.specs.Statements.{canonical_text};
ghost use Rattle.entry_bytes.specs.Spelling.{IsNumber};
ghost use Rattle.entry_codec.specs.ReadBack.{IsReadBack};
ghost use Rattle.journal_bytes.specs.Files.{StandsEitherWay, StandsFor, file_size, most_bytes};
ghost use Rattle.journal_disk.specs.Held.{HasBytesUpTo, Leaves};

use crate::Prepared;
use crate::gate::LastGate;
use acl_ports::{Disk, Failed};
use acl_stmt::Entry;
use journal_disk::{set_gate, write_behind, write_header};
use std::alloc::{AllocError, Global};

// The offset of the first gate.
const FIRST_GATE: u64 = 8;

/// The accepted entries of an account system on a disk, the oldest first. Only where its last gate is stands in memory.
///
/// While the journal is unsettled, the entry of the last append may or may not be on the disk.
#[derive(Drop)]
pub struct Journal<D: Disk> {
    pub(crate) disk: D,
    pub(crate) gate: LastGate,
    pub(crate) settled: bool,
}

impl<D: Disk> Journal<D> {
    ghost use Rattle.acl_journal.specs.Journal.{Appends, IsPrepared, IsSettledFor, IsUnsettledFor, disk_of, is_settled, size_after, size_of};

    /// A journal without entries, on a disk of length 0. An error hands the disk back, and nothing is claimed of its bytes.
    pub fn format(mut disk: D) -> Result<Journal<D>, (Failed, D)>
        requires { ForSome (D.content disk) (λ held. held ≡ []) }
        ensures ok { IfOk result (λ journal. (start : State)
            → IsSettledFor D.content D.moment D.pending start journal []) }
        ensures place { IfOk result (λ journal. HasBytesUpTo (D.content (disk_of journal)) (size_of journal)) }
        ensures kept { IfOk result (λ journal. D.faults disk ≤ D.faults (disk_of journal)) }
        ensures cause { IfErr result (λ refused. next_count (D.faults disk) ≤ D.faults refused.1) }
    {
        match write_header(&mut disk) {
            Ok(()) => Ok(Journal {
                disk,
                gate: LastGate { offset: FIRST_GATE },
                settled: true,
            }),
            Err(failed) => Err((failed, disk)),
        }
    }

    /// The record of an entry, ready to be appended.
    pub fn prepare(&self, alloc: Global, entry: &Entry) -> Result<Prepared, AllocError>
        requires read_back { IsReadBack (canonical_text entry.now.statement) entry.now.statement }
        requires short { length (canonical_text entry.now.statement) < 2 ^ 32 }
        requires count { IsNumber (length entry.now.limits) }
        ensures { IfOk result (λ prepared. IsPrepared prepared entry.now) }
    {
        Prepared::of(alloc, entry)
    }

    /// How many bytes the file has with the entry, up to and with its last gate.
    pub fn bytes_after(&self, prepared: &Prepared) -> u64
        ensures size { result ≡ size_after self.now prepared.now }
        ensures list { (entries : List Entry) (entry : Entry) → size_of self.now ≡ file_size entries
            → IsPrepared prepared.now entry → result ≡ file_size (entries ++ entry ∷ []) }
    {
        self.gate.offset + 1 + prepared.bytes.len() as u64
    }

    /// Adds the entry behind the last one. It takes no memory. An error leaves the journal settled where the gate was not
    /// yet written, and else unsettled.
    pub fn append(&mut self, prepared: &Prepared) -> Result<(), Failed>
        requires place { HasBytesUpTo (D.content (disk_of self.old)) (size_of self.old) }
        requires settled { is_settled self.old ≡ true }
        requires small { size_after self.old prepared.now ≤ most_bytes }
        ensures ok { OnOk result ((start : State) (entries : List Entry) (entry : Entry)
            → Appends D.content D.moment D.pending start self.old entries prepared.now entry
            → IsSettledFor D.content D.moment D.pending start self.new (entries ++ entry ∷ [])) }
        ensures err { OnErr result ((start : State) (entries : List Entry) (entry : Entry)
            → Appends D.content D.moment D.pending start self.old entries prepared.now entry
            → IsSettledFor D.content D.moment D.pending start self.new entries
            ⊎ IsUnsettledFor D.content D.moment D.pending start self.new entries entry) }

        // A crash at any moment of the call leaves a file of the list or of the list with the entry.
        ensures any_moment { (start : State) (entries : List Entry) (entry : Entry)
            → Appends D.content D.moment D.pending start self.old entries prepared.now entry
            → Leaves D.content D.moment D.pending (disk_of self.old) (disk_of self.new) (λ image.
            StandsFor start image entries ⊎ StandsFor start image (entries ++ entry ∷ [])) }
        ensures settled { OnOk result (is_settled self.new ≡ true) }
        ensures place { HasBytesUpTo (D.content (disk_of self.new)) (size_of self.new) }
        ensures cause { HasCause (D.faults (disk_of self.old)) (D.faults (disk_of self.new)) result }
    {
        write_behind(&mut self.disk, self.gate.offset, prepared.bytes.as_slice())?;
        self.settled = false;
        set_gate(&mut self.disk, self.gate.offset, 1)?;
        self.settled = true;
        self.gate = LastGate {
            offset: self.gate.offset + prepared.bytes.len() as u64,
        };
        Ok(())
    }

    /// Whether it is known which entries are on the disk.
    pub fn settled(&self) -> bool
        ensures { result ≡ is_settled self.now }
    {
        self.settled
    }

    /// Takes back the entry of an append that failed, where it may be on the disk. It takes no memory.
    pub fn settle(&mut self) -> Result<(), Failed>
        requires { HasBytesUpTo (D.content (disk_of self.old)) (size_of self.old) }

        // A settled journal stays as it is, and nothing of the disk is called.
        ensures quiet { is_settled self.old ≡ true → IsOk result × (self.new ≡ self.old) }
        ensures ok { OnOk result ((start : State) (entries : List Entry) (entry : Entry)
            → IsUnsettledFor D.content D.moment D.pending start self.old entries entry
            → IsSettledFor D.content D.moment D.pending start self.new entries) }
        ensures err { OnErr result ((start : State) (entries : List Entry) (entry : Entry)
            → IsUnsettledFor D.content D.moment D.pending start self.old entries entry
            → IsUnsettledFor D.content D.moment D.pending start self.new entries entry) }
        ensures any_moment { (start : State) (entries : List Entry) (entry : Entry)
            → IsUnsettledFor D.content D.moment D.pending start self.old entries entry
            → Leaves D.content D.moment D.pending (disk_of self.old) (disk_of self.new) (λ image.
            StandsFor start image entries ⊎ StandsFor start image (entries ++ entry ∷ [])) }
        ensures settled { OnOk result (is_settled self.new ≡ true) }
        ensures unsettled { OnErr result (is_settled self.new ≡ false) }
        ensures place { HasBytesUpTo (D.content (disk_of self.new)) (size_of self.new) }
        ensures cause { HasCause (D.faults (disk_of self.old)) (D.faults (disk_of self.new)) result }
    {
        if self.settled {
            return Ok(());
        }
        set_gate(&mut self.disk, self.gate.offset, 0)?;
        self.settled = true;
        Ok(())
    }

    /// The disk, as it is.
    pub fn into_disk(self) -> D
        ensures { result ≡ disk_of self }
    {
        self.disk
    }
}
