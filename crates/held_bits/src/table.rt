//! Records in order by holder and number, beside how many of them each number has.
ghost use Rattle.std.specs.Prelude.{◌≡◌, ◌+◌, ◌-◌, ◌<◌, ◌≤◌, ℕ, false, true, length, slice_index, slice_set, vec_capacity, vec_len, IfErr, IfOk};
ghost use Rattle.std.specs.List.{insert, remove, slice_index_or};
ghost use Rattle.held_bits.specs.declared.record.Record.{Record};
ghost use Rattle.held_bits.specs.Bits.{are_none, AreWithin};
ghost use Rattle.held_bits.specs.Records.{AreUses, IsTable, IsWithin, bits_in, number_uses, rank as rank_of, record_limit};
ghost use Rattle.held_bits.specs.Written.{FitsAt, IsWritten, StandsAt};

use crate::Bits;
use crate::record::{Record, rank};

// The place of the first record whose rank is not below this one.
pub fn rank_start(records: &[Record], bound: u64) -> usize
    requires { IsTable records.now }
    ensures within { result ≤ length records.now }
    ensures before { (k : ℕ) (d : Record) → k < result → rank_of (slice_index_or records.now k d) < bound }
    ensures after { (k : ℕ) (d : Record) → result ≤ k → k < length records.now →
        bound ≤ rank_of (slice_index_or records.now k d) }
{
    records.partition_point(|record| record.rank() < bound)
}

// Where the record of the holder and the number stands, or where it would.
pub fn place_of(records: &[Record], holder: u32, thing: u32) -> Result<usize, usize>
    requires { IsTable records.now }
    ensures stands { IfOk result (StandsAt records.now holder thing) }
    ensures fits { IfErr result (FitsAt records.now holder thing) }
{
    let place = rank_start(records, rank(holder, thing));
    match records.get(place) {
        Some(found) if found.holder == holder && found.thing == thing => Ok(place),
        _ => Err(place),
    }
}

// What the holder holds on the thing of the number.
pub fn bits_of(records: &[Record], holder: u32, thing: u32) -> Bits
    requires { IsTable records.now }
    ensures is { result ≡ bits_in records.now holder thing }
    ensures within { AreWithin result }
{
    match place_of(records, holder, thing) {
        Ok(place) => records[place].bits,
        Err(_) => Bits::none(),
    }
}

// Puts a record at a place, and counts it.
fn put_in(records: &mut Vec<Record>, uses: &mut Vec<u32>, place: usize, added: Record)
    requires inside { place ≤ vec_len records.old }
    requires room { vec_len records.old < vec_capacity records.old }
    requires thing { added.thing < vec_len uses.old }
    requires few { slice_index uses.old.items added.thing < record_limit }
    ensures items { records.new.items ≡ insert records.old.items place added }
    ensures uses { uses.new.items ≡ slice_set uses.old.items added.thing
        (slice_index uses.old.items added.thing + 1) }
    ensures capacity { vec_capacity records.new ≡ vec_capacity records.old }
    ensures uses_capacity { vec_capacity uses.new ≡ vec_capacity uses.old }
{
    records.insert(place, added).unwrap();
    uses[added.thing as usize] += 1;
}

// Puts bits in place of those of a record.
fn overwrite(records: &mut Vec<Record>, place: usize, bits: Bits)
    requires { place < vec_len records.old }
    ensures items { (d : Record) → records.new.items ≡
        slice_set records.old.items place (record (slice_index_or records.old.items place d) { bits = bits }) }
    ensures capacity { vec_capacity records.new ≡ vec_capacity records.old }
{
    records[place].bits = bits;
}

// Takes out the record at a place, and counts it no more.
fn take_out(records: &mut Vec<Record>, uses: &mut Vec<u32>, place: usize, thing: u32)
    requires inside { place < vec_len records.old }
    requires thing { thing < vec_len uses.old }
    requires used { 0 < slice_index uses.old.items thing }
    ensures items { records.new.items ≡ remove records.old.items place }
    ensures uses { uses.new.items ≡ slice_set uses.old.items thing (slice_index uses.old.items thing - 1) }
    ensures capacity { vec_capacity records.new ≡ vec_capacity records.old }
    ensures uses_capacity { vec_capacity uses.new ≡ vec_capacity uses.old }
{
    records.remove(place);
    uses[thing as usize] -= 1;
}

// Sets what the holder holds on the thing of the number. A record without bits goes.
pub fn write(records: &mut Vec<Record>, uses: &mut Vec<u32>, holder: u32, thing: u32, bits: Bits)
    requires table { IsTable records.old.items }
    requires uses { AreUses records.old.items uses.old.items }
    requires thing { thing < vec_len uses.old }
    requires few { vec_len records.old ≤ record_limit }
    requires room { are_none (bits_in records.old.items holder thing) ≡ true → are_none bits ≡ false →
        vec_len records.old < vec_capacity records.old }
    requires limit { are_none (bits_in records.old.items holder thing) ≡ true → are_none bits ≡ false →
        vec_len records.old < record_limit }
    ensures written { IsWritten records.old.items records.new.items uses.old.items uses.new.items holder thing bits }
    ensures capacity { vec_capacity records.new ≡ vec_capacity records.old }
    ensures uses_capacity { vec_capacity uses.new ≡ vec_capacity uses.old }
{
    match place_of(records, holder, thing) {
        Ok(place) if bits.are_none() => take_out(records, uses, place, thing),
        Ok(place) => overwrite(records, place, bits),
        Err(_) if bits.are_none() => {}
        Err(place) => put_in(
            records,
            uses,
            place,
            Record {
                holder,
                thing,
                bits,
            },
        ),
    }
}
