ghost use Rattle.std.specs.Prelude.{◌≡◌, ◌==◌, ◌+◌, ◌<◌, ◌≤◌, ◌↔◌, ℕ, false, true, [], None, Some, length, slice_get, All, IfNone, IfOk, IfSome, IsTrue, OnOk};
ghost use Rattle.held_bits.specs.Bits.{are_none, no_bits, record_count, AreWithin};
ghost use Rattle.held_bits.specs.Clearing.{IsAt};
ghost use Rattle.held_bits.specs.HeldBits.{bits_at, has_thing, thing_count, uses_in, AreThings, ClearsHolder, CountsThings, CountsUses, IsFirstOf, IsSound, ReplacesAt, SetsBits};

use crate::Bits;
use crate::numbers::{number_for, release};
use crate::record::{Record, rank};
use crate::table::{bits_of, rank_start, write};
use acl_items::Copied;
use numbered_names::NumberedNames;
use std::alloc::{AllocError, Global};
use std::hash::Hash;
use std::marker::Model;

/// What holders, which are numbers, hold on things, which have names.
///
/// A thing is kept as long as some holder holds something on it. At most 2^32 - 1 pairs hold something at once.
#[derive(Drop)]
pub struct HeldBits<K: Eq + Hash> {
    things: NumberedNames<K>,
    // In order by holder, then by the number of the thing.
    records: Vec<Record>,
    // How many records each number has.
    uses: Vec<u32>,
}

impl<K: Eq + Hash> Model for HeldBits<K> {
    ghost use Rattle.std.specs.Prelude.{◌-◌, length, min, vec_capacity};
    ghost use Rattle.held_bits.specs.HeldBits.{Held, held_code};

    ghost Value = { Held K };

    ghost coded = { held_code K.code };

    ghost use Rattle.held_bits.specs.Records.{IsHeld, entries_of, record_limit};

    ghost view = { λ s. record {
      entries = entries_of s.things.names s.records.items;
      record_room = min record_limit (vec_capacity s.records) - length s.records.items;
      thing_room = min s.things.room (vec_capacity s.uses - length s.uses.items);
    } };

    ghost invariant = { λ s. IsHeld s.things.names s.records.items s.uses.items };
}

impl<K: Eq + Hash + Drop> HeldBits<K> {
    /// Nothing held, which takes no memory.
    pub fn new(alloc: Global) -> HeldBits<K>
        ensures entries { result.entries ≡ [] }
    {
        HeldBits {
            things: NumberedNames::new(alloc),
            records: Vec::new(alloc),
            uses: Vec::new(alloc),
        }
    }

    /// How many pairs of a holder and a thing hold something.
    pub fn len(&self) -> usize
        ensures { result ≡ length self.now.entries }
    {
        self.records.len()
    }

    /// Whether nothing is held.
    pub fn is_empty(&self) -> bool
        ensures { IsTrue result ↔ (length self.now.entries ≡ 0) }
    {
        self.len() == 0
    }

    /// How many things something is held on.
    pub fn things(&self) -> usize
        ensures { result ≡ thing_count K.eq self.now.entries }
    {
        self.things.has_each_name_once();
        self.things.len()
    }

    /// How many holders hold something on the thing.
    pub fn uses_of(&self, thing: &K) -> u32
        ensures { result ≡ uses_in K.eq self.now.entries thing.now }
    {
        self.things.has_each_name_once();
        match self.things.number_of(thing) {
            Some(number) => self.uses[number as usize],
            None => 0,
        }
    }

    /// What the holder holds on the thing.
    pub fn bits(&self, holder: u32, thing: &K) -> Bits
        ensures is { result ≡ bits_at K.eq self.now.entries holder thing.now }
        ensures within { AreWithin result }
    {
        self.things.has_each_name_once();
        match self.things.number_of(thing) {
            Some(number) => bits_of(&self.records, holder, number),
            None => Bits::none(),
        }
    }

    /// The things that something is held on, in no order that is promised.
    pub fn things_held(&self) -> &[K]
        ensures { AreThings K.eq self.now.entries result.now }
    {
        self.things.has_each_name_once();
        self.things.as_slice()
    }

    /// The place of the holder's first entry, or, where it has none, of the first one of a later holder.
    ///
    /// The holder's entries stand from there on, one after the other.
    pub fn first_of(&self, holder: u32) -> usize
        ensures { IsFirstOf self.now.entries holder result }
    {
        rank_start(&self.records, rank(holder, 0))
    }

    /// The holder, the thing and the bits of the entry at a place, None past the last.
    pub fn get(&self, place: usize) -> Option<(u32, &K, Bits)>
        ensures entry { IfSome result (λ found. slice_get self.now.entries place ≡
            Some (record { holder = found.0; thing = found.1.now; bits = found.2 })) }
        ensures none { IfNone result (length self.now.entries ≤ place) }
        ensures within { IfSome result (λ found. AreWithin found.2) }
    {
        let record = self.records.get(place)?;
        let thing = self.things.name_of(record.thing)?;
        Some((record.holder, thing, record.bits))
    }

    /// Makes room for so many pairs and so many things more. What is held stays, after an error too.
    ///
    /// An error comes for want of memory, and where more than 2^32 - 1 pairs or 2^32 things would stand.
    pub fn reserve(&mut self, pairs: u32, things: u32) -> Result<(), AllocError>
        ensures record_room { OnOk result (pairs ≤ self.new.record_room) }
        ensures thing_room { OnOk result (things ≤ self.new.thing_room) }
        ensures entries { self.new.entries ≡ self.old.entries }
        ensures kept_record_room { self.old.record_room ≤ self.new.record_room }
        ensures kept_thing_room { self.old.thing_room ≤ self.new.thing_room }
    {
        let pairs = pairs as usize;
        if pairs > u32::MAX as usize - self.records.len() {
            return Err(AllocError);
        }
        self.records.reserve(pairs)?;
        self.uses.reserve(things as usize)?;
        self.things.reserve(things)
    }

    /// Sets what the holder holds on the thing, in memory that was reserved.
    pub fn set(&mut self, holder: u32, thing: K, bits: Bits)
        requires record_room { 0 < self.old.record_room }
        requires thing_room { 0 < self.old.thing_room }
        ensures bits { SetsBits K.eq self.old.entries self.new.entries holder thing bits }
        ensures count { length self.new.entries + record_count (bits_at K.eq self.old.entries holder thing) ≡
            length self.old.entries + record_count bits }
        ensures uses { CountsUses K.eq self.old.entries self.new.entries thing
            (bits_at K.eq self.old.entries holder thing) bits }
        ensures things { CountsThings K.eq self.old.entries self.new.entries thing }
        ensures record_room { self.new.record_room + length self.new.entries ≡
            self.old.record_room + length self.old.entries }
        ensures thing_room { self.old.thing_room ≤ self.new.thing_room + 1 }
        ensures known_thing { has_thing K.eq self.old.entries thing ≡ true → self.old.thing_room ≤ self.new.thing_room }
    {
        if bits.are_none() {
            self.clear(holder, &thing);
        } else {
            let number = number_for(&mut self.things, &mut self.uses, thing);
            self.things.has_each_name_once();
            write(&mut self.records, &mut self.uses, holder, number, bits);
        }
    }

    /// Sets what the holder holds on the thing, where it holds something. It takes no room.
    pub fn replace(&mut self, holder: u32, thing: &K, bits: Bits)
        requires { are_none (bits_at K.eq self.old.entries holder thing.now) ≡ false }
        ensures bits { SetsBits K.eq self.old.entries self.new.entries holder thing.now bits }
        ensures count { length self.new.entries + record_count (bits_at K.eq self.old.entries holder thing.now) ≡
            length self.old.entries + record_count bits }
        ensures uses { CountsUses K.eq self.old.entries self.new.entries thing.now
            (bits_at K.eq self.old.entries holder thing.now) bits }
        ensures things { CountsThings K.eq self.old.entries self.new.entries thing.now }
        ensures record_room { self.new.record_room + length self.new.entries ≡
            self.old.record_room + length self.old.entries }
        ensures thing_room { self.old.thing_room ≤ self.new.thing_room }
    {
        self.change(holder, thing, bits);
    }

    /// Takes away all that the holder holds on the thing. It takes no room.
    pub fn clear(&mut self, holder: u32, thing: &K)
        ensures bits { SetsBits K.eq self.old.entries self.new.entries holder thing.now no_bits }
        ensures count { length self.new.entries + record_count (bits_at K.eq self.old.entries holder thing.now) ≡
            length self.old.entries }
        ensures uses { CountsUses K.eq self.old.entries self.new.entries thing.now
            (bits_at K.eq self.old.entries holder thing.now) no_bits }
        ensures things { CountsThings K.eq self.old.entries self.new.entries thing.now }
        ensures record_room { self.new.record_room + length self.new.entries ≡
            self.old.record_room + length self.old.entries }
        ensures thing_room { self.old.thing_room ≤ self.new.thing_room }
    {
        self.change(holder, thing, Bits::none());
    }

    /// Sets the bits of the entry at a place. Where they are none the entry goes, and those behind it move up. It takes no
    /// room.
    pub fn replace_at(&mut self, place: usize, bits: Bits)
        requires { place < length self.old.entries }
        ensures entry { ReplacesAt K.eq self.old.entries self.new.entries place bits }
        ensures count { length self.new.entries + 1 ≡ length self.old.entries + record_count bits }
        ensures record_room { self.new.record_room + length self.new.entries ≡
            self.old.record_room + length self.old.entries }
        ensures thing_room { self.old.thing_room ≤ self.new.thing_room }
    {
        self.things.has_each_name_once();
        let record = self.records[place];
        write(
            &mut self.records,
            &mut self.uses,
            record.holder,
            record.thing,
            bits,
        );
        release(&mut self.things, &self.uses, record.thing);
    }

    /// Takes away all that the holder holds. It takes no room.
    pub fn clear_holder(&mut self, holder: u32)
        ensures holder { ClearsHolder K.eq self.old.entries self.new.entries holder }
        ensures record_room { self.new.record_room + length self.new.entries ≡
            self.old.record_room + length self.old.entries }
        ensures thing_room { self.old.thing_room ≤ self.new.thing_room }
    {
        while let Some(place) = self.place_of(holder) {
            self.is_sound();
            self.replace_at(place, Bits::none());
        }
    }

    // The place of the holder's first entry, None where it has none.
    fn place_of(&self, holder: u32) -> Option<usize>
        ensures is { IfSome result (λ place. IsAt self.now.entries holder place) }
        ensures none { IfNone result (All (λ entry. (holder == entry.holder) ≡ false) self.now.entries) }
    {
        let place = self.first_of(holder);
        self.is_sound();
        match self.get(place) {
            Some((other, _, _)) if other == holder => Some(place),
            _ => None,
        }
    }

    // Sets what the holder holds on the thing, where that takes no room.
    fn change(&mut self, holder: u32, thing: &K, bits: Bits)
        requires { are_none bits ≡ false → are_none (bits_at K.eq self.old.entries holder thing.now) ≡ false }
        ensures bits { SetsBits K.eq self.old.entries self.new.entries holder thing.now bits }
        ensures count { length self.new.entries + record_count (bits_at K.eq self.old.entries holder thing.now) ≡
            length self.old.entries + record_count bits }
        ensures uses { CountsUses K.eq self.old.entries self.new.entries thing.now
            (bits_at K.eq self.old.entries holder thing.now) bits }
        ensures things { CountsThings K.eq self.old.entries self.new.entries thing.now }
        ensures record_room { self.new.record_room + length self.new.entries ≡
            self.old.record_room + length self.old.entries }
        ensures thing_room { self.old.thing_room ≤ self.new.thing_room }
    {
        self.things.has_each_name_once();
        if let Some(number) = self.things.number_of(thing) {
            write(&mut self.records, &mut self.uses, holder, number, bits);
            release(&mut self.things, &self.uses, number);
        }
    }

    /// The law that no pair has two entries, that none is empty, and that a holder's entries stand side by side. It does
    /// nothing when it runs.
    pub fn is_sound(&self)
        ensures { IsSound K.eq self.now.entries }
    {
        self.things.has_each_name_once();
    }
}

impl<K: Eq + Hash + Copied> HeldBits<K> {
    /// The same entries, in memory of their own.
    pub fn copy(&self, alloc: Global) -> Result<HeldBits<K>, AllocError>
        ensures { IfOk result (λ made. made.entries ≡ self.now.entries) }
    {
        Ok(HeldBits {
            things: self.things.copy(alloc)?,
            records: Vec::from_slice(alloc, &self.records)?,
            uses: Vec::from_slice(alloc, &self.uses)?,
        })
    }
}
