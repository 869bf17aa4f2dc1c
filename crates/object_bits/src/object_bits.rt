ghost use Rattle.std.specs.Prelude.{◌≡◌, ◌+◌, ◌<◌, ◌≤◌, ◌↔◌, false, true, [], Some, length, slice_get, All, IfNone, IfOk, IfSome, IsTrue, OnOk};
ghost use Rattle.std.specs.List.{list_any};
ghost use Rattle.held_bits.specs.Bits.{are_none, record_count};
ghost use Rattle.held_bits.specs.HeldBits.{bits_at, is_on, IsFirstOf, IsSound, SetsBits};
ghost use Rattle.object_bits.specs.Kept.{only_granted};
ghost use Rattle.object_bits.specs.Objects.{same_object};
ghost use Rattle.object_bits.specs.Seen.{seen};

use crate::held::{are_sound, bits_of, replace_bits, set_bits};
use crate::key::Key;
use crate::keys::{give_back_key, key_of, object_at, take_key};
use crate::names::CountedNames;
use crate::{Object, ObjectRef};
use held_bits::HeldBits;
use std::alloc::{AllocError, Global};
use std::marker::Model;

/// What holders, which are numbers, hold on objects.
///
/// An object and its names are kept as long as some holder holds something on it. At most 2^32 - 1 pairs hold something
/// at once. Nothing is ever restricted.
///
/// MySQL 8.0 Reference Manual, "Grant Tables".
#[derive(Drop)]
pub struct ObjectBits {
    names: CountedNames,
    bits: HeldBits<Key>,
}

impl Model for ObjectBits {
    ghost use Rattle.std.specs.Prelude.{◌-◌, ◌/◌, length, min};
    ghost use Rattle.held_bits.specs.HeldBits.{Held};
    ghost use Rattle.object_bits.specs.declared.object.Object.{Object};

    ghost Value = { Held Object };

    ghost use Rattle.held_bits.specs.Records.{record_limit};
    ghost use Rattle.object_bits.specs.Keys.{on_objects};
    ghost use Rattle.object_bits.specs.Kept.{IsKept};

    ghost view = { λ s. record {
      entries = on_objects s.names.names s.bits.entries;
      record_room = min s.bits.record_room (record_limit - length s.bits.entries);
      thing_room = min s.bits.thing_room (s.names.room / 3);
    } };

    ghost invariant = { λ s. IsKept s.names.uses s.bits.entries };
}

impl ObjectBits {
    /// Nothing held, which takes no memory.
    pub fn new(alloc: Global) -> ObjectBits
        ensures entries { result.entries ≡ [] }
    {
        ObjectBits {
            names: CountedNames::new(alloc),
            bits: HeldBits::new(alloc),
        }
    }

    /// How many pairs of a holder and an object hold something.
    pub fn len(&self) -> usize
        ensures { result ≡ length self.now.entries }
    {
        self.bits.len()
    }

    /// Whether nothing is held.
    pub fn is_empty(&self) -> bool
        ensures { IsTrue result ↔ (length self.now.entries ≡ 0) }
    {
        self.len() == 0
    }

    /// What the holder holds on the object: a bit for each privilege.
    pub fn bits(&self, holder: u32, object: ObjectRef) -> u32
        ensures is { result ≡ (bits_at same_object self.now.entries holder (seen object.entry)).granted }
    {
        self.names.are_counted();
        match key_of(&self.names, object) {
            Some(key) => bits_of(&self.bits, holder, key).granted,
            None => 0,
        }
    }

    /// The place of the holder's first entry, or, where it has none, of the first one of a later holder.
    ///
    /// The holder's entries stand from there on, one after the other.
    pub fn first_of(&self, holder: u32) -> usize
        ensures { IsFirstOf self.now.entries holder result }
    {
        self.bits.first_of(holder)
    }

    /// The holder, the object and the bits of the entry at a place, None past the last.
    pub fn get(&self, place: usize) -> Option<(u32, ObjectRef<'_>, u32)>
        ensures entry { IfSome result (λ found. slice_get self.now.entries place ≡
            Some (record { holder = found.0; thing = seen found.1; bits = only_granted found.2 })) }
        ensures none { IfNone result (length self.now.entries ≤ place) }
    {
        self.names.are_counted();
        are_sound(&self.bits);
        let (holder, key, bits) = self.bits.get(place)?;
        let object = object_at(&self.names, *key)?;
        Some((holder, object, bits.granted))
    }

    /// Makes room for so many pairs and so many objects more. What is held stays, after an error too.
    ///
    /// An error comes for want of memory, and where more than 2^32 - 1 pairs or 2^32 objects or names would stand; each
    /// object may have three names of its own.
    pub fn reserve(&mut self, pairs: u32, objects: u32) -> Result<(), AllocError>
        ensures record_room { OnOk result (pairs ≤ self.new.record_room) }
        ensures thing_room { OnOk result (objects ≤ self.new.thing_room) }
        ensures entries { self.new.entries ≡ self.old.entries }
        ensures kept_record_room { self.old.record_room ≤ self.new.record_room }
        ensures kept_thing_room { self.old.thing_room ≤ self.new.thing_room }
    {
        if pairs as usize > u32::MAX as usize - self.bits.len() {
            return Err(AllocError);
        }
        self.names
            .reserve(objects.checked_mul(3).ok_or(AllocError)?)?;
        self.bits.reserve(pairs, objects)
    }

    /// Sets what the holder holds on the object, in memory that was reserved.
    pub fn put(&mut self, holder: u32, object: Object, granted: u32)
        requires record_room { 0 < self.old.record_room }
        requires thing_room { 0 < self.old.thing_room }
        ensures bits { SetsBits same_object self.old.entries self.new.entries holder object (only_granted granted) }
        ensures count { length self.new.entries + record_count (bits_at same_object self.old.entries holder object) ≡
            length self.old.entries + record_count (only_granted granted) }
        ensures record_room { self.new.record_room + length self.new.entries ≡
            self.old.record_room + length self.old.entries }
        ensures thing_room { self.old.thing_room ≤ self.new.thing_room + 1 }
        ensures known_thing { list_any (is_on same_object object) self.old.entries ≡ true →
            self.old.thing_room ≤ self.new.thing_room }
    {
        if granted == 0 {
            self.change(holder, object.by_reference(), granted);
        } else {
            self.names.are_counted();
            let key = take_key(&mut self.names, object);
            self.names.are_counted();
            let held = bits_of(&self.bits, holder, key);
            set_bits(&mut self.bits, holder, key, granted);
            if !held.are_none() {
                give_back_key(&mut self.names, key);
            }
        }
    }

    /// Sets what the holder holds on the object, where it holds something. It takes no room.
    pub fn replace(&mut self, holder: u32, object: ObjectRef, granted: u32)
        requires { are_none (bits_at same_object self.old.entries holder (seen object)) ≡ false }
        ensures bits { SetsBits same_object self.old.entries self.new.entries holder (seen object.entry)
            (only_granted granted) }
        ensures count { length self.new.entries +
            record_count (bits_at same_object self.old.entries holder (seen object.entry)) ≡
            length self.old.entries + record_count (only_granted granted) }
        ensures record_room { self.new.record_room + length self.new.entries ≡
            self.old.record_room + length self.old.entries }
        ensures thing_room { self.old.thing_room ≤ self.new.thing_room }
    {
        self.change(holder, object, granted);
    }

    // Sets what the holder holds on the object, where that takes no room.
    fn change(&mut self, holder: u32, object: ObjectRef, granted: u32)
        requires { are_none (only_granted granted) ≡ false →
            are_none (bits_at same_object self.old.entries holder (seen object)) ≡ false }
        ensures bits { SetsBits same_object self.old.entries self.new.entries holder (seen object.entry)
            (only_granted granted) }
        ensures count { length self.new.entries +
            record_count (bits_at same_object self.old.entries holder (seen object.entry)) ≡
            length self.old.entries + record_count (only_granted granted) }
        ensures record_room { self.new.record_room + length self.new.entries ≡
            self.old.record_room + length self.old.entries }
        ensures thing_room { self.old.thing_room ≤ self.new.thing_room }
    {
        self.names.are_counted();
        if let Some(key) = key_of(&self.names, object) {
            if !bits_of(&self.bits, holder, key).are_none() {
                replace_bits(&mut self.bits, holder, key, granted);
                if granted == 0 {
                    give_back_key(&mut self.names, key);
                }
            }
        }
    }

    /// The law that no pair has two entries, that none is empty or restricted, and that a holder's entries stand side by
    /// side. It does nothing when it runs.
    pub fn is_sound(&self)
        ensures sound { IsSound same_object self.now.entries }
        ensures unrestricted { All (λ entry. entry.bits.restricted ≡ 0) self.now.entries }
    {
        self.names.are_counted();
        are_sound(&self.bits);
    }

    /// The same entries, in memory of their own.
    pub fn copy(&self, alloc: Global) -> Result<ObjectBits, AllocError>
        ensures { IfOk result (λ made. made.entries ≡ self.now.entries) }
    {
        Ok(ObjectBits {
            names: self.names.copy(alloc)?,
            bits: self.bits.copy(alloc)?,
        })
    }
}
