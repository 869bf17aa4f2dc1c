ghost use Rattle.std.specs.Prelude.{◌≡◌, ◌+◌, ◌<◌, ◌≤◌, ◌↔◌, ℕ, [], None, Some, count_by, is_some, length, max, IfNone, IfOk, IsSome, IsTrue, OnOk};
ghost use Rattle.std.specs.Option.{option_copied};
ghost use Rattle.numbered_names.specs.Numbered.{ChangesOnly, HasEachOnce, IsListOf, IsNew, is_name, name_at};

use crate::set::{copy_of, push, replace};
use crate::tables::{exchange, first_free};
use acl_items::Copied;
use indexmap::IndexSet;
use std::alloc::{AllocError, Global};
use std::hash::Hash;
use std::marker::Model;

/// Names, each with a number that stays while the name stands. A number that is free again is given before a new one;
/// which of several free ones is left open.
///
/// Each call looks up a name by its hash or a number by its place, and walks no list. Only `copy` goes through all names.
#[derive(Drop)]
pub struct NumberedNames<K: Eq + Hash> {
    names: IndexSet<K>,
    // The number of the name at each place, and behind them the numbers that are free.
    numbers: Vec<u32>,
    // The place of each number in `numbers`.
    places: Vec<u32>,
}

impl<K: Eq + Hash> Model for NumberedNames<K> {
    ghost use Rattle.std.specs.Prelude.{min, vec_capacity};
    ghost use Rattle.indexmap.specs.IndexSet.{spare, index_set_len};
    ghost use Rattle.numbered_names.specs.Numbered.{Numbered, numbered_code};
    ghost use Rattle.numbered_names.specs.Tables.{IsNumbering, names_by_number, spare_numbers};

    ghost Value = { Numbered K };

    ghost coded = { numbered_code K.code };

    ghost view = { λ s. record {
      names = names_by_number s.names.keys s.places.items;
      room = min (spare s.names)
          (spare_numbers (min (vec_capacity s.numbers) (vec_capacity s.places)) (index_set_len s.names));
    } };

    ghost invariant = { λ s. IsNumbering K.eq s.names.keys s.numbers.items s.places.items };
}

impl<K: Eq + Hash + Drop> NumberedNames<K> {
    /// No names, which take no memory.
    pub fn new(alloc: Global) -> NumberedNames<K>
        ensures names { result.names ≡ [] }
    {
        NumberedNames {
            names: IndexSet::new(alloc),
            numbers: Vec::new(alloc),
            places: Vec::new(alloc),
        }
    }

    /// How many names stand.
    pub fn len(&self) -> usize
        ensures { result ≡ count_by is_some self.now.names }
    {
        self.names.len()
    }

    /// Whether no name stands.
    pub fn is_empty(&self) -> bool
        ensures { IsTrue result ↔ (count_by is_some self.now.names ≡ 0) }
    {
        self.len() == 0
    }

    /// Makes room for so many names more. The names stay, after an error too.
    ///
    /// An error comes for want of memory, and where more than 2^32 names would stand.
    pub fn reserve(&mut self, more: u32) -> Result<(), AllocError>
        ensures ok { OnOk result (more ≤ self.new.room) }
        ensures names { self.new.names ≡ self.old.names }
        ensures room { self.old.room ≤ self.new.room }
    {
        let more = more as usize;
        if more > (1usize << 32) - self.names.len() {
            return Err(AllocError);
        }
        self.names.reserve(more)?;
        self.numbers.reserve(more)?;
        self.places.reserve(more)?;
        Ok(())
    }

    /// The number that the name has, None where it has none.
    pub fn number_of(&self, name: &K) -> Option<u32>
        ensures number { (number : ℕ) → (result ≡ Some number) ↔
            IsTrue (is_name K.eq name.now (name_at self.now.names number)) }
        ensures absent { IfNone result (IsNew K.eq self.now.names name.now) }
    {
        let place = self.names.get_index_of(name)?;
        Some(self.numbers[place])
    }

    /// The name that has the number, None where the number is free.
    pub fn name_of(&self, number: u32) -> Option<&K>
        ensures { option_copied result ≡ name_at self.now.names number }
    {
        let place = *self.places.get(number as usize)?;
        self.names.get_index(place as usize)
    }

    /// The names that stand, in no order that is promised.
    pub fn as_slice(&self) -> &[K]
        ensures { IsListOf K.eq self.now.names result.now }
    {
        let _ = &self.places;
        self.names.as_slice()
    }

    /// Gives the name a number, a new one only where none is free.
    pub fn add(&mut self, name: K) -> u32
        requires new { IsNew K.eq self.old.names name }
        requires room { 0 < self.old.room }
        ensures free { name_at self.old.names result ≡ None }
        ensures within { result ≤ length self.old.names }
        ensures none_free { result ≡ length self.old.names → (number : ℕ) → number < result →
            IsSome (name_at self.old.names number) }
        ensures names { ChangesOnly self.old.names self.new.names result (Some name) }
        ensures len { length self.new.names ≡ max (length self.old.names) (result + 1) }
        ensures room { self.old.room ≤ self.new.room + 1 }
    {
        let place = self.names.len();
        let number = first_free(&mut self.numbers, &mut self.places, place);
        push(&mut self.names, name);
        number
    }

    /// Takes away the name that has the number, which is free then. None where it was free before.
    ///
    /// Whether there is more room then is left open.
    pub fn remove(&mut self, number: u32) -> Option<K>
        ensures name { result ≡ name_at self.old.names number }
        ensures names { ChangesOnly self.old.names self.new.names number None }
        ensures len { length self.new.names ≡ length self.old.names }
        ensures room { self.old.room ≤ self.new.room }
    {
        let place = *self.places.get(number as usize)? as usize;
        let name = self.names.swap_remove_index(place)?;
        let last = self.names.len();
        exchange(&mut self.numbers, &mut self.places, place, last);
        Some(name)
    }

    /// Gives the number to another name in place of the one that has it.
    pub fn rename(&mut self, number: u32, name: K)
        requires stands { IsSome (name_at self.old.names number) }
        requires new { IsNew K.eq self.old.names name }
        requires room { 0 < self.old.room }
        ensures names { ChangesOnly self.old.names self.new.names number (Some name) }
        ensures len { length self.new.names ≡ length self.old.names }
        ensures room { self.old.room ≤ self.new.room + 1 }
    {
        let place = self.places[number as usize] as usize;
        replace(&mut self.names, place, name);
    }

    /// The law that no two numbers have one name. It does nothing when it runs.
    pub fn has_each_name_once(&self)
        ensures { HasEachOnce K.eq self.now.names }
    {
        let _ = &self.places;
    }
}

impl<K: Eq + Hash + Copied> NumberedNames<K> {
    /// The same names with the same numbers, in memory of their own.
    pub fn copy(&self, alloc: Global) -> Result<NumberedNames<K>, AllocError>
        ensures { IfOk result (λ made. made.names ≡ self.now.names) }
    {
        Ok(NumberedNames {
            names: copy_of(alloc, &self.names)?,
            numbers: Vec::from_slice(alloc, &self.numbers)?,
            places: Vec::from_slice(alloc, &self.places)?,
        })
    }
}
