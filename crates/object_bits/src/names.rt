//! Names with numbers, each kept as long as it is used.
ghost use Rattle.std.specs.Prelude.{◌≡◌, ◌≢◌, ◌+◌, ◌-◌, ◌<◌, ◌≤◌, ◌^◌, ℕ, Some, IfNone, IfOk, IsSome, OnOk, length, slice_index, vec_capacity};
ghost use Rattle.std.specs.Option.{option_copied};
ghost use Rattle.acl_names.specs.Text.{text_eq};
ghost use Rattle.numbered_names.specs.Numbered.{HasEachOnce, IsNew, name_at};
ghost use Rattle.object_bits.specs.Names.{IsCounted, one_if_same};

use acl_items::Copied;
use acl_names::Ident;
use numbered_names::NumberedNames;
use std::alloc::{AllocError, Global};
use std::marker::Model;

// Names that are used, each with a number that stays as long.
#[derive(Drop)]
pub struct CountedNames {
    names: NumberedNames<Ident>,
    // How often each number is used.
    uses: Vec<u64>,
}

impl Model for CountedNames {
    ghost use Rattle.std.specs.Prelude.{◌-◌, length, min, vec_capacity};
    ghost use Rattle.object_bits.specs.Names.{Counted, IsCounted, counted_code};

    ghost Value = { Counted };

    ghost coded = { counted_code };

    ghost view = { λ s. record {
      names = s.names.names;
      uses = s.uses.items;
      room = min s.names.room (vec_capacity s.uses - length s.uses.items);
    } };

    ghost invariant = { λ s. IsCounted s.names.names s.uses.items };
}

impl CountedNames {
    // No names, which take no memory.
    pub fn new(alloc: Global) -> CountedNames
        ensures { (n : ℕ) → slice_index result.uses n ≡ 0 }
    {
        CountedNames {
            names: NumberedNames::new(alloc),
            uses: Vec::new(alloc),
        }
    }

    // Makes room for so many names more. The names stay, after an error too.
    pub fn reserve(&mut self, more: u32) -> Result<(), AllocError>
        ensures ok { OnOk result (more ≤ self.new.room) }
        ensures names { self.new.names ≡ self.old.names }
        ensures uses { self.new.uses ≡ self.old.uses }
        ensures room { self.old.room ≤ self.new.room }
    {
        self.uses.reserve(more as usize)?;
        self.names.reserve(more)
    }

    // The number of the name, None where it has none.
    pub fn number_of(&self, name: &Ident) -> Option<u32>
        ensures some { (number : ℕ) → result ≡ Some number → name_at self.now.names number ≡ Some name.now }
        ensures none { IfNone result (IsNew text_eq self.now.names name.now) }
    {
        self.names.number_of(name)
    }

    // The name of the number, None where the number is free.
    pub fn name_of(&self, number: u32) -> Option<&Ident>
        ensures { option_copied result ≡ name_at self.now.names number }
    {
        self.names.name_of(number)
    }

    // The number of the name, a free one where it has none, which is used once more.
    pub fn take(&mut self, name: Ident) -> u32
        requires room { 0 < self.old.room }
        requires few { (n : ℕ) → slice_index self.old.uses n < 2 ^ 64 - 1 }
        ensures name { name_at self.new.names result ≡ Some name }
        ensures uses { (n : ℕ) → slice_index self.new.uses n ≡ slice_index self.old.uses n + one_if_same n result }
        ensures stood { (n : ℕ) → IsSome (name_at self.old.names n) →
            name_at self.new.names n ≡ name_at self.old.names n }
        ensures room { self.old.room ≤ self.new.room + 1 }
        ensures known { (n : ℕ) → name_at self.old.names n ≡ Some name → self.old.room ≤ self.new.room }
    {
        let number = number_for(&mut self.names, &mut self.uses, name);
        self.uses[number as usize] += 1;
        number
    }

    // Uses the number once less, whose name goes with the last use.
    pub fn give_back(&mut self, number: u32)
        requires { 0 < slice_index self.old.uses number }
        ensures uses { (n : ℕ) → slice_index self.new.uses n + one_if_same n number ≡ slice_index self.old.uses n }
        ensures kept { (n : ℕ) → 0 < slice_index self.new.uses n →
            name_at self.new.names n ≡ name_at self.old.names n }
        ensures room { self.old.room ≤ self.new.room }
    {
        self.uses[number as usize] -= 1;
        if self.uses[number as usize] == 0 {
            self.names.remove(number);
        }
    }

    // The law that names stand where they are used, and that no two numbers have one name. It does nothing when it runs.
    pub fn are_counted(&self)
        ensures counted { IsCounted self.now.names self.now.uses }
        ensures once { HasEachOnce text_eq self.now.names }
    {
        self.names.has_each_name_once();
    }

    // The same names with the same numbers, in memory of their own.
    pub fn copy(&self, alloc: Global) -> Result<CountedNames, AllocError>
        ensures names { IfOk result (λ made. made.names ≡ self.now.names) }
        ensures uses { IfOk result (λ made. made.uses ≡ self.now.uses) }
    {
        Ok(CountedNames {
            names: self.names.copy(alloc)?,
            uses: Vec::from_slice(alloc, &self.uses)?,
        })
    }
}

// The number of the name, a free one where it has none.
fn number_for(names: &mut NumberedNames<Ident>, uses: &mut Vec<u64>, name: Ident) -> u32
    requires counted { IsCounted names.old.names uses.old.items }
    requires room { 0 < names.old.room }
    requires uses_room { length uses.old.items < vec_capacity uses.old }
    ensures name { name_at names.new.names result ≡ Some name }
    ensures within { result < length uses.new.items }
    ensures numbers { length uses.new.items ≡ length names.new.names }
    ensures uses { (n : ℕ) → slice_index uses.new.items n ≡ slice_index uses.old.items n }
    ensures stood { (n : ℕ) → IsSome (name_at names.old.names n) →
        name_at names.new.names n ≡ name_at names.old.names n }
    ensures others { (n : ℕ) → n ≢ result → name_at names.new.names n ≡ name_at names.old.names n }
    ensures room { names.old.room ≤ names.new.room + 1 }
    ensures spare { vec_capacity uses.old - length uses.old.items ≤ vec_capacity uses.new - length uses.new.items + 1 }
    ensures known { (n : ℕ) → name_at names.old.names n ≡ Some name → (names.old.room ≤ names.new.room) ×
        (vec_capacity uses.old - length uses.old.items ≤ vec_capacity uses.new - length uses.new.items) }
{
    if let Some(number) = names.number_of(&name) {
        return number;
    }
    let number = names.add(name);
    if number as usize == uses.len() {
        uses.push(0).unwrap();
    }
    number
}
