//! The numbers of things, beside how many records each number has.
ghost use Rattle.std.specs.Prelude.{◌≡◌, ◌≢◌, ◌+◌, ◌-◌, ◌<◌, ◌≤◌, ◌==◌, ◌&&◌, ℕ, None, IsSome, IsTrue, is_some, length, nat_lt, slice_index, vec_capacity, vec_len, if◌then◌else◌};
ghost use Rattle.numbered_names.specs.Numbered.{is_name, name_at};

use numbered_names::NumberedNames;
use std::hash::Hash;

// The number of the thing, a free one where it has none.
pub fn number_for<K: Eq + Hash + Drop>(
    things: &mut NumberedNames<K>,
    uses: &mut Vec<u32>,
    thing: K,
) -> u32
    requires numbers { length uses.old.items ≡ length things.old.names }
    requires room { 0 < things.old.room }
    requires stands { (n : ℕ) → is_some (name_at things.old.names n) ≡ nat_lt 0 (slice_index uses.old.items n) }
    requires uses_room { vec_len uses.old < vec_capacity uses.old }
    ensures is { IsTrue (is_name K.eq thing (name_at things.new.names result)) }
    ensures within { result < vec_len uses.new }
    ensures numbers { length uses.new.items ≡ length things.new.names }
    ensures uses { (n : ℕ) → slice_index uses.new.items n ≡ slice_index uses.old.items n }
    ensures stood { (n : ℕ) → IsSome (name_at things.old.names n) →
        name_at things.new.names n ≡ name_at things.old.names n }
    ensures others { (n : ℕ) → n ≢ result → name_at things.new.names n ≡ name_at things.old.names n }
    ensures room { things.old.room ≤ things.new.room + 1 }
    ensures known { (n : ℕ) → IsTrue (is_name K.eq thing (name_at things.old.names n)) →
        (things.old.room ≤ things.new.room)
        × (vec_capacity uses.old - vec_len uses.old ≤ vec_capacity uses.new - vec_len uses.new) }
    ensures uses_room { vec_capacity uses.old - vec_len uses.old ≤ vec_capacity uses.new - vec_len uses.new + 1 }
{
    if let Some(number) = things.number_of(&thing) {
        return number;
    }
    let number = things.add(thing);
    if number as usize == uses.len() {
        uses.push(0).unwrap();
    }
    number
}

// Takes away the name of a number that has no records.
pub fn release<K: Eq + Hash + Drop>(things: &mut NumberedNames<K>, uses: &[u32], number: u32)
    requires { number < length uses.now }
    ensures names { (n : ℕ) → name_at things.new.names n ≡
        (if (n == number) && (slice_index uses.now number == 0) then None else name_at things.old.names n) }
    ensures len { length things.new.names ≡ length things.old.names }
    ensures room { things.old.room ≤ things.new.room }
{
    if uses[number as usize] == 0 {
        things.remove(number);
    }
}
