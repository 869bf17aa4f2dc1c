//! The keys of objects.
ghost use Rattle.std.specs.Prelude.{◌≡◌, ◌+◌, ◌-◌, ◌<◌, ◌≤◌, ◌^◌, ◌&&◌, ℕ, false, true, Some, IfNone, IfSome, IsSome, is_some, slice_index};
ghost use Rattle.acl_names.specs.Text.{text_eq};
ghost use Rattle.numbered_names.specs.Numbered.{is_name, name_at};
ghost use Rattle.object_bits.specs.declared.key.Key.{Key};
ghost use Rattle.object_bits.specs.Keys.{has_names, is_key, key_uses, object_of};
ghost use Rattle.object_bits.specs.Names.{one_if_same};
ghost use Rattle.object_bits.specs.Seen.{seen};

use crate::key::Key;
use crate::names::CountedNames;
use crate::{Object, ObjectRef};
use acl_names::Ident;

// The numbers of two names, None where one of them has none.
fn numbers_of(names: &CountedNames, one: &Ident, other: &Ident) -> Option<(u32, u32)>
    ensures some { IfSome result (λ found. is_name text_eq one.now (name_at names.now.names found.0) &&
        is_name text_eq other.now (name_at names.now.names found.1) ≡ true) }
    ensures none { IfNone result ((n m : ℕ) → is_name text_eq one.now (name_at names.now.names n) &&
        is_name text_eq other.now (name_at names.now.names m) ≡ false) }
{
    Some((names.number_of(one)?, names.number_of(other)?))
}

// The key of the object, None where one of its names has no number.
pub fn key_of(names: &CountedNames, object: ObjectRef) -> Option<Key>
    ensures some { IfSome result (λ key. is_key names.now.names (seen object.entry) key ≡ true) }
    ensures none { IfNone result ((key : Key) → is_key names.now.names (seen object.entry) key ≡ false) }
{
    match object {
        ObjectRef::Table(schema, table) => {
            let (schema, table) = numbers_of(names, schema, table)?;
            Some(Key::Table(schema, table))
        }
        ObjectRef::Column(schema, table, column) => {
            let (schema, table) = numbers_of(names, schema, table)?;
            Some(Key::Column(schema, table, names.number_of(column)?))
        }
        ObjectRef::Function(schema, function) => {
            let (schema, function) = numbers_of(names, schema, function)?;
            Some(Key::Function(schema, function))
        }
        ObjectRef::Procedure(schema, procedure) => {
            let (schema, procedure) = numbers_of(names, schema, procedure)?;
            Some(Key::Procedure(schema, procedure))
        }
    }
}

// Two names by their numbers, None where one of the numbers is free.
fn names_of(names: &CountedNames, one: u32, other: u32) -> Option<(&Ident, &Ident)>
    ensures some { IfSome result (λ found. (name_at names.now.names one ≡ Some found.0.now) ×
        (name_at names.now.names other ≡ Some found.1.now)) }
    ensures none { IfNone result
        (is_some (name_at names.now.names one) && is_some (name_at names.now.names other) ≡ false) }
{
    Some((names.name_of(one)?, names.name_of(other)?))
}

// The object of the key, None where one of its numbers has no name.
pub fn object_at(names: &CountedNames, key: Key) -> Option<ObjectRef<'_>>
    ensures some { IfSome result (λ object. seen object ≡ object_of names.now.names key) }
    ensures none { IfNone result (has_names names.now.names key ≡ false) }
{
    match key {
        Key::Table(schema, table) => {
            let (schema, table) = names_of(names, schema, table)?;
            Some(ObjectRef::Table(schema, table))
        }
        Key::Column(schema, table, column) => {
            let (schema, table) = names_of(names, schema, table)?;
            Some(ObjectRef::Column(schema, table, names.name_of(column)?))
        }
        Key::Function(schema, function) => {
            let (schema, function) = names_of(names, schema, function)?;
            Some(ObjectRef::Function(schema, function))
        }
        Key::Procedure(schema, procedure) => {
            let (schema, procedure) = names_of(names, schema, procedure)?;
            Some(ObjectRef::Procedure(schema, procedure))
        }
    }
}

// Takes the numbers of two names.
fn take_two(names: &mut CountedNames, one: Ident, other: Ident) -> (u32, u32)
    requires room { 2 ≤ names.old.room }
    requires few { (n : ℕ) → slice_index names.old.uses n < 2 ^ 64 - 2 }
    ensures one { name_at names.new.names result.0 ≡ Some one }
    ensures other { name_at names.new.names result.1 ≡ Some other }
    ensures uses { (n : ℕ) → slice_index names.new.uses n ≡
        slice_index names.old.uses n + one_if_same n result.0 + one_if_same n result.1 }
    ensures stood { (n : ℕ) → IsSome (name_at names.old.names n) →
        name_at names.new.names n ≡ name_at names.old.names n }
    ensures room { names.old.room ≤ names.new.room + 2 }
    ensures known { (n m : ℕ) → name_at names.old.names n ≡ Some one → name_at names.old.names m ≡ Some other →
        names.old.room ≤ names.new.room }
{
    let number = names.take(one);
    (number, names.take(other))
}

// The key of the object, whose names are used once more.
pub fn take_key(names: &mut CountedNames, object: Object) -> Key
    requires room { 3 ≤ names.old.room }
    requires few { (n : ℕ) → slice_index names.old.uses n < 2 ^ 64 - 3 }
    ensures key { is_key names.new.names object result ≡ true }
    ensures uses { (n : ℕ) → slice_index names.new.uses n ≡ slice_index names.old.uses n + key_uses n result }
    ensures stood { (n : ℕ) → IsSome (name_at names.old.names n) →
        name_at names.new.names n ≡ name_at names.old.names n }
    ensures room { names.old.room ≤ names.new.room + 3 }
    ensures known { (key : Key) → is_key names.old.names object key ≡ true → names.old.room ≤ names.new.room }
{
    match object {
        Object::Table(schema, table) => {
            let (schema, table) = take_two(names, schema, table);
            Key::Table(schema, table)
        }
        Object::Column(schema, table, column) => {
            let (schema, table) = take_two(names, schema, table);
            Key::Column(schema, table, names.take(column))
        }
        Object::Function(schema, function) => {
            let (schema, function) = take_two(names, schema, function);
            Key::Function(schema, function)
        }
        Object::Procedure(schema, procedure) => {
            let (schema, procedure) = take_two(names, schema, procedure);
            Key::Procedure(schema, procedure)
        }
    }
}

// Gives back the numbers of two names.
fn give_back_two(names: &mut CountedNames, one: u32, other: u32)
    requires { (n : ℕ) → one_if_same n one + one_if_same n other ≤ slice_index names.old.uses n }
    ensures uses { (n : ℕ) → slice_index names.new.uses n + one_if_same n one + one_if_same n other ≡
        slice_index names.old.uses n }
    ensures kept { (n : ℕ) → 0 < slice_index names.new.uses n →
        name_at names.new.names n ≡ name_at names.old.names n }
    ensures room { names.old.room ≤ names.new.room }
{
    names.give_back(one);
    names.give_back(other);
}

// Uses the names of the key once less.
pub fn give_back_key(names: &mut CountedNames, key: Key)
    requires { (n : ℕ) → key_uses n key ≤ slice_index names.old.uses n }
    ensures uses { (n : ℕ) → slice_index names.new.uses n + key_uses n key ≡ slice_index names.old.uses n }
    ensures kept { (n : ℕ) → 0 < slice_index names.new.uses n →
        name_at names.new.names n ≡ name_at names.old.names n }
    ensures room { names.old.room ≤ names.new.room }
{
    match key {
        Key::Table(one, other) | Key::Function(one, other) | Key::Procedure(one, other) => {
            give_back_two(names, one, other)
        }
        Key::Column(schema, table, column) => {
            give_back_two(names, schema, table);
            names.give_back(column);
        }
    }
}
