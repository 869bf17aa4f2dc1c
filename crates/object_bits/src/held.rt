//! What is held on keys.
ghost use Rattle.std.specs.Prelude.{◌≡◌, ◌+◌, ◌<◌, ◌≤◌, false, true, length};
ghost use Rattle.std.specs.List.{list_any};
ghost use Rattle.held_bits.specs.Bits.{are_none};
ghost use Rattle.held_bits.specs.HeldBits.{bits_at, is_on, IsSound};
ghost use Rattle.object_bits.specs.Keys.{same_key};
ghost use Rattle.object_bits.specs.Kept.{IsSet, only_granted};

use crate::key::Key;
use held_bits::{Bits, HeldBits};

// Bits that are granted, where none are restricted.
fn only_granted(granted: u32) -> Bits
    ensures { result ≡ only_granted granted }
{
    Bits {
        granted,
        restricted: 0,
    }
}

// What the holder holds on the key.
pub fn bits_of(bits: &HeldBits<Key>, holder: u32, key: Key) -> Bits
    ensures { result ≡ bits_at same_key bits.now.entries holder key }
{
    bits.bits(holder, &key)
}

// Sets what the holder holds on the key, in memory that was reserved.
pub fn set_bits(bits: &mut HeldBits<Key>, holder: u32, key: Key, granted: u32)
    requires record_room { 0 < bits.old.record_room }
    requires thing_room { 0 < bits.old.thing_room }
    ensures set { IsSet bits.old.entries bits.new.entries holder key (only_granted granted) }
    ensures record_room { bits.new.record_room + length bits.new.entries ≡
        bits.old.record_room + length bits.old.entries }
    ensures thing_room { bits.old.thing_room ≤ bits.new.thing_room + 1 }
    ensures known_thing { list_any (is_on same_key key) bits.old.entries ≡ true →
        bits.old.thing_room ≤ bits.new.thing_room }
{
    bits.is_sound();
    bits.set(holder, key, only_granted(granted));
    bits.is_sound();
}

// Sets what the holder holds on the key, where it holds something.
pub fn replace_bits(bits: &mut HeldBits<Key>, holder: u32, key: Key, granted: u32)
    requires { are_none (bits_at same_key bits.old.entries holder key) ≡ false }
    ensures set { IsSet bits.old.entries bits.new.entries holder key (only_granted granted) }
    ensures record_room { bits.new.record_room + length bits.new.entries ≡
        bits.old.record_room + length bits.old.entries }
    ensures thing_room { bits.old.thing_room ≤ bits.new.thing_room }
{
    bits.is_sound();
    bits.replace(holder, &key, only_granted(granted));
    bits.is_sound();
}

// The law that entries on keys are sound. It does nothing when it runs.
pub fn are_sound(bits: &HeldBits<Key>)
    ensures { IsSound same_key bits.now.entries }
{
    bits.is_sound();
}
