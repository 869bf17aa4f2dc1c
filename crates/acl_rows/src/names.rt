//! Which privileges a list names.
ghost use Rattle.std.specs.Prelude.{◌≡◌, ℕ, IsTrue};
ghost use Rattle.acl_model.specs.Words.{names_dynamic, names_static};
ghost use Rattle.priv_sets.specs.StaticSet.{holds, is_known};

use acl_stmt::PrivList;
use priv_sets::{Level, Plain, Static};

/// The static privileges that the list names at a level: ALL is each one of the level but GRANT OPTION.
fn named_at(privileges: &PrivList, level: Level) -> Static
    ensures members { (q : ℕ) → holds result q ≡ names_static privileges.now level q }
    ensures known { IsTrue (is_known result) }
{
    if privileges.all {
        Static::all_at_level(level).union(privileges.plain)
    } else {
        privileges.plain
    }
}

/// Whether the list names the static privilege of a number at a level.
pub fn names_static(privileges: &PrivList, level: Level, number: u8) -> bool
    ensures { result ≡ names_static privileges.now level number }
{
    if number >= 31 {
        return false;
    }
    named_at(privileges, level).has(Plain::new(number))
}

/// Whether the list names the dynamic privilege of a number.
pub fn names_dynamic(privileges: &PrivList, number: u8) -> bool
    ensures { result ≡ names_dynamic privileges.now number }
{
    if number >= 20 {
        return false;
    }
    privileges.all || privileges.dynamic >> number & 1 == 1
}
