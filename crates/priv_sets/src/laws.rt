//! Laws of names and sets. Each does nothing when it runs.
ghost use Rattle.std.specs.Prelude.{◌≡◌, ◌≢◌, ℕ, ◌<◌, [], IsTrue};
ghost use Rattle.std.specs.List.{All};
ghost use Rattle.std.specs.Str.{str_to_ascii_uppercase};
ghost use Rattle.priv_sets.specs.DynamicSet.{holds_dynamic, grants_dynamic};
ghost use Rattle.priv_sets.specs.PlainNames.{plain_name, is_capital_or_space, is_words};
ghost use Rattle.priv_sets.specs.Privileges.{is_privilege, privilege_name};
ghost use Rattle.priv_sets.specs.StaticSet.{holds};
ghost use Rattle.priv_sets.specs.declared.privilege.Privilege.{Privilege};

use crate::{DynSet, Static};

/// The law that no two privileges have one name.
pub fn names_are_distinct()
    ensures plain { (p q : ℕ) → p < 31 → q < 31 → plain_name p ≡ plain_name q → p ≡ q }
    ensures all { (p q : Privilege) → IsTrue (is_privilege p) → IsTrue (is_privilege q) →
        privilege_name p ≡ privilege_name q → p ≡ q }
{}

/// The law that names are in capitals, and that the name of a static privilege is one or more words
/// with one space between two words.
pub fn names_are_words()
    ensures words { (p : ℕ) → p < 31 → IsTrue (is_words (plain_name p)) }
    ensures bytes { (p : ℕ) → p < 31 →
        All (λ byte. IsTrue (is_capital_or_space byte)) (plain_name p) }
    ensures capitals { (p : Privilege) →
        str_to_ascii_uppercase (privilege_name p) ≡ privilege_name p }
    ensures not_empty { (p : ℕ) → p < 31 → plain_name p ≢ [] }
{}

/// The law that two sets which hold the same are equal.
pub fn same_bits(a: Static, b: Static)
    ensures { ((q : ℕ) → holds a q ≡ holds b q) → a ≡ b }
{}

/// The law that two sets of dynamic privileges which hold the same, with the same grant options, are
/// equal.
pub fn same_dynamic_bits(a: DynSet, b: DynSet)
    ensures { ((q : ℕ) → holds_dynamic a q ≡ holds_dynamic b q) →
        ((q : ℕ) → grants_dynamic a q ≡ grants_dynamic b q) → a ≡ b }
{}
