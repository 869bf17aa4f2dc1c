//! Privileges of both kinds.
ghost use Rattle.std.specs.Prelude.{◌≡◌, ◌≢◌, ◌↔◌, IsTrue, IsNone, IfSome, Some};
ghost use Rattle.std.specs.Fmt.{padded};
ghost use Rattle.std.specs.Str.{str_to_ascii_uppercase};
ghost use Rattle.priv_sets.specs.Privileges.{is_privilege, privilege_name, privilege_has_level};
ghost use Rattle.priv_sets.specs.declared.privilege.Privilege.{Privilege};

use crate::{Dynamic, Level, Plain};
use std::fmt;

/// A privilege.
///
/// MySQL 8.0 Reference Manual, "Privileges Provided by MySQL".
#[derive(Clone, Copy, Debug, PartialEq, Eq, Hash)]
pub enum Privilege {
    /// A static privilege, or GRANT OPTION.
    Plain(Plain),
    /// A dynamic privilege.
    Dynamic(Dynamic),
}

impl Privilege {
    /// Whether the privilege is granted at a level.
    pub fn has_level(&self, level: Level) -> bool
        ensures { result ≡ privilege_has_level level self.now }
    {
        match self {
            Privilege::Plain(plain) => plain.has_level(level),
            Privilege::Dynamic(_) => level == Level::Global,
        }
    }
}

/// The privilege of a name, in any ASCII case, with one space between two words.
pub fn by_name(words: &str) -> Option<Privilege>
    ensures within { IfSome result (λ p. IsTrue (is_privilege p)) }
    ensures found { IfSome result (λ p. str_to_ascii_uppercase words.now ≡ privilege_name p) }
    ensures only { (p : Privilege) → IsTrue (is_privilege p) →
        str_to_ascii_uppercase words.now ≡ privilege_name p → result ≡ Some p }
    ensures none { IsNone result ↔ ((p : Privilege) → IsTrue (is_privilege p) →
        str_to_ascii_uppercase words.now ≢ privilege_name p) }
{
    match Plain::by_name(words) {
        Some(plain) => Some(Privilege::Plain(plain)),
        None => Dynamic::by_name(words).map(Privilege::Dynamic),
    }
}

/// The name of a privilege, in capitals.
pub fn name(p: Privilege) -> &'static str
    ensures { result.now ≡ privilege_name p }
{
    match p {
        Privilege::Plain(plain) => plain.name(),
        Privilege::Dynamic(dynamic) => dynamic.name(),
    }
}

/// Writes the name.
impl fmt::Display for Privilege {
    ghost output = { λ p. Some (privilege_name p) };

    ghost styled_output = { λ p spec. Some (padded spec (privilege_name p)) };

    fn fmt<W: fmt::Write>(&self, f: &mut fmt::Formatter<W>) -> fmt::Result {
        f.pad(name(*self))
    }
}
