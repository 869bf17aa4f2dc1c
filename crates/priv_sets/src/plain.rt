//! Static privileges, their names and their levels.
ghost use Rattle.std.specs.Prelude.{◌≡◌, ◌≢◌, ℕ, ◌<◌, ◌↔◌, IsTrue, IsNone, IfSome, Some, map};
ghost use Rattle.std.specs.Fmt.{padded};
ghost use Rattle.std.specs.Str.{str_to_ascii_uppercase};
ghost use Rattle.priv_sets.specs.Levels.{grant_option, has_level};
ghost use Rattle.priv_sets.specs.PlainNames.{plain_names, plain_name};

use crate::{Level, Static};
use std::fmt;
use std::marker::Model;

// By the numbers of the privileges.
static NAMES: [&str; 31] = [
    "SELECT",
    "INSERT",
    "UPDATE",
    "DELETE",
    "CREATE",
    "DROP",
    "RELOAD",
    "SHUTDOWN",
    "PROCESS",
    "FILE",
    "REFERENCES",
    "INDEX",
    "ALTER",
    "SHOW DATABASES",
    "SUPER",
    "CREATE TEMPORARY TABLES",
    "LOCK TABLES",
    "EXECUTE",
    "REPLICATION SLAVE",
    "REPLICATION CLIENT",
    "CREATE VIEW",
    "SHOW VIEW",
    "CREATE ROUTINE",
    "ALTER ROUTINE",
    "CREATE USER",
    "EVENT",
    "TRIGGER",
    "CREATE TABLESPACE",
    "CREATE ROLE",
    "DROP ROLE",
    "GRANT OPTION",
];

/// A static privilege or GRANT OPTION, which contracts see as its number: 0 to 29 in the order of the
/// names, and 30 for GRANT OPTION.
///
/// MySQL 8.0 Reference Manual, "Privileges Provided by MySQL".
#[derive(Clone, Copy, Debug, PartialEq, Eq, Hash)]
pub struct Plain {
    number: u8,
}

impl Model for Plain {
    ghost Value = { ℕ };

    ghost view = { λ p. p.number };

    ghost invariant = { λ p. p.number < 31 };

    ghost inverse = { λ n. record { number = n } };
}

impl Plain {
    /// The privilege of a number.
    pub fn new(number: u8) -> Plain
        requires { number < 31 }
        ensures { result ≡ number }
    {
        Plain { number }
    }

    /// GRANT OPTION.
    pub fn grant_option() -> Plain
        ensures { result ≡ grant_option }
    {
        Plain { number: 30 }
    }

    /// The number of the privilege.
    pub fn number(self) -> u8
        ensures same { result ≡ self }
        ensures below { result < 31 }
    {
        self.number
    }

    /// The name in capitals, as GRANT spells it.
    pub fn name(self) -> &'static str
        ensures { result.now ≡ plain_name self }
    {
        plain_table()[usize::from(self.number)]
    }

    /// The static privilege or GRANT OPTION of a name, in any ASCII case, with one space between two
    /// words.
    #[tactic(auto, using(crate::proofs::Names::distinct_names))]
    pub fn by_name(words: &str) -> Option<Plain>
        ensures below { IfSome result (λ p. p < 31) }
        ensures found { IfSome result (λ p. str_to_ascii_uppercase words.now ≡ plain_name p) }
        ensures only { (p : ℕ) → p < 31 →
            str_to_ascii_uppercase words.now ≡ plain_name p → result ≡ Some p }
        ensures none { IsNone result ↔
            ((p : ℕ) → p < 31 → str_to_ascii_uppercase words.now ≢ plain_name p) }
    {
        for number in 0..31 {
            let plain = Plain::new(number);
            if plain.is_named(words) {
                return Some(plain);
            }
        }
        None
    }

    fn is_named(self, words: &str) -> bool
        ensures { IsTrue result ↔ (str_to_ascii_uppercase words.now ≡ plain_name self) }
    {
        self.name().eq_ignore_ascii_case(words)
    }

    /// Whether the privilege is granted at a level.
    pub fn has_level(self, level: Level) -> bool
        ensures { result ≡ has_level level self }
    {
        Static::at_level(level).has(self)
    }
}

/// Writes the name.
impl fmt::Display for Plain {
    ghost output = { λ p. Some (plain_name p) };

    ghost styled_output = { λ p spec. Some (padded spec (plain_name p)) };

    fn fmt<W: fmt::Write>(&self, f: &mut fmt::Formatter<W>) -> fmt::Result {
        f.pad(self.name())
    }
}

// The names, in order.
fn plain_table() -> &'static [&'static str; 31]
    ensures { map (λ name. name.now) result.now ≡ plain_names }
{
    &NAMES
}
