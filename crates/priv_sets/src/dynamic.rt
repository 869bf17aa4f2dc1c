//! Dynamic privileges and their names.
ghost use Rattle.std.specs.Prelude.{◌≡◌, ◌≢◌, ℕ, ◌<◌, ◌↔◌, IsTrue, IsNone, IfSome, Some, map};
ghost use Rattle.std.specs.Fmt.{padded};
ghost use Rattle.std.specs.Str.{str_to_ascii_uppercase};
ghost use Rattle.priv_sets.specs.DynamicNames.{dynamic_names, dynamic_name};

use std::fmt;
use std::marker::Model;

// By the numbers of the privileges.
static NAMES: [&str; 20] = [
    "APPLICATION_PASSWORD_ADMIN",
    "AUDIT_ADMIN",
    "BACKUP_ADMIN",
    "BINLOG_ADMIN",
    "BINLOG_ENCRYPTION_ADMIN",
    "CLONE_ADMIN",
    "CONNECTION_ADMIN",
    "ENCRYPTION_KEY_ADMIN",
    "GROUP_REPLICATION_ADMIN",
    "PERSIST_RO_VARIABLES_ADMIN",
    "REPLICATION_APPLIER",
    "REPLICATION_SLAVE_ADMIN",
    "RESOURCE_GROUP_ADMIN",
    "RESOURCE_GROUP_USER",
    "ROLE_ADMIN",
    "SESSION_VARIABLES_ADMIN",
    "SET_USER_ID",
    "SYSTEM_USER",
    "SYSTEM_VARIABLES_ADMIN",
    "XA_RECOVER_ADMIN",
];

/// A dynamic privilege, which contracts see as its number: 0 to 19, in the order of the names by
/// bytes.
///
/// MySQL 8.0 Reference Manual, "Privileges Provided by MySQL", "Dynamic Privilege Descriptions".
#[derive(Clone, Copy, Debug, PartialEq, Eq, Hash)]
pub struct Dynamic {
    number: u8,
}

impl Model for Dynamic {
    ghost Value = { ℕ };

    ghost view = { λ p. p.number };

    ghost invariant = { λ p. p.number < 20 };

    ghost inverse = { λ n. record { number = n } };
}

impl Dynamic {
    /// The privilege of a number.
    pub fn new(number: u8) -> Dynamic
        requires { number < 20 }
        ensures { result ≡ number }
    {
        Dynamic { number }
    }

    /// The number of the privilege.
    pub fn number(self) -> u8
        ensures same { result ≡ self }
        ensures below { result < 20 }
    {
        self.number
    }

    /// The name in capitals.
    pub fn name(self) -> &'static str
        ensures { result.now ≡ dynamic_name self }
    {
        dynamic_table()[usize::from(self.number)]
    }

    /// The dynamic privilege of a name, in any ASCII case.
    #[tactic(auto, using(crate::proofs::Names::distinct_dynamic_names))]
    pub fn by_name(words: &str) -> Option<Dynamic>
        ensures below { IfSome result (λ p. p < 20) }
        ensures found { IfSome result (λ p. str_to_ascii_uppercase words.now ≡ dynamic_name p) }
        ensures only { (p : ℕ) → p < 20 →
            str_to_ascii_uppercase words.now ≡ dynamic_name p → result ≡ Some p }
        ensures none { IsNone result ↔
            ((p : ℕ) → p < 20 → str_to_ascii_uppercase words.now ≢ dynamic_name p) }
    {
        for number in 0..20 {
            let dynamic = Dynamic::new(number);
            if dynamic.is_named(words) {
                return Some(dynamic);
            }
        }
        None
    }

    fn is_named(self, words: &str) -> bool
        ensures { IsTrue result ↔ (str_to_ascii_uppercase words.now ≡ dynamic_name self) }
    {
        self.name().eq_ignore_ascii_case(words)
    }
}

/// Writes the name.
impl fmt::Display for Dynamic {
    ghost output = { λ p. Some (dynamic_name p) };

    ghost styled_output = { λ p spec. Some (padded spec (dynamic_name p)) };

    fn fmt<W: fmt::Write>(&self, f: &mut fmt::Formatter<W>) -> fmt::Result {
        f.pad(self.name())
    }
}

// The names, in order.
fn dynamic_table() -> &'static [&'static str; 20]
    ensures { map (λ name. name.now) result.now ≡ dynamic_names }
{
    &NAMES
}
