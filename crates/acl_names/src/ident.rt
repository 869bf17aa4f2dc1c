ghost use Rattle.std.specs.Prelude.{◌≡◌, ℕ, ◌<◌, ◌^◌, List, None, length, IfOk, IfErr, IsTrue, OnOk};
ghost use Rattle.std.specs.Str.{str_to_ascii_lowercase};
ghost use Rattle.std.proofs.Common.{rules};
ghost use Rattle.std.specs.Cmp.Rules.{comparing};
ghost use Rattle.acl_names.specs.Limits.{ident_limit};
ghost use Rattle.acl_names.specs.Name.{IsRefusal, ident_fault};
ghost use Rattle.acl_names.specs.Text.{is_lower, text_eq};

use crate::name::ident_fault_of;
use crate::refusal::NameRefusal;
use crate::text::NameText;
use acl_items::Copied;
use std::alloc::{AllocError, Global};
use std::marker::Model;

/// The most characters of an identifier.
pub const IDENT_LIMIT: u32 = 64;

/// The name of a schema, a table, a column or a routine, compared and ordered by its bytes. It is never empty.
///
/// MySQL 8.0 Reference Manual, "Schema Object Names".
#[derive(Debug, Eq, PartialOrd, Ord, Hash, Drop)]
pub struct Ident {
    text: NameText,
}

impl Model for Ident {
    ghost Value = { List ℕ };

    ghost view = { λ name. name.text };

    ghost invariant = { λ name. ident_fault ident_limit name.text ≡ None };

    ghost inverse = { λ text. record { text = text } };
}

impl Ident {
    /// Reads `text` as the name of a schema or a table.
    pub fn read(alloc: Global, text: &str) -> Result<Self, NameRefusal>
        requires { length text.now < 2 ^ 32 }
        ensures ok { IfOk result (λ name. name ≡ text.now) }
        ensures within { OnOk result (ident_fault ident_limit text.now ≡ None) }
        ensures err { IfErr result (IsRefusal (ident_fault ident_limit text.now)) }
    {
        if let Some(refusal) = ident_fault_of(text, IDENT_LIMIT) {
            return Err(refusal);
        }
        let text = NameText::from_text(alloc, text).map_err(|_| NameRefusal::NoMemory)?;
        Ok(Ident { text })
    }

    /// Reads `text` as the name of a column or a routine, and brings its ASCII letters to lower case.
    #[tactic(auto, using(crate::proofs::LowerTexts::lowered_is_lower))]
    pub fn read_lower(alloc: Global, text: &str) -> Result<Self, NameRefusal>
        requires { length text.now < 2 ^ 32 }
        ensures ok { IfOk result (λ name. name ≡ str_to_ascii_lowercase text.now) }
        ensures lower { IfOk result (λ name. IsTrue (is_lower name)) }
        ensures within { OnOk result (ident_fault ident_limit text.now ≡ None) }
        ensures err { IfErr result (IsRefusal (ident_fault ident_limit text.now)) }
    {
        let mut name = Ident::read(alloc, text)?;
        name.text.lower();
        Ok(name)
    }

    /// The name as text, all of it.
    pub fn as_str(&self) -> &str
        ensures value { result.now ≡ self.now }
        ensures faultless { ident_fault ident_limit self.now ≡ None }
    {
        self.text.as_str()
    }

    /// Whether both are one name.
    pub fn is(&self, other: &Ident) -> bool
        ensures { result ≡ text_eq self.now other.now }
    {
        self == other
    }

    /// The same name in memory of its own.
    pub fn copy(&self, alloc: Global) -> Result<Self, AllocError>
        ensures { IfOk result (λ made. made ≡ self.now) }
    {
        let text = self.text.copy(alloc)?;
        Ok(Ident { text })
    }
}

impl Copied for Ident {
    fn copied(&self, alloc: Global) -> Result<Self, AllocError> {
        self.copy(alloc)
    }
}

// By hand, so that sets of names say `text_eq` of their keys.
impl PartialEq for Ident {
    ghost eq = { text_eq };

    ghost laws = { Prim.search (comparing, rules) };

    fn eq(&self, other: &Ident) -> bool {
        self.text == other.text
    }
}
