ghost use Rattle.std.specs.Prelude.{◌≡◌, ℕ, List, string_bytes, IfOk};
ghost use Rattle.std.proofs.Common.{rules};
ghost use Rattle.std.specs.Cmp.{partial_order_from_own_ties};
ghost use Rattle.std.specs.Cmp.Rules.{comparing, hashing};
ghost use Rattle.std.specs.Hash as fed;
ghost use Rattle.std.specs.Ordering.{as_partial_cmp};
ghost use Rattle.std.specs.Str.{str_to_ascii_lowercase};
ghost use Rattle.acl_names.specs.Text.{text_cmp, text_eq};

use std::alloc::{AllocError, Global};
use std::cmp::Ordering;
use std::hash::{Hash, Hasher};
use std::marker::Model;

/// A text that a name keeps, compared, ordered and hashed by its bytes.
#[derive(Debug, Drop)]
pub(crate) struct NameText {
    text: String,
}

impl Model for NameText {
    ghost Value = { List ℕ };

    ghost view = { λ name. string_bytes name.text };
}

impl NameText {
    pub(crate) fn from_text(alloc: Global, text: &str) -> Result<Self, AllocError>
        ensures { IfOk result (λ made. made ≡ text.now) }
    {
        Ok(NameText {
            text: String::from_str(alloc, text)?,
        })
    }

    pub(crate) fn as_str(&self) -> &str
        ensures { result.now ≡ self.now }
    {
        self.text.as_str()
    }

    pub(crate) fn copy(&self, alloc: Global) -> Result<Self, AllocError>
        ensures { IfOk result (λ made. made ≡ self.now) }
    {
        NameText::from_text(alloc, self.text.as_str())
    }

    /// Brings the ASCII letters to lower case.
    pub(crate) fn lower(&mut self)
        ensures { self.new ≡ str_to_ascii_lowercase self.old }
    {
        self.text.make_ascii_lowercase();
    }
}

impl PartialEq for NameText {
    ghost eq = { text_eq };

    ghost laws = { Prim.search (comparing, rules) };

    fn eq(&self, other: &NameText) -> bool {
        self.text == other.text
    }
}

impl Eq for NameText {
    ghost laws = { Prim.search (comparing, rules) };
}

impl PartialOrd for NameText {
    ghost partial_cmp = { as_partial_cmp text_cmp };

    ghost laws = { partial_order_from_own_ties (Prim.search (comparing, rules)) (Prim.search (comparing, rules)) };

    fn partial_cmp(&self, other: &NameText) -> Option<Ordering> {
        Some(self.cmp(other))
    }
}

impl Ord for NameText {
    ghost cmp = { text_cmp };

    ghost total = { Prim.search (comparing, rules) };

    ghost matches_partial_cmp = { Prim.search (comparing, rules) };

    ghost matches_eq = { Prim.search (comparing, rules) };

    fn cmp(&self, other: &NameText) -> Ordering {
        self.text.cmp(&other.text)
    }
}

impl Hash for NameText {
    ghost hash_input = { λ name. fed.str name };

    ghost respects_eq = { Prim.search (hashing, rules) };

    fn hash<H: Hasher>(&self, state: &mut H) {
        self.text.hash(state);
    }
}
