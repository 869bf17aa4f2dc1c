ghost use Rattle.std.specs.Prelude.{◌≡◌, ℕ, ◌<◌, ◌^◌, List, None, length, IfOk, IfErr, OnOk};
ghost use Rattle.acl_names.specs.Limits.{user_limit};
ghost use Rattle.acl_names.specs.Name.{IsRefusal, name_fault};

use crate::name::fault_of;
use crate::refusal::NameRefusal;
use crate::text::NameText;
use acl_items::Copied;
use std::alloc::{AllocError, Global};
use std::marker::Model;

/// The most characters of a user's name.
pub const USER_LIMIT: u32 = 32;

/// A user's name, compared and ordered by its bytes.
///
/// MySQL 8.0 Reference Manual, "Account User Names and Passwords".
#[derive(Debug, PartialEq, Eq, PartialOrd, Ord, Hash, Drop)]
pub struct UserName {
    text: NameText,
}

impl Model for UserName {
    ghost Value = { List ℕ };

    ghost view = { λ name. name.text };

    ghost invariant = { λ name. name_fault user_limit name.text ≡ None };

    ghost inverse = { λ text. record { text = text } };
}

impl UserName {
    /// Reads `text` as a user's name; it may be empty.
    pub fn read(alloc: Global, text: &str) -> Result<Self, NameRefusal>
        requires { length text.now < 2 ^ 32 }
        ensures ok { IfOk result (λ name. name ≡ text.now) }
        ensures within { OnOk result (name_fault user_limit text.now ≡ None) }
        ensures err { IfErr result (IsRefusal (name_fault user_limit text.now)) }
    {
        if let Some(refusal) = fault_of(text, USER_LIMIT) {
            return Err(refusal);
        }
        let text = NameText::from_text(alloc, text).map_err(|_| NameRefusal::NoMemory)?;
        Ok(UserName { text })
    }

    /// The name as text, all of it.
    pub fn as_str(&self) -> &str
        ensures value { result.now ≡ self.now }
        ensures faultless { name_fault user_limit self.now ≡ None }
    {
        self.text.as_str()
    }

    /// The same name in memory of its own.
    pub fn copy(&self, alloc: Global) -> Result<Self, AllocError>
        ensures { IfOk result (λ made. made ≡ self.now) }
    {
        let text = self.text.copy(alloc)?;
        Ok(UserName { text })
    }
}

impl Copied for UserName {
    fn copied(&self, alloc: Global) -> Result<Self, AllocError> {
        self.copy(alloc)
    }
}
