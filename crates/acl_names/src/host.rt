ghost use Rattle.std.specs.Prelude.{◌≡◌, ℕ, ◌<◌, ◌^◌, List, None, length, IfOk, IfErr, OnOk};
ghost use Rattle.std.specs.Str.{str_to_ascii_lowercase};
ghost use Rattle.acl_names.specs.Limits.{host_limit};
ghost use Rattle.acl_names.specs.Name.{IsLowerName, IsRefusal, name_fault};

use crate::name::fault_of;
use crate::refusal::NameRefusal;
use crate::text::NameText;
use acl_items::Copied;
use std::alloc::{AllocError, Global};
use std::marker::Model;

/// The most characters of a host.
pub const HOST_LIMIT: u32 = 255;

/// The host of an account, in lower ASCII case, compared and ordered by its bytes.
///
/// MySQL 8.0 Reference Manual, "Specifying Account Names".
#[derive(Debug, PartialEq, Eq, PartialOrd, Ord, Hash, Drop)]
pub struct HostText {
    text: NameText,
}

impl Model for HostText {
    ghost Value = { List ℕ };

    ghost view = { λ host. host.text };

    ghost invariant = { λ host. IsLowerName host_limit host.text };

    ghost inverse = { λ text. record { text = text } };
}

impl HostText {
    /// Reads `text` as a host, which may be empty, and brings its ASCII letters to lower case.
    pub fn read(alloc: Global, text: &str) -> Result<Self, NameRefusal>
        requires { length text.now < 2 ^ 32 }
        ensures ok { IfOk result (λ host. host ≡ str_to_ascii_lowercase text.now) }
        ensures within { OnOk result (name_fault host_limit text.now ≡ None) }
        ensures err { IfErr result (IsRefusal (name_fault host_limit text.now)) }
    {
        if let Some(refusal) = fault_of(text, HOST_LIMIT) {
            return Err(refusal);
        }
        let mut text = NameText::from_text(alloc, text).map_err(|_| NameRefusal::NoMemory)?;
        text.lower();
        Ok(HostText { text })
    }

    /// The host as text, all of it.
    pub fn as_str(&self) -> &str
        ensures value { result.now ≡ self.now }
        ensures host { IsLowerName host_limit self.now }
    {
        self.text.as_str()
    }

    /// The same host in memory of its own.
    pub fn copy(&self, alloc: Global) -> Result<Self, AllocError>
        ensures { IfOk result (λ made. made ≡ self.now) }
    {
        let text = self.text.copy(alloc)?;
        Ok(HostText { text })
    }
}

impl Copied for HostText {
    fn copied(&self, alloc: Global) -> Result<Self, AllocError> {
        self.copy(alloc)
    }
}
