ghost use Rattle.std.specs.Prelude.{◌≡◌, IsTrue, IfOk};
ghost use Rattle.std.specs.List.{list_all};
ghost use Rattle.std.specs.Str.{bytes_eq};
ghost use Rattle.script_lines.specs.Beginnings.{is_session_byte, is_session_name};

use std::alloc::{AllocError, Global};
use std::marker::Model;

/// The name of a session: 1 to 32 letters from a to z, digits and underscores. Contracts see its bytes.
#[derive(Debug, Drop)]
pub struct SessionName {
    text: String,
}

impl Model for SessionName {
    ghost use Rattle.std.specs.Prelude.{List, ℕ, IsTrue, string_bytes};

    ghost Value = { List ℕ };

    ghost use Rattle.script_lines.specs.Beginnings.{is_session_name};

    ghost view = { λ name. string_bytes name.text };

    ghost invariant = { λ name. IsTrue (is_session_name (string_bytes name.text)) };
}

impl SessionName {
    pub(crate) fn new(alloc: Global, text: &str) -> Result<SessionName, AllocError>
        requires { IsTrue (is_session_name text.now) }
        ensures { IfOk result (λ name. name ≡ text.now) }
    {
        Ok(SessionName {
            text: String::from_str(alloc, text)?,
        })
    }

    /// Whether a text may name a session.
    pub(crate) fn is_valid(text: &str) -> bool
        ensures { result ≡ is_session_name text.now }
    {
        is_within(text.as_bytes())
    }

    pub(crate) fn is(&self, text: &str) -> bool
        ensures { result ≡ bytes_eq self.now text.now }
    {
        self.text.as_str() == text
    }

    /// The name as text, all of it.
    pub fn as_str(&self) -> &str
        ensures value { result.now ≡ self.now }
        ensures valid { IsTrue (is_session_name self.now) }
    {
        self.text.as_str()
    }
}

#[tactic(auto, unfolding(crate::specs::Beginnings::is_session_name))]
fn is_within(bytes: &[u8]) -> bool
    ensures { result ≡ is_session_name bytes.now }
{
    (1..=32).contains(&bytes.len()) && all_session_bytes(bytes)
}

fn all_session_bytes(bytes: &[u8]) -> bool
    ensures { result ≡ list_all is_session_byte bytes.now }
{
    bytes.iter().all(|byte| is_session(*byte))
}

/// Whether a session's name may have the byte.
pub(crate) fn is_session(byte: u8) -> bool
    ensures { result ≡ is_session_byte byte }
{
    matches!(byte, b'a'..=b'z' | b'0'..=b'9' | b'_')
}
