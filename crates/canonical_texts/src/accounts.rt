ghost use Rattle.std.specs.Prelude.{◌≡◌, ◌++◌, OnOk, List, string_bytes};
ghost use Rattle.acl_names.specs.declared.auth.AuthId.{AuthId};
ghost use Rattle.canonical_texts.specs.Texts.{accounts_text, digits_text, password_text};

use crate::lists::{Member, write_list};
use crate::quotes::write_quoted;
use acl_names::{AuthId, Ident, Verifier};
use std::alloc::{AllocError, Global};

impl Member for AuthId {
    ghost use Rattle.acl_names.specs.AuthId.{auth_text};

    ghost text_of_member = { auth_text };

    fn write_to(&self, text: &mut String, _alloc: Global) -> Result<(), AllocError> {
        self.append_to(text)
    }
}

/// An account that is made.
impl Member for (AuthId, Verifier) {
    ghost use Rattle.canonical_texts.specs.Texts.{new_text};

    ghost text_of_member = { new_text };

    fn write_to(&self, text: &mut String, alloc: Global) -> Result<(), AllocError> {
        self.0.append_to(text)?;
        write_password(text, alloc, &self.1)
    }
}

/// An account that is altered.
impl Member for (AuthId, Option<Verifier>) {
    ghost use Rattle.canonical_texts.specs.Texts.{altered_text};

    ghost text_of_member = { altered_text };

    fn write_to(&self, text: &mut String, alloc: Global) -> Result<(), AllocError> {
        self.0.append_to(text)?;
        match &self.1 {
            Some(verifier) => write_password(text, alloc, verifier),
            None => Ok(()),
        }
    }
}

/// An old name and a new one.
impl Member for (AuthId, AuthId) {
    ghost use Rattle.canonical_texts.specs.Texts.{renamed_text};

    ghost text_of_member = { renamed_text };

    fn write_to(&self, text: &mut String, _alloc: Global) -> Result<(), AllocError> {
        self.0.append_to(text)?;
        text.push_str(" TO ")?;
        self.1.append_to(text)
    }
}

impl Member for Ident {
    ghost use Rattle.acl_names.specs.Quoted.{quoted};

    ghost text_of_member = { quoted };

    fn write_to(&self, text: &mut String, _alloc: Global) -> Result<(), AllocError> {
        write_quoted(text, self.as_str())
    }
}

/// A name that stands as it is.
impl Member for String {
    ghost use Rattle.std.specs.Prelude.{string_bytes};

    ghost text_of_member = { string_bytes };

    fn write_to(&self, text: &mut String, _alloc: Global) -> Result<(), AllocError> {
        text.push_str(self.as_str())
    }
}

/// Appends accounts with a space before each.
pub(crate) fn write_accounts(
    text: &mut String,
    alloc: Global,
    accounts: &[AuthId],
) -> Result<(), AllocError>
    ensures { OnOk result (string_bytes text.new ≡ string_bytes text.old ++ accounts_text accounts.now) }
{
    write_list(text, alloc, " ", ", ", accounts)
}

/// Appends `words`, and then accounts.
pub(crate) fn write_words_and_accounts(
    text: &mut String,
    alloc: Global,
    words: &str,
    accounts: &[AuthId],
) -> Result<(), AllocError>
    ensures { OnOk result (string_bytes text.new
        ≡ string_bytes text.old ++ (words.now ++ accounts_text accounts.now)) }
{
    text.push_str(words)?;
    write_accounts(text, alloc, accounts)
}

fn write_password(text: &mut String, alloc: Global, verifier: &Verifier) -> Result<(), AllocError>
    ensures { OnOk result (string_bytes text.new ≡ string_bytes text.old ++ password_text verifier.now) }
{
    write_verifier(text, alloc, " IDENTIFIED BY VERIFIER", verifier)
}

/// Appends `words`, and then the digits of a verifier.
pub(crate) fn write_verifier(
    text: &mut String,
    alloc: Global,
    words: &str,
    verifier: &Verifier,
) -> Result<(), AllocError>
    ensures { OnOk result (string_bytes text.new
        ≡ string_bytes text.old ++ (words.now ++ digits_text verifier.now)) }
{
    text.push_str(words)?;
    write_digits(text, alloc, verifier)
}

/// Appends the digits of a verifier between single quotes, with a space before them.
fn write_digits(text: &mut String, alloc: Global, verifier: &Verifier) -> Result<(), AllocError>
    ensures { OnOk result (string_bytes text.new ≡ string_bytes text.old ++ digits_text verifier.now) }
{
    let digits = hex::encode(alloc, verifier.0)?;
    text.push_str(" '")?;
    text.push_str(digits.as_str())?;
    text.push_str("'")
}
