ghost use Rattle.std.specs.Prelude.{◌≡◌, ◌++◌, IfOk, OnOk, string_bytes};
ghost use Rattle.mandatory_roles.specs.Text.{roles_text};
ghost use Rattle.canonical_texts.specs.Quotes.{string_text};
ghost use Rattle.canonical_texts.specs.Statements.{activate_text, for_text, mandatory_text, set_password_text};

use crate::accounts::write_verifier;
use crate::lists::write_list;
use crate::quotes::write_string;
use acl_names::{AuthId, Verifier};
use std::alloc::{AllocError, Global};

pub(crate) fn write_set_password(
    text: &mut String,
    alloc: Global,
    account: &Option<AuthId>,
    verifier: &Verifier,
) -> Result<(), AllocError>
    ensures { OnOk result (string_bytes text.new
        ≡ string_bytes text.old ++ set_password_text account.now verifier.now) }
{
    text.push_str("SET PASSWORD")?;
    write_for(text, account)?;
    write_verifier(text, alloc, " = VERIFIER", verifier)
}

fn write_for(text: &mut String, account: &Option<AuthId>) -> Result<(), AllocError>
    ensures { OnOk result (string_bytes text.new ≡ string_bytes text.old ++ for_text account.now) }
{
    match account {
        None => Ok(()),
        Some(account) => {
            text.push_str(" FOR ")?;
            account.append_to(text)
        }
    }
}

pub(crate) fn write_mandatory(
    text: &mut String,
    alloc: Global,
    roles: &[AuthId],
) -> Result<(), AllocError>
    ensures { OnOk result (string_bytes text.new ≡ string_bytes text.old ++ mandatory_text roles.now) }
{
    let names = roles_text(alloc, roles)?;
    write_setting(text, "SET PERSIST mandatory_roles = ", names.as_str())
}

/// Appends `words` and a string.
fn write_setting(text: &mut String, words: &str, value: &str) -> Result<(), AllocError>
    ensures { OnOk result (string_bytes text.new ≡ string_bytes text.old ++ (words.now ++ string_text value.now)) }
{
    text.push_str(words)?;
    write_string(text, value)
}

fn roles_text(alloc: Global, roles: &[AuthId]) -> Result<String, AllocError>
    ensures { IfOk result (λ names. string_bytes names ≡ roles_text roles.now) }
{
    let mut names = String::new(alloc);
    write_list(&mut names, alloc, "", ",", roles)?;
    Ok(names)
}

pub(crate) fn write_activate(text: &mut String, on: bool) -> Result<(), AllocError>
    ensures { OnOk result (string_bytes text.new ≡ string_bytes text.old ++ activate_text on) }
{
    if on {
        text.push_str("SET PERSIST activate_all_roles_on_login = ON")
    } else {
        text.push_str("SET PERSIST activate_all_roles_on_login = OFF")
    }
}
