ghost use Rattle.std.specs.Prelude.{◌≡◌, ◌++◌, OnOk, string_bytes};
ghost use Rattle.canonical_texts.specs.Statements.{alter_user_text, create_role_text, create_user_text, drop_text};

use crate::accounts::write_accounts;
use crate::lists::{write_if, write_list};
use crate::options::write_options;
use acl_names::{AuthId, Verifier};
use acl_stmt::AccountOptions;
use std::alloc::{AllocError, Global};

pub(crate) fn write_create_user(
    text: &mut String,
    alloc: Global,
    if_not_exists: bool,
    accounts: &[(AuthId, Verifier)],
    options: &AccountOptions,
) -> Result<(), AllocError>
    ensures { OnOk result (string_bytes text.new
        ≡ string_bytes text.old ++ create_user_text if_not_exists accounts.now options.now) }
{
    text.push_str("CREATE USER")?;
    write_if(text, if_not_exists, " IF NOT EXISTS")?;
    write_list(text, alloc, " ", ", ", accounts)?;
    write_options(text, options)
}

pub(crate) fn write_alter_user(
    text: &mut String,
    alloc: Global,
    accounts: &[(AuthId, Option<Verifier>)],
    options: &AccountOptions,
) -> Result<(), AllocError>
    ensures { OnOk result (string_bytes text.new
        ≡ string_bytes text.old ++ alter_user_text accounts.now options.now) }
{
    text.push_str("ALTER USER")?;
    write_list(text, alloc, " ", ", ", accounts)?;
    write_options(text, options)
}

pub(crate) fn write_create_role(
    text: &mut String,
    alloc: Global,
    if_not_exists: bool,
    roles: &[AuthId],
) -> Result<(), AllocError>
    ensures { OnOk result (string_bytes text.new
        ≡ string_bytes text.old ++ create_role_text if_not_exists roles.now) }
{
    text.push_str("CREATE ROLE")?;
    write_if(text, if_not_exists, " IF NOT EXISTS")?;
    write_accounts(text, alloc, roles)
}

/// Appends DROP USER or DROP ROLE, as `words` say.
pub(crate) fn write_drop(
    text: &mut String,
    alloc: Global,
    words: &str,
    if_exists: bool,
    accounts: &[AuthId],
) -> Result<(), AllocError>
    ensures { OnOk result (string_bytes text.new
        ≡ string_bytes text.old ++ drop_text words.now if_exists accounts.now) }
{
    text.push_str(words)?;
    write_if(text, if_exists, " IF EXISTS")?;
    write_accounts(text, alloc, accounts)
}
