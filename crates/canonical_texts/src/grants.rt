ghost use Rattle.std.specs.Prelude.{◌≡◌, ◌++◌, OnOk, string_bytes};
ghost use Rattle.canonical_texts.specs.Statements.{default_role_text, default_text, grant_roles_text, grant_text, revoke_roles_text, revoke_text};

use crate::accounts::write_accounts;
use crate::lists::write_if;
use crate::privileges::write_privileges;
use crate::target::write_target;
use acl_names::AuthId;
use acl_stmt::{DefaultForm, PrivList, Target};
use std::alloc::{AllocError, Global};

pub(crate) fn write_grant(
    text: &mut String,
    alloc: Global,
    privileges: &PrivList,
    target: &Target,
    accounts: &[AuthId],
    with_grant_option: bool,
) -> Result<(), AllocError>
    ensures { OnOk result (string_bytes text.new
        ≡ string_bytes text.old ++ grant_text privileges.now target.now accounts.now with_grant_option) }
{
    text.push_str("GRANT")?;
    write_privileges(text, alloc, privileges)?;
    text.push_str(" ON")?;
    write_target(text, alloc, target)?;
    text.push_str(" TO")?;
    write_accounts(text, alloc, accounts)?;
    write_if(text, with_grant_option, " WITH GRANT OPTION")
}

pub(crate) fn write_grant_roles(
    text: &mut String,
    alloc: Global,
    roles: &[AuthId],
    accounts: &[AuthId],
    with_admin_option: bool,
) -> Result<(), AllocError>
    ensures { OnOk result (string_bytes text.new
        ≡ string_bytes text.old ++ grant_roles_text roles.now accounts.now with_admin_option) }
{
    text.push_str("GRANT")?;
    write_accounts(text, alloc, roles)?;
    text.push_str(" TO")?;
    write_accounts(text, alloc, accounts)?;
    write_if(text, with_admin_option, " WITH ADMIN OPTION")
}

pub(crate) fn write_revoke(
    text: &mut String,
    alloc: Global,
    privileges: &PrivList,
    target: &Target,
    accounts: &[AuthId],
) -> Result<(), AllocError>
    ensures { OnOk result (string_bytes text.new
        ≡ string_bytes text.old ++ revoke_text privileges.now target.now accounts.now) }
{
    text.push_str("REVOKE")?;
    write_privileges(text, alloc, privileges)?;
    text.push_str(" ON")?;
    write_target(text, alloc, target)?;
    text.push_str(" FROM")?;
    write_accounts(text, alloc, accounts)
}

pub(crate) fn write_revoke_roles(
    text: &mut String,
    alloc: Global,
    roles: &[AuthId],
    accounts: &[AuthId],
) -> Result<(), AllocError>
    ensures { OnOk result (string_bytes text.new
        ≡ string_bytes text.old ++ revoke_roles_text roles.now accounts.now) }
{
    text.push_str("REVOKE")?;
    write_accounts(text, alloc, roles)?;
    text.push_str(" FROM")?;
    write_accounts(text, alloc, accounts)
}

pub(crate) fn write_default_role(
    text: &mut String,
    alloc: Global,
    form: &DefaultForm,
    accounts: &[AuthId],
) -> Result<(), AllocError>
    ensures { OnOk result (string_bytes text.new
        ≡ string_bytes text.old ++ default_role_text form.now accounts.now) }
{
    text.push_str("SET DEFAULT ROLE")?;
    write_default(text, alloc, form)?;
    text.push_str(" TO")?;
    write_accounts(text, alloc, accounts)
}

fn write_default(text: &mut String, alloc: Global, form: &DefaultForm) -> Result<(), AllocError>
    ensures { OnOk result (string_bytes text.new ≡ string_bytes text.old ++ default_text form.now) }
{
    match form {
        DefaultForm::Nothing => text.push_str(" NONE"),
        DefaultForm::All => text.push_str(" ALL"),
        DefaultForm::List(roles) => write_accounts(text, alloc, roles.as_slice()),
    }
}
