ghost use Rattle.std.specs.Prelude.{◌≡◌, ◌++◌, IfOk, OnOk, string_bytes};
ghost use Rattle.canonical_texts.specs.Statements.{canonical_text};

use crate::accounts::write_words_and_accounts;
use crate::grants::{
    write_default_role, write_grant, write_grant_roles, write_revoke, write_revoke_roles,
};
use crate::lists::write_list;
use crate::settings::{write_activate, write_mandatory, write_set_password};
use crate::users::{write_alter_user, write_create_role, write_create_user, write_drop};
use acl_stmt::Statement;
use std::alloc::{AllocError, Global};

/// The canonical text of `statement`.
///
/// MySQL 8.0 Reference Manual, "Account Management Statements".
pub fn text_of(alloc: Global, statement: &Statement) -> Result<String, AllocError>
    ensures { IfOk result (λ text. string_bytes text ≡ canonical_text statement.now) }
{
    let mut text = String::new(alloc);
    write_statement(&mut text, alloc, statement)?;
    Ok(text)
}

#[tactic(auto, unfolding(crate::specs::Statements::canonical_text))]
fn write_statement(
    text: &mut String,
    alloc: Global,
    statement: &Statement,
) -> Result<(), AllocError>
    ensures { OnOk result (string_bytes text.new ≡ string_bytes text.old ++ canonical_text statement.now) }
{
    match statement {
        Statement::CreateUser {
            if_not_exists,
            accounts,
            options,
        } => write_create_user(text, alloc, *if_not_exists, accounts.as_slice(), options),
        Statement::AlterUser { accounts, options } => {
            write_alter_user(text, alloc, accounts.as_slice(), options)
        }
        Statement::DropUser {
            if_exists,
            accounts,
        } => write_drop(text, alloc, "DROP USER", *if_exists, accounts.as_slice()),
        Statement::RenameUser { pairs } => {
            text.push_str("RENAME USER")?;
            write_list(text, alloc, " ", ", ", pairs.as_slice())
        }
        Statement::CreateRole {
            if_not_exists,
            roles,
        } => write_create_role(text, alloc, *if_not_exists, roles.as_slice()),
        Statement::DropRole { if_exists, roles } => {
            write_drop(text, alloc, "DROP ROLE", *if_exists, roles.as_slice())
        }
        Statement::Grant {
            privileges,
            target,
            accounts,
            with_grant_option,
        } => write_grant(
            text,
            alloc,
            privileges,
            target,
            accounts.as_slice(),
            *with_grant_option,
        ),
        Statement::GrantRoles {
            roles,
            accounts,
            with_admin_option,
        } => write_grant_roles(
            text,
            alloc,
            roles.as_slice(),
            accounts.as_slice(),
            *with_admin_option,
        ),
        Statement::Revoke {
            privileges,
            target,
            accounts,
        } => write_revoke(text, alloc, privileges, target, accounts.as_slice()),
        Statement::RevokeAll { accounts } => {
            let words = "REVOKE ALL PRIVILEGES, GRANT OPTION FROM";
            write_words_and_accounts(text, alloc, words, accounts.as_slice())
        }
        Statement::RevokeRoles { roles, accounts } => {
            write_revoke_roles(text, alloc, roles.as_slice(), accounts.as_slice())
        }
        Statement::SetDefaultRole { form, accounts } => {
            write_default_role(text, alloc, form, accounts.as_slice())
        }
        Statement::SetPassword { account, verifier } => {
            write_set_password(text, alloc, account, verifier)
        }
        Statement::SetMandatory { roles } => write_mandatory(text, alloc, roles.as_slice()),
        Statement::SetActivateAll { on } => write_activate(text, *on),
    }
}
