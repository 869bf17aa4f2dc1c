//! The commands that a run takes so far.
ghost use Rattle.std.specs.Prelude.{◌≡◌};
ghost use Rattle.std.specs.List.{list_all};
ghost use Rattle.acl_names.specs.Verifiers.{empty_verifier};
ghost use Rattle.script_run.specs.Forms.{has_no_options, has_no_password, is_built, is_built_statement, is_local, is_static};

use account_match::Client;
use acl_names::{AuthId, Verifier};
use acl_rows::empty_verifier;
use acl_stmt::{AccountOptions, PrivList, Statement};
use script_read::{Command, Forms};

/// The commands that a run takes so far: CONNECT of a local client without a password, DISCONNECT, USE, CHECK, and
/// statements on accounts and static privileges.
#[derive(Clone, Copy)]
pub struct BuiltForms;

impl Forms for BuiltForms {
    ghost built = { is_built };

    fn is_built(command: &Command) -> bool {
        match command {
            Command::Connect {
                client,
                verifier,
                moment,
                ..
            } => is_local(client) && is_empty(*verifier) && moment.is_none(),
            Command::Disconnect | Command::UseSchema(_) => true,
            Command::Check(request) => is_static(&request.privileges),
            Command::Statement(statement) => is_built_statement(statement),
            _ => false,
        }
    }
}

fn is_local(client: &Client) -> bool
    ensures { result ≡ is_local client.now }
{
    matches!(client, Client::Local)
}

fn is_empty(verifier: Verifier) -> bool
    ensures { result ≡ has_no_password verifier }
{
    verifier.0 == empty_verifier().0
}

// Whether the list names no dynamic privilege.
fn is_static(privileges: &PrivList) -> bool
    ensures { result ≡ is_static privileges.now }
{
    privileges.dynamic == 0
}

fn is_built_statement(statement: &Statement) -> bool
    ensures { result ≡ is_built_statement statement.now }
{
    match statement {
        Statement::CreateUser {
            accounts,
            options,
            ..
        } => have_no_passwords(accounts.as_slice()) && has_no_options(options),
        Statement::DropUser { .. } | Statement::RenameUser { .. } | Statement::RevokeAll { .. } =>
            true,
        Statement::Grant { privileges, .. } | Statement::Revoke { privileges, .. } => {
            is_static(privileges)
        }
        _ => false,
    }
}

fn have_no_passwords(accounts: &[(AuthId, Verifier)]) -> bool
    ensures { result ≡ list_all (λ account. has_no_password account.1) accounts.now }
{
    accounts.iter().all(|account| is_empty(account.1))
}

fn has_no_options(options: &AccountOptions) -> bool
    ensures { result ≡ has_no_options options.now }
{
    options.attempts.is_none() && options.days.is_none() && options.locked.is_none()
}
