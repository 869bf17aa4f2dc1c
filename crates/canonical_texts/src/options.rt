ghost use Rattle.std.specs.Prelude.{◌≡◌, ◌++◌, OnOk, string_bytes};
ghost use Rattle.canonical_texts.specs.Texts.{attempts_text, days_text, locked_text, options_text};

use acl_names::LockTime;
use acl_stmt::AccountOptions;
use std::alloc::AllocError;

/// Appends what a statement sets of an account.
pub(crate) fn write_options(text: &mut String, options: &AccountOptions) -> Result<(), AllocError>
    ensures { OnOk result (string_bytes text.new ≡ string_bytes text.old ++ options_text options.now) }
{
    write_attempts(text, options.attempts)?;
    write_days(text, options.days)?;
    write_locked(text, options.locked)
}

fn write_attempts(text: &mut String, attempts: Option<u16>) -> Result<(), AllocError>
    ensures { OnOk result (string_bytes text.new ≡ string_bytes text.old ++ attempts_text attempts) }
{
    match attempts {
        None => Ok(()),
        Some(attempts) => write!(text, " FAILED_LOGIN_ATTEMPTS {attempts}"),
    }
}

fn write_days(text: &mut String, days: Option<LockTime>) -> Result<(), AllocError>
    ensures { OnOk result (string_bytes text.new ≡ string_bytes text.old ++ days_text days) }
{
    match days {
        None => Ok(()),
        Some(LockTime::Days(days)) => write!(text, " PASSWORD_LOCK_TIME {days}"),
        Some(LockTime::Unbounded) => text.push_str(" PASSWORD_LOCK_TIME UNBOUNDED"),
    }
}

fn write_locked(text: &mut String, locked: Option<bool>) -> Result<(), AllocError>
    ensures { OnOk result (string_bytes text.new ≡ string_bytes text.old ++ locked_text locked) }
{
    match locked {
        None => Ok(()),
        Some(true) => text.push_str(" ACCOUNT LOCK"),
        Some(false) => text.push_str(" ACCOUNT UNLOCK"),
    }
}
