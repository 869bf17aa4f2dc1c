//! Logins of local clients.
ghost use Rattle.std.specs.Prelude.{◌≡◌, ◌<◌, ◌^◌, length, IfOk, IfSome};
ghost use Rattle.std.specs.Option.{option_map};
ghost use Rattle.std.specs.Str.{str_to_ascii_lowercase};
ghost use Rattle.acl_model.specs.State.{stands};
ghost use Rattle.acl_rows.specs.Tables.{state_of};
ghost use Rattle.map_publish.specs.History.{entries_of};
ghost use Rattle.script_run.specs.Lines.{state_now};
ghost use Rattle.script_run.specs.Seats.{IsEntered};
ghost use Rattle.session_rules.specs.Setting.{chosen};

use acl_items::Items;
use acl_names::{AuthId, HostText, UserName};
use acl_rows::Rows;
use map_publish::Published;
use session_check::SessionState;
use std::alloc::{AllocError, Global};

/// A login that is answered with an account.
#[derive(Drop)]
pub(crate) struct Entered {
    pub(crate) shown: AuthId,
    pub(crate) state: SessionState,
}

/// The login of a local client; None where no account fits.
pub(crate) fn log_in(
    alloc: Global,
    published: &Published,
    user: &UserName,
) -> Result<Option<Entered>, AllocError>
    ensures chosen { IfOk result (λ entered. chosen (state_now (entries_of published.now)) user.now
        ≡ option_map (λ e. e.shown) entered) }
    ensures entered { IfOk result (λ entered. IfSome entered (IsEntered (entries_of published.now))) }
{
    let Some(account) = choose(alloc, published.map().rows(), user)? else {
        return Ok(None);
    };
    let acting = published.map().acting(alloc, &account, Items::new(alloc))?;
    Ok(Some(Entered {
        shown: account,
        state: SessionState::new(acting, published.length()),
    }))
}

fn choose(alloc: Global, rows: &Rows, user: &UserName) -> Result<Option<AuthId>, AllocError>
    ensures { IfOk result (λ account. account ≡ chosen (state_of rows.now) user.now) }
{
    let local = at_host(alloc, user, "localhost")?;
    if is_standing(rows, &local) {
        return Ok(Some(local));
    }
    let anywhere = at_host(alloc, user, "%")?;
    if is_standing(rows, &anywhere) {
        return Ok(Some(anywhere));
    }
    Ok(None)
}

fn is_standing(rows: &Rows, account: &AuthId) -> bool
    ensures { result ≡ stands (state_of rows.now) account.now }
{
    rows.account(account).is_some()
}

fn at_host(alloc: Global, user: &UserName, host: &str) -> Result<AuthId, AllocError>
    requires { length host.now < 2 ^ 32 }
    ensures user { IfOk result (λ account. account.user ≡ user.now) }
    ensures host { IfOk result (λ account. account.host ≡ str_to_ascii_lowercase host.now) }
{
    Ok(AuthId {
        user: user.copy(alloc)?,
        host: HostText::read(alloc, host).map_err(|_| AllocError)?,
    })
}
