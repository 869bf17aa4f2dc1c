ghost use Rattle.std.specs.Prelude.{◌≡◌};
ghost use Rattle.acl_model.specs.State.{is_mandatory, stands};
ghost use Rattle.row_tables.specs.Tables.{state_of};

use acl_names::AuthId;
use row_tables::Rows;

pub(crate) fn is_standing(rows: &Rows, account: &AuthId) -> bool
    ensures { result ≡ stands (state_of rows.now) account.now }
{
    rows.account(account).is_some()
}

pub(crate) fn is_mandatory(rows: &Rows, role: &AuthId) -> bool
    ensures { result ≡ is_mandatory (state_of rows.now) role.now }
{
    rows.mandatory().iter().any(|name| role.is(name))
}
