//! How many rows of the opening a grant or a revoke takes and gives.
ghost use Rattle.std.specs.Prelude.{◌≡◌, IfOk};
ghost use Rattle.acl_model.specs.State.{root as root_account};

use acl_names::{AuthId, HostText, Ident, UserName};
use acl_rows::{Row, Rows};
use acl_stmt::{Limit, Statement};
use grant_effects::GrantParts;
use grant_parse::parse;
use priv_sets::Static;
use std::alloc::Global;
use std::test::Fail;

// SELECT stays restricted on the schema `mysql`.
#[tactic(auto, unfolding(acl_stmt::specs::Limits::is_limit, priv_sets::specs::StaticSet::holds, priv_sets::specs::Levels::has_level))]
fn limit(alloc: Global) -> Result<Limit, Fail> {
    Ok(Limit {
        schema: Ident::read(alloc, "mysql")?,
        privileges: Static::from_bits(1).ok_or("no set")?,
    })
}

// A statement by a grantor who has that limit or none, where root's SELECT may be restricted on `mysql`, and how many
// rows go and come. A revoke tells besides whether it finds something.
struct Effect {
    statement: &'static str,
    has_limit: bool,
    is_restricted: bool,
    effect: &'static str,
}

#[rattlefmt::skip]
static EFFECTS: [Effect; 22] = [
    Effect { statement: "GRANT ALL ON *.* TO root@localhost, ann WITH GRANT OPTION", has_limit: true, is_restricted: false, effect: "0 143" },
    Effect { statement: "GRANT ALL ON *.* TO root@localhost, ann", has_limit: true, is_restricted: false, effect: "0 101" },
    Effect { statement: "GRANT SELECT ON *.* TO root@localhost, ann", has_limit: true, is_restricted: false, effect: "0 3" },
    Effect { statement: "GRANT SELECT, SELECT (area) ON world.city TO root@localhost, ann", has_limit: true, is_restricted: false, effect: "0 4" },
    Effect { statement: "GRANT SELECT, SELECT (area) ON world.city TO root@localhost, ann WITH GRANT OPTION", has_limit: true, is_restricted: false, effect: "0 6" },
    Effect { statement: "GRANT ALL ON world.city TO root@localhost, ann", has_limit: true, is_restricted: false, effect: "0 24" },
    Effect { statement: "GRANT SELECT ON *.* TO root@localhost", has_limit: false, is_restricted: true, effect: "1 1" },
    Effect { statement: "GRANT SELECT ON *.* TO root@localhost", has_limit: true, is_restricted: true, effect: "0 1" },
    Effect { statement: "GRANT SELECT ON mysql.* TO root@localhost", has_limit: false, is_restricted: true, effect: "1 0" },
    Effect { statement: "GRANT SELECT ON world.* TO root@localhost", has_limit: false, is_restricted: true, effect: "0 1" },
    Effect { statement: "REVOKE ALL ON *.* FROM root@localhost", has_limit: false, is_restricted: false, effect: "70 0 found" },
    Effect { statement: "REVOKE SELECT ON *.* FROM root@localhost", has_limit: false, is_restricted: false, effect: "1 0 found" },
    Effect { statement: "REVOKE GRANT OPTION ON *.* FROM root@localhost", has_limit: false, is_restricted: false, effect: "21 0 found" },
    Effect { statement: "REVOKE ROLE_ADMIN ON *.* FROM root@localhost", has_limit: false, is_restricted: false, effect: "2 0 found" },
    Effect { statement: "REVOKE ALL ON pay.* FROM root@localhost", has_limit: false, is_restricted: false, effect: "0 18 found" },
    Effect { statement: "REVOKE SELECT ON pay.* FROM root@localhost", has_limit: false, is_restricted: false, effect: "0 1 found" },
    Effect { statement: "REVOKE GRANT OPTION ON pay.* FROM root@localhost", has_limit: false, is_restricted: false, effect: "0 1 found" },
    Effect { statement: "REVOKE SELECT ON pay.due FROM root@localhost", has_limit: false, is_restricted: false, effect: "0 0 not by root" },
    Effect { statement: "REVOKE ALL ON FUNCTION pay.due FROM root@localhost", has_limit: false, is_restricted: false, effect: "0 0 not by root" },
    Effect { statement: "REVOKE ALL ON PROCEDURE pay.due FROM root@localhost", has_limit: false, is_restricted: false, effect: "0 0 not by root" },
    Effect { statement: "REVOKE SELECT ON pay.* FROM root@localhost, ann, bob", has_limit: false, is_restricted: false, effect: "0 1 not by ann" },
    Effect { statement: "REVOKE ALL PRIVILEGES, GRANT OPTION FROM root@localhost", has_limit: false, is_restricted: false, effect: "71" },
];

fn root(alloc: Global) -> Result<AuthId, Fail>
    ensures { IfOk result (λ account. account ≡ root_account) }
{
    let user = UserName::read(alloc, "root")?;
    let host = HostText::read(alloc, "localhost")?;
    Ok(AuthId { user, host })
}

#[tactic(auto, unfolding(priv_sets::specs::Levels::has_level))]
fn restricted(alloc: Global) -> Result<Rows, Fail> {
    let mut rows = Rows::opening(alloc)?;
    let account = root(alloc)?;
    let schema = Ident::read(alloc, "mysql")?;
    rows.put(Row::Restriction(account, 0, schema))?;
    Ok(rows)
}

fn granted(
    alloc: Global,
    rows: &Rows,
    limits: &[Limit],
    grant: &GrantParts,
) -> Result<String, Fail> {
    let taken = grant_effects::rows_taken(alloc, rows, limits, grant)?.len();
    let given = grant_effects::rows_given(alloc, rows, limits, grant)?.len();
    Ok(format!(in alloc; "{taken} {given}")?)
}

fn found(alloc: Global, account: Option<&AuthId>) -> Result<String, Fail> {
    Ok(match account {
        Some(account) => format!(in alloc; "not by {}", account.user.as_str())?,
        None => String::from_str(alloc, "found")?,
    })
}

fn effect_of(
    alloc: Global,
    rows: &Rows,
    limits: &[Limit],
    statement: &Statement,
) -> Result<String, Fail> {
    match statement {
        Statement::Grant {
            privileges,
            target,
            accounts,
            with_grant_option,
        } => {
            let grant = GrantParts {
                privileges,
                target,
                accounts: accounts.as_slice(),
                with_grant_option: *with_grant_option,
            };
            granted(alloc, rows, limits, &grant)
        }
        Statement::Revoke {
            privileges,
            target,
            accounts,
        } => {
            let accounts = accounts.as_slice();
            let taken = revoke_effects::rows_taken(
                alloc, rows, privileges, target, accounts,
            )?.len();
            let given = revoke_effects::rows_given(
                alloc, rows, privileges, target, accounts,
            )?.len();
            let first = revoke_effects::first_without_grant(
                alloc, rows, privileges, target, accounts,
            )?;
            let found = found(alloc, first)?;
            Ok(format!(in alloc; "{taken} {given} {found}")?)
        }
        Statement::RevokeAll { accounts } => {
            let taken = revoke_effects::all_rows_taken(alloc, rows, accounts.as_slice())?.len();
            Ok(format!(in alloc; "{taken}")?)
        }
        _ => Ok(String::new(alloc)),
    }
}

#[test]
fn grants_and_revokes_take_and_give_rows(rt: HostRuntime) -> Result<(), Fail> {
    let alloc = rt.alloc();
    let limits = [limit(alloc)?];
    for case in &EFFECTS {
        let rows = if case.is_restricted {
            restricted(alloc)?
        } else {
            Rows::opening(alloc)?
        };
        let limits = if case.has_limit {
            &limits[..]
        } else {
            &limits[..0]
        };
        let statement = parse(alloc, case.statement, 1000)?;
        let effect = effect_of(alloc, &rows, limits, &statement)?;
        assert_eq!(rt; effect.as_str(), case.effect, "{}", case.statement);
    }
    Ok(())
}
