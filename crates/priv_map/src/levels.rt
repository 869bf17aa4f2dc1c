//! What an account holds on `*.*` and on a schema, as sets.
ghost use Rattle.std.specs.Prelude.{◌≡◌, ℕ, ◌<◌, ◌&&◌, ◌||◌, ◌==◌, IsTrue};
ghost use Rattle.acl_model.specs.declared.row.Row.TheVariants.{Dynamic as DynamicRow, DynamicGrant, Global as GlobalRow, Schema as SchemaRow};
ghost use Rattle.acl_rows.specs.Tables.{state_of};
ghost use Rattle.priv_sets.specs.DynamicSet.{grants_dynamic, holds_dynamic};
ghost use Rattle.priv_sets.specs.StaticSet.{holds, is_known};

use acl_names::{AuthId, Ident};
use acl_rows::Rows;
use priv_sets::{DynSet, Dynamic, Plain, Static};

fn with_where(set: Static, number: u8, is_held: bool) -> Static
    requires { number < 31 }
    ensures members { (q : ℕ) → holds result q ≡ ((is_held && q == number) || holds set q) }
    ensures known { IsTrue (is_known set) → IsTrue (is_known result) }
{
    if is_held {
        set.with(Plain::new(number))
    } else {
        set
    }
}

/// The static privileges that the account holds on `*.*`.
pub(crate) fn plain_held(rows: &Rows, account: &AuthId) -> Static
    ensures members { (q : ℕ) → q < 31 →
        holds result q ≡ (state_of rows.now).rows (GlobalRow account.now q) }
    ensures known { IsTrue (is_known result) }
{
    let mut set = Static::none();
    for number in 0..31 {
        set = with_where(set, number, rows.holds_globally(account, number));
    }
    set
}

/// The static privileges that the account holds on the schema.
pub(crate) fn held_on_schema(rows: &Rows, account: &AuthId, schema: &Ident) -> Static
    ensures members { (q : ℕ) → q < 31 →
        holds result q ≡ (state_of rows.now).rows (SchemaRow account.now schema.now q) }
    ensures known { IsTrue (is_known result) }
{
    let mut set = Static::none();
    for number in 0..31 {
        set = with_where(set, number, rows.holds_on_schema(account, schema, number));
    }
    set
}

fn with_dynamic(set: DynSet, number: u8, is_held: bool, is_grantable: bool) -> DynSet
    requires { number < 20 }
    ensures held { (q : ℕ) →
        holds_dynamic result q ≡ ((is_held && q == number) || holds_dynamic set q) }
    ensures grantable { (q : ℕ) → grants_dynamic result q
        ≡ ((is_held && is_grantable && q == number) || grants_dynamic set q) }
{
    if is_held {
        set.with(Dynamic::new(number), is_grantable)
    } else {
        set
    }
}

/// The dynamic privileges that the account holds, with those of their grant options that it holds.
pub(crate) fn dynamic_held(rows: &Rows, account: &AuthId) -> DynSet
    ensures held { (d : ℕ) → d < 20 →
        holds_dynamic result d ≡ (state_of rows.now).rows (DynamicRow account.now d) }
    ensures grantable { (d : ℕ) → d < 20 → grants_dynamic result d
        ≡ ((state_of rows.now).rows (DynamicRow account.now d)
        && (state_of rows.now).rows (DynamicGrant account.now d)) }
{
    let mut set = DynSet::none();
    for number in 0..20 {
        let is_held = rows.holds_dynamic(account, number);
        let is_grantable = rows.may_grant_dynamic(account, number);
        set = with_dynamic(set, number, is_held, is_grantable);
    }
    set
}
