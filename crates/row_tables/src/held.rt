//! Rows as what numbered accounts hold.
ghost use Rattle.std.specs.Prelude.{◌≡◌, ◌<◌, ◌≤◌, IfSome, IsTrue, None, Some, length};
ghost use Rattle.account_holdings.specs.Rooms.{LosesAtMost};
ghost use Rattle.acl_names.specs.AuthId.{same_auth};
ghost use Rattle.row_tables.specs.Held.{FitsHeld, IsReadyHeld};
ghost use Rattle.row_tables.specs.Conditions.{has_its_level};
ghost use Rattle.numbered_rows.specs.Numbering.{holding_of, number_of as number_in};
ghost use Rattle.numbered_rows.specs.Steps.{Comes, Goes, MayGo};

use account_holdings::{AccountHoldings, GlobalKind};
use acl_model::Row;
use acl_names::AuthId;
use numbered_names::NumberedNames;
use object_bits::{Object, ObjectRef};

/// The number of the account.
pub(crate) fn number_of(names: &NumberedNames<AuthId>, account: &AuthId) -> Option<u32>
    ensures is { result ≡ number_in names.now.names account.now }
    ensures within { IfSome result (λ number. number < length names.now.names) }
{
    names.number_of(account)
}

/// Makes what the row says held, where its accounts stand.
#[tactic(auto, using(crate::proofs::Privileges::level_below))]
pub(crate) fn put_held(holdings: &mut AccountHoldings, names: &NumberedNames<AuthId>, row: Row)
    requires few { length names.now.names ≤ 4096 }
    requires counted { length holdings.old.globals ≡ length names.now.names }
    requires level { IsTrue (has_its_level row) }
    requires ready { IsReadyHeld holdings.old (holding_of names.now.names row) }
    requires room { FitsHeld holdings.old (holding_of names.now.names row) }
    ensures comes { Comes holdings.old holdings.new (holding_of names.now.names row) }
    ensures room { LosesAtMost 1 holdings.old holdings.new }
    ensures accounts { length holdings.new.globals ≡ length holdings.old.globals }
{
    match row {
        Row::Account(_) => {}
        Row::Global(a, p) => {
            if let Some(n) = number_of(names, &a) {
                holdings.put_on_all(GlobalKind::Static, n, p);
            }
        }
        Row::Dynamic(a, d) => {
            if let Some(n) = number_of(names, &a) {
                holdings.put_on_all(GlobalKind::Dynamic, n, d);
            }
        }
        Row::DynamicGrant(a, d) => {
            if let Some(n) = number_of(names, &a) {
                holdings.put_on_all(GlobalKind::Grantable, n, d);
            }
        }
        Row::Schema(a, s, p) => {
            if let Some(n) = number_of(names, &a) {
                holdings.put_on_schema(n, s, p);
            }
        }
        Row::Restriction(a, p, s) => {
            if let Some(n) = number_of(names, &a) {
                holdings.put_restriction(n, s, p);
            }
        }
        Row::Edge { role, to } => {
            if let (Some(m), Some(n)) = (number_of(names, &role), number_of(names, &to)) {
                holdings.put_role(m, n);
            }
        }
        Row::Admin { role, to } => {
            if let (Some(m), Some(n)) = (number_of(names, &role), number_of(names, &to)) {
                holdings.put_admin(m, n);
            }
        }
        Row::Default { of, role } => {
            if let (Some(m), Some(n)) = (number_of(names, &of), number_of(names, &role)) {
                holdings.put_default(m, n);
            }
        }
        Row::Table(a, s, t, p) => {
            if let Some(n) = number_of(names, &a) {
                holdings.put_on_object(n, Object::Table(s, t), p);
            }
        }
        Row::Column(a, s, t, c, p) => {
            if let Some(n) = number_of(names, &a) {
                holdings.put_on_object(n, Object::Column(s, t, c), p);
            }
        }
        Row::Function(a, s, f, p) => {
            if let Some(n) = number_of(names, &a) {
                holdings.put_on_object(n, Object::Function(s, f), p);
            }
        }
        Row::Procedure(a, s, f, p) => {
            if let Some(n) = number_of(names, &a) {
                holdings.put_on_object(n, Object::Procedure(s, f), p);
            }
        }
    }
}

/// Makes what the row says held no more.
pub(crate) fn take_held(holdings: &mut AccountHoldings, names: &NumberedNames<AuthId>, row: &Row)
    requires few { length names.now.names ≤ 4096 }
    requires may_go { MayGo holdings.old (holding_of names.now.names row.now) }
    ensures goes { Goes holdings.old holdings.new (holding_of names.now.names row.now) }
    ensures room { LosesAtMost 0 holdings.old holdings.new }
    ensures accounts { length holdings.new.globals ≡ length holdings.old.globals }
{
    match row {
        Row::Account(_) => {}
        Row::Global(a, p) => {
            if let Some(n) = number_of(names, a) {
                holdings.take_on_all(GlobalKind::Static, n, *p);
            }
        }
        Row::Dynamic(a, d) => {
            if let Some(n) = number_of(names, a) {
                holdings.take_on_all(GlobalKind::Dynamic, n, *d);
            }
        }
        Row::DynamicGrant(a, d) => {
            if let Some(n) = number_of(names, a) {
                holdings.take_on_all(GlobalKind::Grantable, n, *d);
            }
        }
        Row::Schema(a, s, p) => {
            if let Some(n) = number_of(names, a) {
                holdings.take_on_schema(n, s, *p);
            }
        }
        Row::Restriction(a, p, s) => {
            if let Some(n) = number_of(names, a) {
                holdings.take_restriction(n, s, *p);
            }
        }
        Row::Edge { role, to } => {
            if let (Some(m), Some(n)) = (number_of(names, role), number_of(names, to)) {
                holdings.take_role(m, n);
            }
        }
        Row::Admin { role, to } => {
            if let (Some(m), Some(n)) = (number_of(names, role), number_of(names, to)) {
                holdings.take_admin(m, n);
            }
        }
        Row::Default { of, role } => {
            if let (Some(m), Some(n)) = (number_of(names, of), number_of(names, role)) {
                holdings.take_default(m, n);
            }
        }
        Row::Table(a, s, t, p) => {
            if let Some(n) = number_of(names, a) {
                holdings.take_on_object(n, ObjectRef::Table(s, t), *p);
            }
        }
        Row::Column(a, s, t, c, p) => {
            if let Some(n) = number_of(names, a) {
                holdings.take_on_object(n, ObjectRef::Column(s, t, c), *p);
            }
        }
        Row::Function(a, s, f, p) => {
            if let Some(n) = number_of(names, a) {
                holdings.take_on_object(n, ObjectRef::Function(s, f), *p);
            }
        }
        Row::Procedure(a, s, f, p) => {
            if let Some(n) = number_of(names, a) {
                holdings.take_on_object(n, ObjectRef::Procedure(s, f), *p);
            }
        }
    }
}
