//! Rows that go and rows that come, tried and then carried out.
ghost use Rattle.std.specs.Prelude.{◌≡◌, ◌+◌, IfErr, IfOk, OnOk, length};
ghost use Rattle.acl_model.specs.Acceptance.{limits_in_order};
ghost use Rattle.acl_model.specs.Counts.{IsExceeded};
ghost use Rattle.acl_model.specs.Firsts.{HasNone, IsFirst};
ghost use Rattle.row_tables.specs.Lists.{IsClosed, with_rows, without_rows};
ghost use Rattle.row_tables.specs.Rooms.{RowsFitIn, room_of};
ghost use Rattle.row_tables.specs.Tables.{state_of};
ghost use Rattle.row_edits.specs.Causes.{IsWantOrLimit};
ghost use Rattle.row_edits.specs.Edits.{IsEditOf, MayBeTried, edited};
ghost use Rattle.row_edits.specs.Parts.{AreNew, ArePartsOf, is_new, new_of};

use crate::come::{edit, options_of, plain_of};
use crate::limits::within_limits;
use acl_stmt::{Full, Refusal};
use row_tables::{Room, Row, Rows, take_all};
use std::alloc::{AllocError, Global};

/// Rows that go and rows that come, which were tried and may be carried out.
#[derive(Drop)]
pub struct RowEdit {
    gone: Vec<Row>,
    plain: Vec<Row>,
    options: Vec<Row>,
}

/// Carries out the edit, which needs to be one of these rows. It takes no memory.
#[tactic(auto, unfolding(crate::specs::Edits::edited))]
pub fn carry_out(rows: &mut Rows, edit: RowEdit)
    requires { IsEditOf edit rows.old }
    ensures { state_of rows.new ≡ edited edit (state_of rows.old) }
{
    let RowEdit {
        gone,
        plain,
        options,
    } = edit;
    crate::come::edit(rows, &gone, plain, options);
}

// The rows of a list that stand on accounts alone, and those that stand on other rows.
#[derive(Drop)]
pub(crate) struct Parts {
    plain: Vec<Row>,
    options: Vec<Row>,
}

fn parts_of(alloc: Global, rows: &[Row]) -> Result<Parts, AllocError>
    ensures { IfOk result (ArePartsOf rows.now) }
{
    Ok(Parts {
        plain: plain_of(alloc, rows)?,
        options: options_of(alloc, rows)?,
    })
}

// Room for two lists of so many rows, none of which is an account.
fn room_for(first: usize, second: usize) -> Result<Room, AllocError>
    ensures { IfOk result (RowsFitIn (first + second)) }
{
    let rows = first.checked_add(second).ok_or(AllocError)?;
    let rows = u32::try_from(rows).map_err(|_| AllocError)?;
    Ok(Room {
        accounts: 0,
        schemas: rows,
        pairs: rows,
        objects: rows,
        edges: rows,
    })
}

fn is_new(rows: &Rows, row: &Row) -> bool
    ensures { result ≡ is_new (state_of rows.now) row.now }
{
    !rows.held(row)
}

fn keep_new(rows: &Rows, come: &mut Vec<Row>)
    ensures { come.new.items ≡ new_of (state_of rows.now) come.old.items }
{
    come.retain(|row| is_new(rows, row));
}

// The first limit that is exceeded with the rows gone and come, which are taken back.
fn limits_after(
    rows: &mut Rows,
    gone: &[Row],
    come: &[Row],
    there: Parts,
    back: Parts,
) -> Result<(), Full>
    requires tried { MayBeTried (state_of rows.old) gone.now come.now }
    requires new { AreNew (state_of rows.old) come.now }
    requires there { ArePartsOf come.now there }
    requires back { ArePartsOf gone.now back }
    requires room { RowsFitIn (length come.now + length gone.now) (room_of rows.old) }
    ensures kept { state_of rows.new ≡ state_of rows.old }
    ensures ok { OnOk result (HasNone (IsExceeded (with_rows come.now (without_rows gone.now (state_of rows.old)))) limits_in_order) }
    ensures err { IfErr result
        (IsFirst (IsExceeded (with_rows come.now (without_rows gone.now (state_of rows.old)))) limits_in_order) }
{
    rows.options_stand_beside();
    rows.rows_have_levels();
    rows.rows_name_accounts();
    edit(rows, gone, there.plain, there.options);
    let within = within_limits(rows);
    edit(rows, come, back.plain, back.options);
    within
}

// Whether the limits hold with the rows gone and come.
fn may_come(alloc: Global, rows: &mut Rows, gone: &[Row], come: &[Row]) -> Result<(), Refusal>
    requires tried { MayBeTried (state_of rows.old) gone.now come.now }
    requires new { AreNew (state_of rows.old) come.now }
    ensures kept { state_of rows.new ≡ state_of rows.old }
    ensures ok { OnOk result (HasNone (IsExceeded (with_rows come.now (without_rows gone.now (state_of rows.old)))) limits_in_order) }
    ensures err { IfErr result (IsWantOrLimit
        (IsFirst (IsExceeded (with_rows come.now (without_rows gone.now (state_of rows.old)))) limits_in_order)) }
{
    let room = room_for(come.len(), gone.len()).map_err(|_| Refusal::NoMemory)?;
    rows.reserve(room).map_err(|_| Refusal::NoMemory)?;
    let there = parts_of(alloc, come).map_err(|_| Refusal::NoMemory)?;
    let back = parts_of(alloc, gone).map_err(|_| Refusal::NoMemory)?;
    limits_after(rows, gone, come, there, back).map_err(|what| Refusal::Full { what })
}

// The edit, with room for it made.
fn edit_of(
    alloc: Global,
    rows: &mut Rows,
    gone: Vec<Row>,
    come: &[Row],
) -> Result<RowEdit, AllocError>
    requires { MayBeTried (state_of rows.old) gone.items come.now }
    ensures kept { state_of rows.new ≡ state_of rows.old }
    ensures edit { IfOk result (λ edit. IsEditOf edit rows.new) }
    ensures change { IfOk result (λ edit.
        edited edit (state_of rows.old) ≡ with_rows come.now (without_rows gone.items (state_of rows.old))) }
{
    rows.reserve(room_for(come.len(), 0)?)?;
    let parts = parts_of(alloc, come)?;
    Ok(RowEdit {
        gone,
        plain: parts.plain,
        options: parts.options,
    })
}

/// Tries rows that go and rows that come, and changes no row: a limit that is exceeded then is an error.
pub fn try_rows(
    alloc: Global,
    rows: &mut Rows,
    gone: Vec<Row>,
    mut come: Vec<Row>,
) -> Result<RowEdit, Refusal>
    requires { MayBeTried (state_of rows.old) gone.items come.items }
    ensures kept { state_of rows.new ≡ state_of rows.old }
    ensures within { OnOk result
        (HasNone (IsExceeded (with_rows come.items (without_rows gone.items (state_of rows.old)))) limits_in_order) }
    ensures edit { IfOk result (λ edit. IsEditOf edit rows.new) }
    ensures change { IfOk result (λ edit.
        edited edit (state_of rows.old) ≡ with_rows come.items (without_rows gone.items (state_of rows.old))) }
    ensures err { IfErr result (IsWantOrLimit
        (IsFirst (IsExceeded (with_rows come.items (without_rows gone.items (state_of rows.old)))) limits_in_order)) }
{
    keep_new(rows, &mut come);
    may_come(alloc, rows, &gone, &come)?;
    match edit_of(alloc, rows, gone, &come) {
        Ok(edit) => Ok(edit),
        Err(_) => Err(Refusal::NoMemory),
    }
}

/// Tries rows that go, and changes no row: a limit that is exceeded without them is an error.
pub fn try_gone(alloc: Global, rows: &Rows, gone: Vec<Row>) -> Result<RowEdit, Refusal>
    requires { IsClosed (state_of rows.now) gone.items }
    ensures within { OnOk result (HasNone (IsExceeded (without_rows gone.items (state_of rows.now))) limits_in_order) }
    ensures edit { IfOk result (λ edit. IsEditOf edit rows.now) }
    ensures change { IfOk result (λ edit. edited edit (state_of rows.now) ≡ without_rows gone.items (state_of rows.now)) }
    ensures err { IfErr result (IsWantOrLimit
        (IsFirst (IsExceeded (without_rows gone.items (state_of rows.now))) limits_in_order)) }
{
    may_go(alloc, rows, &gone)?;
    Ok(RowEdit {
        gone,
        plain: Vec::new(alloc),
        options: Vec::new(alloc),
    })
}

// Whether the limits hold without the rows. Where they hold with them, they do.
fn may_go(alloc: Global, rows: &Rows, gone: &[Row]) -> Result<(), Refusal>
    requires { IsClosed (state_of rows.now) gone.now }
    ensures ok { OnOk result (HasNone (IsExceeded (without_rows gone.now (state_of rows.now))) limits_in_order) }
    ensures err { IfErr result (IsWantOrLimit
        (IsFirst (IsExceeded (without_rows gone.now (state_of rows.now))) limits_in_order)) }
{
    rows.fewer_rows_exceed_no_more();
    if within_limits(rows).is_ok() {
        return Ok(());
    }
    match limits_without(alloc, rows, gone) {
        Ok(within) => within.map_err(|what| Refusal::Full { what }),
        Err(_) => Err(Refusal::NoMemory),
    }
}

// The first limit that is exceeded in a copy without the rows.
fn limits_without(alloc: Global, rows: &Rows, gone: &[Row]) -> Result<Result<(), Full>, AllocError>
    requires { IsClosed (state_of rows.now) gone.now }
    ensures ok { IfOk result (λ within. OnOk within
        (HasNone (IsExceeded (without_rows gone.now (state_of rows.now))) limits_in_order)) }
    ensures err { IfOk result (λ within. IfErr within
        (IsFirst (IsExceeded (without_rows gone.now (state_of rows.now))) limits_in_order)) }
{
    let mut left = rows.copy(alloc)?;
    take_all(&mut left, gone);
    Ok(within_limits(&left))
}
