//! RENAME USER.
ghost use Rattle.std.specs.Prelude.{◌≡◌, ◌≤◌, ◌+◌, ◌<◌, [], None, IfErr, IfOk, IsTrue, OnErr, OnOk, length, map, reverse, take};
ghost use Rattle.std.specs.List.{find};
ghost use Rattle.std.specs.Option.{option_copied, option_map};
ghost use Rattle.acl_model.specs.Acceptance.{limits_in_order};
ghost use Rattle.acl_model.specs.Counts.{IsExceeded};
ghost use Rattle.acl_model.specs.Effects.{changed};
ghost use Rattle.acl_model.specs.Firsts.{HasNone, IsFirst};
ghost use Rattle.acl_model.specs.Refusals.{first_fault, no_renaming};
ghost use Rattle.acl_model.specs.State.{State, is_mandatory, stands};
ghost use Rattle.row_tables.specs.Changes.{renamed};
ghost use Rattle.row_tables.specs.Rooms.{LosesAtMost, room_of};
ghost use Rattle.row_tables.specs.Tables.{state_of};
ghost use Rattle.acl_stmt.specs.declared.refusal.Refusal.TheVariants.{Mandatory};
ghost use Rattle.acl_stmt.specs.declared.statement.Statement.TheVariants.{RenameUser};
ghost use Rattle.account_edits.specs.Causes.{IsFaultOrLimit, IsWantOrFault};
ghost use Rattle.account_edits.specs.Renamed.{AreLegal, AreRenamedFrom, HaveBeenRenamed, MayBeRenamed, pair_fault, renamed_in};

use crate::standing::{is_mandatory, is_standing};
use acl_names::AuthId;
use acl_stmt::Refusal;
use row_edits::within_limits;
use row_tables::{Room, Rows};
use std::alloc::{AllocError, Global};

/// Renames each account, the last pair first. It takes no memory.
pub fn rename_all(rows: &mut Rows, mut pairs: Vec<(AuthId, AuthId)>)
    requires legal { AreLegal pairs.items (state_of rows.old) }
    requires room { length pairs.items ≤ (room_of rows.old).accounts }
    ensures { state_of rows.new ≡ renamed_in pairs.items (state_of rows.old) }
{
    while let Some((old, new)) = pairs.pop() {
        rows.rename(&old, new);
    }
}

// Room for each name twice.
fn reserve_names(rows: &mut Rows, names: usize) -> Result<(), AllocError>
    ensures kept { state_of rows.new ≡ state_of rows.old }
    ensures room { OnOk result (names + names ≤ (room_of rows.new).accounts) }
{
    let accounts = u32::try_from(names).map_err(|_| AllocError)?;
    rows.reserve(Room {
        accounts: accounts.checked_mul(2).ok_or(AllocError)?,
        schemas: 0,
        pairs: 0,
        objects: 0,
        edges: 0,
    })
}

fn reversed(alloc: Global, pairs: &[(AuthId, AuthId)]) -> Result<Vec<(AuthId, AuthId)>, AllocError>
    ensures { IfOk result (λ made. made.items ≡ reverse pairs.now) }
{
    let mut made = Vec::with_capacity(alloc, pairs.len())?;
    for pair in pairs {
        made.push((pair.0.copy(alloc)?, pair.1.copy(alloc)?))?;
    }
    made.reverse();
    Ok(made)
}

/// The pairs, the last one first, with room for them.
pub fn last_first(
    alloc: Global,
    rows: &mut Rows,
    pairs: &[(AuthId, AuthId)],
) -> Result<Vec<(AuthId, AuthId)>, AllocError>
    ensures kept { state_of rows.new ≡ state_of rows.old }
    ensures pairs { IfOk result (λ made. made.items ≡ reverse pairs.now) }
    ensures room { IfOk result (λ made. length made.items ≤ (room_of rows.new).accounts) }
{
    reserve_names(rows, pairs.len())?;
    reversed(alloc, pairs)
}

/// Tries to rename one pair after the other, and changes no row. What is refused, or a limit that is exceeded then, is an error.
///
/// MySQL 8.0 Reference Manual, "RENAME USER Statement".
pub fn may_rename(alloc: Global, rows: &mut Rows, pairs: &[(AuthId, AuthId)]) -> Result<(), Refusal>
    ensures kept { state_of rows.new ≡ state_of rows.old }
    ensures fault { OnOk result (first_fault (state_of rows.old) (RenameUser pairs.now) ≡ None) }
    ensures within { OnOk result (HasNone (IsExceeded (changed [] (RenameUser pairs.now) (state_of rows.old))) limits_in_order) }
    ensures err { IfErr result (IsFaultOrLimit (first_fault (state_of rows.old) (RenameUser pairs.now))
        (changed [] (RenameUser pairs.now) (state_of rows.old))) }
{
    let Ok(back) = old_names(alloc, pairs) else {
        return Err(Refusal::NoMemory);
    };
    let Ok(()) = reserve_names(rows, pairs.len()) else {
        return Err(Refusal::NoMemory);
    };
    let mut done = 0;
    let tried = try_pairs(alloc, rows, pairs, &mut done);
    let within = within_limits(rows);
    undo(rows, pairs, back, done);
    tried?;
    none_mandatory(alloc, rows, pairs)?;
    match within {
        Ok(()) => Ok(()),
        Err(what) => Err(Refusal::Full { what }),
    }
}

// Renames pair by pair, up to the first that may not be, and counts them.
fn try_pairs(
    alloc: Global,
    rows: &mut Rows,
    pairs: &[(AuthId, AuthId)],
    done: &mut usize,
) -> Result<(), Refusal>
    requires start { done.old ≡ 0 }
    requires room { length pairs.now ≤ (room_of rows.old).accounts }
    ensures state { state_of rows.new ≡ changed [] (RenameUser (take done.new pairs.now)) (state_of rows.old) }
    ensures within { done.new ≤ length pairs.now }
    ensures way { HaveBeenRenamed pairs.now done.new (state_of rows.old) }
    ensures all { OnOk result (done.new ≡ length pairs.now) }
    ensures ok { OnOk result (no_renaming (stands (state_of rows.old)) pairs.now ≡ None) }
    ensures err { IfErr result (IsWantOrFault (first_fault (state_of rows.old) (RenameUser pairs.now))) }
    ensures room { LosesAtMost (length pairs.now) (room_of rows.old) (room_of rows.new) }
{
    for pair in pairs {
        rename_user(alloc, rows, &pair.0, &pair.1)?;
        *done += 1;
    }
    Ok(())
}

fn rename_user(alloc: Global, rows: &mut Rows, old: &AuthId, new: &AuthId) -> Result<(), Refusal>
    requires { 0 < (room_of rows.old).accounts }
    ensures step { OnOk result (MayBeRenamed (state_of rows.old) old.now new.now) }
    ensures ok { OnOk result (state_of rows.new ≡ renamed old.now new.now (state_of rows.old)) }
    ensures kept { OnErr result (state_of rows.new ≡ state_of rows.old) }
    ensures err { IfErr result (IsWantOrFault (pair_fault (stands (state_of rows.old)) old.now new.now)) }
    ensures room { LosesAtMost 1 (room_of rows.old) (room_of rows.new) }
{
    rows.rows_name_accounts();
    if !is_standing(rows, old) {
        let account = old.copy(alloc).map_err(|_| Refusal::NoMemory)?;
        return Err(Refusal::NoSuchAccount { account });
    }
    let account = new.copy(alloc).map_err(|_| Refusal::NoMemory)?;
    if is_standing(rows, new) {
        return Err(Refusal::AccountExists { account });
    }
    rows.rename(old, account);
    Ok(())
}

// Takes the first pairs back, the last of them first. It takes no memory.
fn undo(rows: &mut Rows, pairs: &[(AuthId, AuthId)], mut back: Vec<AuthId>, done: usize)
    requires names { back.items ≡ map (λ pair. pair.0) pairs.now }
    requires from { AreRenamedFrom pairs.now done (state_of rows.old) }
    requires room { length pairs.now ≤ (room_of rows.old).accounts }
    ensures { (before : State) → state_of rows.old ≡ changed [] (RenameUser (take done pairs.now)) before →
        HaveBeenRenamed pairs.now done before → state_of rows.new ≡ before }
{
    while let Some(name) = back.pop() {
        let i = back.len();
        if i < done {
            rows.rename(&pairs[i].1, name);
        }
    }
}

// The first old name that is mandatory.
fn first_mandatory<'a>(rows: &Rows, pairs: &'a [(AuthId, AuthId)]) -> Option<&'a AuthId>
    ensures { option_copied result ≡ option_map (λ pair. pair.0)
        (find (λ pair. is_mandatory (state_of rows.now) pair.0) pairs.now) }
{
    pairs
        .iter()
        .find(|pair| is_mandatory(rows, &pair.0))
        .map(|pair| &pair.0)
}

fn none_mandatory(alloc: Global, rows: &Rows, pairs: &[(AuthId, AuthId)]) -> Result<(), Refusal>
    ensures ok { OnOk result (option_map (λ a. Mandatory a) (option_map (λ pair. pair.0)
        (find (λ pair. is_mandatory (state_of rows.now) pair.0) pairs.now)) ≡ None) }
    ensures err { IfErr result (IsWantOrFault (option_map (λ a. Mandatory a) (option_map (λ pair. pair.0)
        (find (λ pair. is_mandatory (state_of rows.now) pair.0) pairs.now)))) }
{
    let Some(role) = first_mandatory(rows, pairs) else {
        return Ok(());
    };
    match role.copy(alloc) {
        Ok(role) => Err(Refusal::Mandatory { role }),
        Err(_) => Err(Refusal::NoMemory),
    }
}

fn old_names(alloc: Global, pairs: &[(AuthId, AuthId)]) -> Result<Vec<AuthId>, AllocError>
    ensures { IfOk result (λ names. names.items ≡ map (λ pair. pair.0) pairs.now) }
{
    let mut names = Vec::with_capacity(alloc, pairs.len())?;
    for pair in pairs {
        names.push(pair.0.copy(alloc)?)?;
    }
    Ok(names)
}
