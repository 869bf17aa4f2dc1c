//! Rows that come and go, accounts that are renamed, and room for more.
ghost use Rattle.std.specs.Prelude.{◌≡◌, ◌<◌, ◌≤◌, ◌+◌, IsTrue, MatchResult, OnOk, false, length, max, vec_capacity, vec_len, Some};
ghost use Rattle.acl_model.specs.State.{stands};
ghost use Rattle.numbered_rows.specs.Numbering.{number_of as number_in};
ghost use Rattle.acl_model.specs.declared.row.Row.TheVariants.{Account as AccountRow};
ghost use Rattle.row_tables.specs.Changes.{renamed, with_data, with_row, without_row};
ghost use Rattle.row_tables.specs.Conditions.{HasRoom, IsFreeToGo, IsReadyFor, IsUnnamed, has_its_level, is_account, names_stand};
ghost use Rattle.row_tables.specs.Rooms.{FitsIn, HasRoomFor, LosesAtMost, room_of};
ghost use Rattle.row_tables.specs.Tables.{state_of};

use crate::accounts::{change_known, new_account, set_known};
use crate::held::{put_held, take_held};
use crate::rows::Rows;
use acl_model::{AccountData, Row};
use acl_names::AuthId;

/// The account of an account row, or else the row itself.
fn account_of(row: Row) -> Result<AuthId, Row>
    ensures { MatchResult result (λ account. row ≡ AccountRow account)
        (λ other. (other ≡ row) × (is_account row ≡ false)) }
{
    match row {
        Row::Account(account) => Ok(account),
        other => Err(other),
    }
}

impl Rows {
    /// Makes the row stand; where it does already, nothing changes. An account that comes has no password, is open and has no
    /// policy. It takes no memory.
    pub fn put(&mut self, row: Row)
        requires names { IsTrue (names_stand (state_of self.old) row) }
        requires level { IsTrue (has_its_level row) }
        requires ready { IsReadyFor (state_of self.old) row }
        requires room { FitsIn (room_of self.old) row }
        ensures state { state_of self.new ≡ with_row row (state_of self.old) }
        ensures room { LosesAtMost 1 (room_of self.old) (room_of self.new) }
    {
        match account_of(row) {
            Ok(account) => {
                self.add_account(account);
            }
            Err(other) => self.add_held(other),
        }
    }

    // The account and its number, which it has already where it stands.
    fn add_account(&mut self, account: AuthId) -> u32
        requires ready { stands (state_of self.old) account ≡ false → HasRoom (state_of self.old) }
        requires room { 0 < (room_of self.old).accounts }
        ensures number { number_in self.new.accounts.names account ≡ Some result }
        ensures known { result < length self.new.account_data }
        ensures state { state_of self.new ≡ with_row (AccountRow account) (state_of self.old) }
        ensures room { LosesAtMost 1 (room_of self.old) (room_of self.new) }
    {
        if let Some(number) = self.number(&account) {
            return number;
        }
        let number = self.accounts.add(account);
        set_known(&mut self.account_data, number, new_account());
        self.holdings.add_account(number);
        number
    }

    /// Makes the account stand with these data, whether it stood or not. It takes no memory.
    pub fn put_account(&mut self, account: AuthId, value: AccountData)
        requires ready { stands (state_of self.old) account ≡ false → HasRoom (state_of self.old) }
        requires room { 0 < (room_of self.old).accounts }
        ensures state { state_of self.new ≡ with_data account value (with_row (AccountRow account) (state_of self.old)) }
        ensures room { LosesAtMost 1 (room_of self.old) (room_of self.new) }
    {
        let number = self.add_account(account);
        change_known(&mut self.account_data, number, value);
    }

    fn add_held(&mut self, row: Row)
        requires other { is_account row ≡ false }
        requires names { IsTrue (names_stand (state_of self.old) row) }
        requires level { IsTrue (has_its_level row) }
        requires ready { IsReadyFor (state_of self.old) row }
        requires room { FitsIn (room_of self.old) row }
        ensures state { state_of self.new ≡ with_row row (state_of self.old) }
        ensures room { LosesAtMost 1 (room_of self.old) (room_of self.new) }
    {
        put_held(&mut self.holdings, &self.accounts, row);
    }

    /// Takes the row away; where it does not stand, nothing changes.
    pub fn take(&mut self, row: &Row)
        requires { IsFreeToGo (state_of self.old) row.now }
        ensures state { state_of self.new ≡ without_row row.now (state_of self.old) }
        ensures room { LosesAtMost 0 (room_of self.old) (room_of self.new) }
    {
        match row {
            Row::Account(account) => self.remove_account(account),
            _ => self.remove_held(row),
        }
    }

    fn remove_account(&mut self, account: &AuthId)
        requires { IsUnnamed (state_of self.old) account.now }
        ensures state { state_of self.new ≡ without_row (AccountRow account.now) (state_of self.old) }
        ensures room { LosesAtMost 0 (room_of self.old) (room_of self.new) }
    {
        if let Some(number) = self.number(account) {
            self.accounts.remove(number);
        }
    }

    fn remove_held(&mut self, row: &Row)
        requires other { is_account row.now ≡ false }
        requires free { IsFreeToGo (state_of self.old) row.now }
        ensures state { state_of self.new ≡ without_row row.now (state_of self.old) }
        ensures room { LosesAtMost 0 (room_of self.old) (room_of self.new) }
    {
        take_held(&mut self.holdings, &self.accounts, row);
    }

    /// Gives an account other data.
    pub fn set_data(&mut self, account: &AuthId, value: AccountData)
        requires { IsTrue (stands (state_of self.old) account.now) }
        ensures state { state_of self.new ≡ with_data account.now value (state_of self.old) }
        ensures room { LosesAtMost 0 (room_of self.old) (room_of self.new) }
    {
        if let Some(number) = self.number(account) {
            change_known(&mut self.account_data, number, value);
        }
    }

    /// Gives an account another name, in each row that names it. It takes no memory.
    pub fn rename(&mut self, old: &AuthId, new: AuthId)
        requires old { IsTrue (stands (state_of self.old) old.now) }
        requires new { stands (state_of self.old) new ≡ false }
        requires room { 0 < (room_of self.old).accounts }
        ensures state { state_of self.new ≡ renamed old.now new (state_of self.old) }
        ensures room { LosesAtMost 1 (room_of self.old) (room_of self.new) }
    {
        if let Some(number) = self.number(old) {
            self.accounts.rename(number, new);
        }
    }
}
