//! Laws of the lines that SHOW GRANTS prints. Each does nothing when it runs.

ghost use Rattle.std.specs.Prelude.{◌≡◌, Bool, false, IsTrue, List, [], ◌∷◌};
ghost use Rattle.std.specs.List.{list_all};
ghost use Rattle.accepted_lists.specs.Accepted.{AreAccepted};
ghost use Rattle.accepted_lists.specs.Listed.{ListsRows};
ghost use Rattle.accepted_lists.specs.Sound.{IsSound};
ghost use Rattle.acl_model.specs.Effects.{state_after};
ghost use Rattle.acl_model.specs.Rows.{holder};
ghost use Rattle.acl_model.specs.State.{State, opening, stands};
ghost use Rattle.acl_model.specs.declared.row.Row.{Row};
ghost use Rattle.acl_names.specs.AuthId.{same_auth};
ghost use Rattle.acl_names.specs.declared.auth.AuthId.{AuthId};
ghost use Rattle.acl_stmt.specs.Entries.{is_entry};
ghost use Rattle.acl_stmt.specs.declared.entry.Entry.{Entry};
ghost use Rattle.show_grants.specs.Lines.{shown};
ghost use Rattle.shown_laws.specs.Again.{AreEntriesOf, AreLimitedAlone};
ghost use Rattle.shown_laws.specs.Known.{Covers, MayTake, is_default};

/// What is printed of an account, in a state whose rows are sound and listed, are statements that a history may hold. Where the
/// account is bare and its roles stand, in whatever state, they are accepted one after the other unless a limit refuses one,
/// and then the account holds what it held, default roles aside.
pub fn shown_lines_are_read_back()
    ensures legal { (there : State) (rows : List Row) (a : AuthId) → IsSound there → Covers rows there a
        → IsTrue (list_all (is_entry []) (shown there rows (a ∷ []) a)) }
    ensures acceptable { (there : State) (rows : List Row) (a : AuthId) → IsSound there → Covers rows there a
        → (here : State) → MayTake there here a → (lines : List Entry) → AreEntriesOf (shown there rows (a ∷ []) a) lines
        → AreLimitedAlone lines here }
    ensures same { (there : State) (rows : List Row) (a : AuthId) → IsSound there → Covers rows there a
        → (here : State) → MayTake there here a → (lines : List Entry) → AreEntriesOf (shown there rows (a ∷ []) a) lines
        → IsTrue (stands there a) → (row : Row) → IsTrue (same_auth (holder row) a) → is_default row ≡ false
        → (state_after lines here).rows row ≡ there.rows row }
{}

/// The same of an account after any accepted list of statements, with a list of just the rows that stand then.
pub fn shown_lines_of_a_history_are_read_back()
    ensures legal { (history : List Entry) (rows : List Row) (a : AuthId) → AreAccepted history opening
        → ListsRows rows (state_after history opening)
        → IsTrue (list_all (is_entry []) (shown (state_after history opening) rows (a ∷ []) a)) }
    ensures acceptable { (history : List Entry) (rows : List Row) (a : AuthId) → AreAccepted history opening
        → ListsRows rows (state_after history opening)
        → (here : State) → MayTake (state_after history opening) here a
        → (lines : List Entry) → AreEntriesOf (shown (state_after history opening) rows (a ∷ []) a) lines
        → AreLimitedAlone lines here }
    ensures same { (history : List Entry) (rows : List Row) (a : AuthId) → AreAccepted history opening
        → ListsRows rows (state_after history opening)
        → (here : State) → MayTake (state_after history opening) here a
        → (lines : List Entry) → AreEntriesOf (shown (state_after history opening) rows (a ∷ []) a) lines
        → IsTrue (stands (state_after history opening) a)
        → (row : Row) → IsTrue (same_auth (holder row) a) → is_default row ≡ false
        → (state_after lines here).rows row ≡ (state_after history opening).rows row }
{}
