//! Laws of the texts of lines. Each does nothing when it runs.

ghost use Rattle.std.specs.Prelude.{◌≡◌, ℕ, false, IsTrue, List, [], ◌∷◌, map};
ghost use Rattle.std.specs.List.{AllByRecursion, list_all};
ghost use Rattle.accepted_lists.specs.Accepted.{AreAccepted};
ghost use Rattle.accepted_lists.specs.Listed.{ListsRows};
ghost use Rattle.accepted_lists.specs.Sound.{IsSound};
ghost use Rattle.acl_model.specs.Effects.{state_after};
ghost use Rattle.acl_model.specs.Rows.{holder};
ghost use Rattle.acl_model.specs.State.{State, opening, stands};
ghost use Rattle.acl_model.specs.declared.row.Row.{Row};
ghost use Rattle.acl_names.specs.AuthId.{same_auth};
ghost use Rattle.acl_names.specs.declared.auth.AuthId.{AuthId};
ghost use Rattle.acl_stmt.specs.declared.entry.Entry.{Entry};
ghost use Rattle.show_grants.specs.Lines.{shown};
ghost use Rattle.shown_laws.specs.Again.{AreLimitedAlone};
ghost use Rattle.shown_laws.specs.Known.{Covers, MayTake, is_default};
ghost use Rattle.shown_texts.specs.Lines.{line_text};
ghost use Rattle.shown_texts.specs.Names.{NamesKeepRules, entry_names_keep_rules};
ghost use Rattle.shown_texts.specs.ReadLines.{AreIssued, IsReadAs};

/// In a state whose rows are sound, listed and within the rules of names, each line that is printed of an account is read as
/// the statement that it is printed from. So where the account is bare and its roles stand, the texts of the lines, read and
/// issued one after the other without limits, are accepted unless a limit refuses one, and then the account holds what it held,
/// default roles aside.
pub fn shown_texts_are_read_back()
    ensures each { (there : State) (rows : List Row) (a : AuthId) → IsSound there → Covers rows there a → NamesKeepRules there
        → IsTrue (stands there a) → AllByRecursion (λ s. IsReadAs (line_text s) s) (shown there rows (a ∷ []) a) }
    ensures acceptable { (there : State) (rows : List Row) (a : AuthId) → IsSound there → Covers rows there a → NamesKeepRules there
        → IsTrue (stands there a) → (here : State) → MayTake there here a
        → (most : ℕ) (lines : List Entry) → AreIssued most (map line_text (shown there rows (a ∷ []) a)) lines
        → AreLimitedAlone lines here }
    ensures same { (there : State) (rows : List Row) (a : AuthId) → IsSound there → Covers rows there a → NamesKeepRules there
        → IsTrue (stands there a) → (here : State) → MayTake there here a
        → (most : ℕ) (lines : List Entry) → AreIssued most (map line_text (shown there rows (a ∷ []) a)) lines
        → (row : Row) → IsTrue (same_auth (holder row) a) → is_default row ≡ false
        → (state_after lines here).rows row ≡ there.rows row }
{}

/// The same of an account after any accepted list of statements whose names keep their rules, with a list of just the rows that
/// stand then.
pub fn shown_texts_of_a_history_are_read_back()
    ensures each { (history : List Entry) (rows : List Row) (a : AuthId) → AreAccepted history opening
        → IsTrue (list_all entry_names_keep_rules history) → ListsRows rows (state_after history opening)
        → IsTrue (stands (state_after history opening) a)
        → AllByRecursion (λ s. IsReadAs (line_text s) s) (shown (state_after history opening) rows (a ∷ []) a) }
    ensures acceptable { (history : List Entry) (rows : List Row) (a : AuthId) → AreAccepted history opening
        → IsTrue (list_all entry_names_keep_rules history) → ListsRows rows (state_after history opening)
        → IsTrue (stands (state_after history opening) a)
        → (here : State) → MayTake (state_after history opening) here a
        → (most : ℕ) (lines : List Entry) → AreIssued most (map line_text (shown (state_after history opening) rows (a ∷ []) a)) lines
        → AreLimitedAlone lines here }
    ensures same { (history : List Entry) (rows : List Row) (a : AuthId) → AreAccepted history opening
        → IsTrue (list_all entry_names_keep_rules history) → ListsRows rows (state_after history opening)
        → IsTrue (stands (state_after history opening) a)
        → (here : State) → MayTake (state_after history opening) here a
        → (most : ℕ) (lines : List Entry) → AreIssued most (map line_text (shown (state_after history opening) rows (a ∷ []) a)) lines
        → (row : Row) → IsTrue (same_auth (holder row) a) → is_default row ≡ false
        → (state_after lines here).rows row ≡ (state_after history opening).rows row }
{}
