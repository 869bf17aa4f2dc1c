//! Laws of accepted statements. Each does nothing when it runs.

ghost use Rattle.std.specs.Prelude.{◌≤◌, ℕ, IsTrue, List, filter, length};
ghost use Rattle.accepted_lists.specs.Accepted.{AreAccepted};
ghost use Rattle.accepted_lists.specs.Listed.{ListsRows};
ghost use Rattle.accepted_lists.specs.Roles.{HasNoCircle};
ghost use Rattle.accepted_lists.specs.Sound.{IsSound};
ghost use Rattle.accepted_lists.specs.Standing.{HasItsAccounts};
ghost use Rattle.acl_model.specs.Acceptance.{IsAccepted, limits_in_order};
ghost use Rattle.acl_model.specs.Counts.{IsExceeded};
ghost use Rattle.acl_model.specs.Effects.{after, state_after};
ghost use Rattle.acl_model.specs.Firsts.{HasNone};
ghost use Rattle.acl_model.specs.State.{State, opening};
ghost use Rattle.acl_model.specs.declared.row.Row.{Row};
ghost use Rattle.acl_model.specs.declared.row.Row.TheVariants.{Column};
ghost use Rattle.acl_names.specs.Text.{text_eq};
ghost use Rattle.acl_names.specs.declared.auth.AuthId.{AuthId};
ghost use Rattle.acl_stmt.specs.Lists.{all_differ_by};
ghost use Rattle.acl_stmt.specs.declared.entry.Entry.{Entry};

/// Rows that are sound stay so through every accepted statement, and so they are after each accepted list.
pub fn accepted_statements_keep_rows_sound()
    ensures first { IsSound opening }
    ensures next { (state : State) (entry : Entry) → IsSound state → IsAccepted state entry → IsSound (after entry state) }
    ensures history { (history : List Entry) → AreAccepted history opening → IsSound (state_after history opening) }
{}

/// After each accepted list no limit is exceeded, so that an account holds a privilege on 65,536 columns of a table at most,
/// out of any columns that are named once each.
pub fn accepted_statements_stay_within_limits()
    ensures first { HasNone (IsExceeded opening) limits_in_order }
    ensures history { (history : List Entry) → AreAccepted history opening
        → HasNone (IsExceeded (state_after history opening)) limits_in_order }
    ensures columns { (history : List Entry) (rows : List Row) → AreAccepted history opening
        → ListsRows rows (state_after history opening)
        → (a : AuthId) (schema table : List ℕ) (p : ℕ) (columns : List (List ℕ)) → IsTrue (all_differ_by text_eq columns)
        → length (filter (λ c. (state_after history opening).rows (Column a schema table c p)) columns) ≤ 65536 }
{}

/// After each accepted list the accounts stand that rows name, and password, lock and policy are known of just the accounts
/// that stand.
pub fn accepted_statements_keep_accounts()
    ensures first { HasItsAccounts opening }
    ensures next { (state : State) (entry : Entry) → HasItsAccounts state → IsAccepted state entry → HasItsAccounts (after entry state) }
    ensures history { (history : List Entry) → AreAccepted history opening → HasItsAccounts (state_after history opening) }
{}

/// After each accepted list no role reaches an account that holds it.
pub fn accepted_statements_close_no_circle()
    ensures first { HasNoCircle opening.rows }
    ensures next { (state : State) (entry : Entry) → HasNoCircle state.rows → IsAccepted state entry → HasNoCircle (after entry state).rows }
    ensures history { (history : List Entry) → AreAccepted history opening → HasNoCircle (state_after history opening).rows }
{}
