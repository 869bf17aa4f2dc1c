ghost use Rattle.std.specs.Prelude.{◌≡◌, ◌≢◌, ◌++◌, ◌∷◌, [], List, true};
ghost use Rattle.acl_model.specs.Acceptance.{IsAccepted, IsRefused};
ghost use Rattle.acl_model.specs.Effects.{after, state_after};
ghost use Rattle.acl_model.specs.Firsts.{IsFirst, HasNone};
ghost use Rattle.acl_model.specs.State.{State};
ghost use Rattle.acl_model.specs.Verdict.{Need, Readings, is_met, missing_of, needs_of, verdict_of};
ghost use Rattle.acl_stmt.specs.declared.entry.Entry.{Entry};
ghost use Rattle.acl_stmt.specs.declared.privileges.PrivList.{PrivList};
ghost use Rattle.acl_stmt.specs.declared.refusal.Refusal.{Refusal};
ghost use Rattle.acl_stmt.specs.declared.refusal.Missing.{Missing};
ghost use Rattle.acl_stmt.specs.declared.target.Target.{Target};

/// The law that an entry more at the end of a history is one statement more. It does nothing when it runs.
pub fn history_grows_by_one()
    ensures { (entries : List Entry) (entry : Entry) (before : State) →
        state_after (entries ++ entry ∷ []) before ≡ after entry (state_after entries before) }
{}

/// The law that a request is allowed exactly where each of its needs is met, and is else denied for the first that is not. It
/// does nothing when it runs.
pub fn first_unmet_need_is_denied()
    ensures allowed { (readings : Readings) (privileges : PrivList) (target : Target) → verdict_of readings privileges target ≡ None →
        HasNone (λ need. is_met readings target need ≢ true) (needs_of privileges target) }
    ensures denied { (readings : Readings) (privileges : PrivList) (target : Target) (missing : Missing) →
        verdict_of readings privileges target ≡ Some missing →
        (need : Need) × (IsFirst (λ need. is_met readings target need ≢ true) (needs_of privileges target) need × (missing ≡ missing_of readings target need)) }
{}

/// The law that a statement is refused with one thing at most, and is not accepted then. It does nothing when it runs.
pub fn statements_are_refused_once()
    ensures one { (state : State) (entry : Entry) (one other : Refusal) → IsRefused state entry one → IsRefused state entry other → one ≡ other }
    ensures not_accepted { (state : State) (entry : Entry) (refusal : Refusal) → IsRefused state entry refusal → IsAccepted state entry → ⊥ }
{}
