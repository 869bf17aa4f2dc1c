//! Laws of what is named. Each does nothing when it runs.
ghost use Rattle.std.specs.Prelude.{◌≡◌, ℕ, false, IsTrue, List, None};
ghost use Rattle.acl_stmt.specs.Requests.{is_request};
ghost use Rattle.acl_stmt.specs.Targets.{is_target};
ghost use Rattle.acl_stmt.specs.declared.privileges.PrivList.{PrivList};
ghost use Rattle.acl_stmt.specs.declared.target.Target.{Target};
ghost use Rattle.priv_sets.specs.Levels.{grant_option};
ghost use Rattle.priv_sets.specs.StaticSet.{holds};
ghost use Rattle.priv_items.specs.Canonical.{items_of};
ghost use Rattle.priv_items.specs.Escapes.{escaped, unescaped};
ghost use Rattle.priv_items.specs.Grants.{names_grant_option, without_grant_option};
ghost use Rattle.priv_items.specs.LevelRefusals.{wrong_level};
ghost use Rattle.priv_items.specs.Lowered.{lowered_target};
ghost use Rattle.priv_items.specs.Meaning.{IsMeant};
ghost use Rattle.priv_items.specs.declared.item.Named.{Named};

/// The law that one list at most is meant by what is named.
pub fn one_list_is_meant()
    ensures { (named : Named) (a b : PrivList) → IsMeant named a → IsMeant named b → a ≡ b }
{}

/// The law that each list is meant by its own items, by those of a GRANT too where it has no GRANT OPTION.
pub fn own_items_mean_the_list()
    ensures meant { (list : PrivList) → IsMeant (items_of list) list }
    ensures granted { (list : PrivList) → holds list.plain grant_option ≡ false →
        IsMeant (without_grant_option (items_of list)) list }
    ensures no_option { (list : PrivList) → holds list.plain grant_option ≡ false →
        names_grant_option (items_of list) ≡ false }
{}

/// The law that the own items of a list fit each target that the list fits.
pub fn own_items_fit()
    ensures { (list : PrivList) (target : Target) → IsTrue (is_request list target) →
        wrong_level (items_of list) target ≡ None }
{}

/// The law that a target which names no routine in capitals stays as it is.
pub fn lowered_targets_stay()
    ensures { (target : Target) → IsTrue (is_target target) → lowered_target target ≡ target }
{}

/// The law that the escaped text of a name stands for the name.
pub fn escaped_text_is_the_name()
    ensures { (name : List ℕ) → unescaped (escaped name) ≡ name }
{}
