//! Laws of what a GRANT gives.
ghost use Rattle.std.specs.Prelude.{◌≡◌, ℕ, Bool, List, None, IsTrue};
ghost use Rattle.acl_names.specs.declared.auth.AuthId.{AuthId};
ghost use Rattle.acl_model.specs.Effects.{gives};
ghost use Rattle.acl_model.specs.Refusals.{first_fault};
ghost use Rattle.acl_model.specs.Rows.{is_privilege_row};
ghost use Rattle.acl_model.specs.State.{State};
ghost use Rattle.acl_model.specs.declared.row.Row.TheVariants.{Dynamic, DynamicGrant};
ghost use Rattle.acl_model.specs.declared.row.Row.{Row};
ghost use Rattle.acl_rows.specs.Conditions.{has_its_level, names_stand};
ghost use Rattle.acl_stmt.specs.Entries.{is_entry};
ghost use Rattle.acl_stmt.specs.declared.limit.Limit.{Limit};
ghost use Rattle.acl_stmt.specs.declared.privileges.PrivList.{PrivList};
ghost use Rattle.acl_stmt.specs.declared.statement.Statement.TheVariants.{Grant};
ghost use Rattle.acl_stmt.specs.declared.target.Target.{Target};

/// The law that the rows which a legal grant gives may stand: their accounts do, each privilege has the level of its row, there
/// is no row but of privileges and restrictions, and the grant option of a dynamic privilege comes with it. It does nothing when
/// it runs.
pub fn given_rows_are_legal()
    ensures names { (limits : List Limit) (privileges : PrivList) (target : Target)
        (accounts : List AuthId) (option : Bool) (state : State) (row : Row)
        → first_fault state (Grant privileges target accounts option) ≡ None
        → IsTrue (gives limits (Grant privileges target accounts option) state row)
        → IsTrue (names_stand state row) }
    ensures level { (limits : List Limit) (privileges : PrivList) (target : Target)
        (accounts : List AuthId) (option : Bool) (state : State) (row : Row)
        → IsTrue (is_entry limits (Grant privileges target accounts option))
        → IsTrue (gives limits (Grant privileges target accounts option) state row)
        → IsTrue (has_its_level row) }
    ensures kind { (limits : List Limit) (privileges : PrivList) (target : Target)
        (accounts : List AuthId) (option : Bool) (state : State) (row : Row)
        → IsTrue (gives limits (Grant privileges target accounts option) state row)
        → IsTrue (is_privilege_row row) }
    ensures dynamic { (limits : List Limit) (privileges : PrivList) (target : Target)
        (accounts : List AuthId) (option : Bool) (state : State) (a : AuthId) (d : ℕ)
        → IsTrue (gives limits (Grant privileges target accounts option) state (DynamicGrant a d))
        → IsTrue (gives limits (Grant privileges target accounts option) state (Dynamic a d)) }
{}
