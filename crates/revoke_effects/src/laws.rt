ghost use Rattle.std.specs.Prelude.{◌≡◌, ℕ, [], false, None, IsTrue, List};
ghost use Rattle.acl_names.specs.declared.auth.AuthId.{AuthId};
ghost use Rattle.acl_model.specs.Effects.{gives, takes};
ghost use Rattle.acl_model.specs.Refusals.{first_fault};
ghost use Rattle.acl_model.specs.Rows.{is_privilege_row};
ghost use Rattle.acl_model.specs.State.{State};
ghost use Rattle.acl_model.specs.declared.row.Row.{Row};
ghost use Rattle.acl_model.specs.declared.row.Row.TheVariants.{Dynamic, DynamicGrant};
ghost use Rattle.acl_rows.specs.Conditions.{has_its_level, names_stand};
ghost use Rattle.acl_stmt.specs.Statements.{is_statement};
ghost use Rattle.acl_stmt.specs.declared.privileges.PrivList.{PrivList};
ghost use Rattle.acl_stmt.specs.declared.statement.Statement.TheVariants.{Revoke, RevokeAll};
ghost use Rattle.acl_stmt.specs.declared.target.Target.{Target};
ghost use Rattle.revoke_effects.specs.Given.{is_restriction};

/// The laws that what REVOKE gives are restrictions (`kind`) of accounts that stand, where nothing refuses the statement
/// (`names`), on privileges of the schema level, where the statement keeps its rules (`level`). It does nothing when it runs.
pub fn given_rows_are_restrictions()
    ensures kind { (privileges : PrivList) (target : Target) (accounts : List AuthId) (state : State) (row : Row) →
        IsTrue (gives [] (Revoke privileges target accounts) state row) → IsTrue (is_restriction row) }
    ensures names { (privileges : PrivList) (target : Target) (accounts : List AuthId) (state : State) (row : Row) →
        first_fault state (Revoke privileges target accounts) ≡ None →
        IsTrue (gives [] (Revoke privileges target accounts) state row) → IsTrue (names_stand state row) }
    ensures level { (privileges : PrivList) (target : Target) (accounts : List AuthId) (state : State) (row : Row) →
        IsTrue (is_statement (Revoke privileges target accounts)) →
        IsTrue (gives [] (Revoke privileges target accounts) state row) → IsTrue (has_its_level row) }
{}

/// The laws that what REVOKE takes are privileges and restrictions (`kind`, `all_kind`), and that a dynamic privilege goes with
/// its grant option (`option`, `all_option`); two of them are of REVOKE ALL PRIVILEGES, GRANT OPTION. It does nothing when it runs.
pub fn taken_rows_are_privileges()
    ensures kind { (privileges : PrivList) (target : Target) (accounts : List AuthId) (row : Row) →
        IsTrue (takes [] (Revoke privileges target accounts) row) → IsTrue (is_privilege_row row) }
    ensures option { (privileges : PrivList) (target : Target) (accounts : List AuthId) (a : AuthId) (d : ℕ) →
        IsTrue (takes [] (Revoke privileges target accounts) (Dynamic a d)) →
        IsTrue (takes [] (Revoke privileges target accounts) (DynamicGrant a d)) }
    ensures all_kind { (accounts : List AuthId) (row : Row) →
        IsTrue (takes [] (RevokeAll accounts) row) → IsTrue (is_privilege_row row) }
    ensures all_option { (accounts : List AuthId) (a : AuthId) (d : ℕ) →
        IsTrue (takes [] (RevokeAll accounts) (Dynamic a d)) →
        IsTrue (takes [] (RevokeAll accounts) (DynamicGrant a d)) }
{}

/// The law that REVOKE ALL PRIVILEGES, GRANT OPTION gives no row. It does nothing when it runs.
pub fn revoke_all_gives_nothing()
    ensures { (state : State) (accounts : List AuthId) (row : Row) →
        gives [] (RevokeAll accounts) state row ≡ false }
{}
