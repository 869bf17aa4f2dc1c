//! Laws of the classes of tokens.

ghost use Rattle.std.specs.Prelude.{◌≡◌, ◌≤◌, ℕ, List, IsTrue, length};
ghost use Rattle.acl_names.specs.declared.auth.AuthId.{AuthId};
ghost use Rattle.mandatory_roles.specs.Spelling.{SpellsRoles};
ghost use Rattle.user_statements.specs.Statements.{is_role_list, roles_of};

/// A string is a list of roles exactly where it spells one of at most 4,096, and it means these.
pub fn role_lists_are_spelled()
    ensures lists { (text : List ℕ) → IsTrue (is_role_list text) → SpellsRoles text (roles_of text) × (length (roles_of text) ≤ 4096) }
    ensures spelled { (text : List ℕ) (roles : List AuthId) → SpellsRoles text roles → length roles ≤ 4096
        → IsTrue (is_role_list text) × (roles_of text ≡ roles) }
{}
