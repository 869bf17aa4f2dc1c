ghost use Rattle.std.specs.Prelude.{◌≡◌, ℕ, List};
ghost use Rattle.std.specs.List.{AllByRecursion};
ghost use Rattle.acl_names.specs.declared.auth.AuthId.{AuthId};
ghost use Rattle.mandatory_roles.specs.Roles.{roles_in};
ghost use Rattle.mandatory_roles.specs.Spelling.{IsReadAs, SpellsRoles};
ghost use Rattle.mandatory_roles.specs.Text.{IsRole, roles_text};

/// The roles in a text are those that it spells, where they are not too many, and a text spells one list at most.
pub fn roles_are_spelled()
    ensures read { (text : List ℕ) → IsReadAs text (roles_in text) }
    ensures unique { (text : List ℕ) (roles others : List AuthId) → SpellsRoles text roles → SpellsRoles text others → roles ≡ others }
{}

/// A list that is written account by account, however long, spells these accounts.
pub fn written_roles_are_spelled()
    ensures { (roles : List AuthId) → AllByRecursion IsRole roles → SpellsRoles (roles_text roles) roles }
{}
