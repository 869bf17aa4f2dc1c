ghost use Rattle.std.specs.Prelude.{◌≡◌, ◌≤◌, ℕ, IsTrue, List, Some, length};
ghost use Rattle.std.specs.List.{AllByRecursion};
ghost use Rattle.acl_names.specs.declared.auth.AuthId.{AuthId};
ghost use Rattle.acl_stmt.specs.Statements.{is_statement};
ghost use Rattle.acl_stmt.specs.declared.statement.Statement.{Statement};
ghost use Rattle.grant_lex.specs.Printed.{ArePrinted, printed, tokens_of};
ghost use Rattle.grant_lex.specs.Token.{IsCut};
ghost use Rattle.grant_lex.specs.Value.{value_of};
ghost use Rattle.mandatory_roles.specs.Roles.{roles_in};
ghost use Rattle.mandatory_roles.specs.Text.{IsRole, roles_text};
ghost use Rattle.canonical_texts.specs.Quotes.{string_text};
ghost use Rattle.canonical_texts.specs.StatementTokens.{canonical_tokens};
ghost use Rattle.canonical_texts.specs.Statements.{canonical_text};

/// The canonical text of a statement is written token by token, and is cut into just these tokens.
pub fn canonical_texts_are_tokens()
    ensures printed { (s : Statement) → printed (canonical_tokens s) ≡ canonical_text s }
    ensures apart { (s : Statement) → IsTrue (is_statement s) → ArePrinted (canonical_tokens s) }
    ensures cut { (s : Statement) → IsTrue (is_statement s)
        → IsCut (canonical_text s) (tokens_of 0 (canonical_tokens s)) }
{}

/// A string stands for the text that it is written from; so the list of mandatory roles is read back from its string.
pub fn written_strings_are_read()
    ensures value { (text : List ℕ) → value_of (string_text text) ≡ text }
    ensures mandatory { (roles : List AuthId) → AllByRecursion IsRole roles → length roles ≤ 4096
        → roles_in (value_of (string_text (roles_text roles))) ≡ Some roles }
{}
