ghost use Rattle.std.specs.Prelude.{IsTrue, List, None, Some};
ghost use Rattle.acl_grammar.specs.Spelling.{spells};
ghost use Rattle.acl_names.specs.declared.auth.AuthId.{AuthId};
ghost use Rattle.acl_names.specs.declared.policy.Verifier.{Verifier};
ghost use Rattle.acl_stmt.specs.Entries.{is_complete};
ghost use Rattle.acl_stmt.specs.declared.statement.Statement.{Statement};
ghost use Rattle.acl_stmt.specs.declared.statement.Statement.TheVariants.{SetPassword};
ghost use Rattle.canonical_texts.specs.Lexemes.{canonical_lexemes};
ghost use Rattle.canonical_texts.specs.Rules.{account_keeps_rules};
ghost use Rattle.grant_words.specs.Names.{account};
ghost use Rattle.grant_words.specs.Syntax.{grammar_of};
ghost use Rattle.grant_words.specs.declared.lexeme.Lexeme.{Lexeme};
ghost use Rattle.user_statements.specs.Statements.{user_statement};

/// Whatever spells a statement that names no privileges and is complete, the tokens of its canonical text spell the same.
pub fn canonical_user_texts_are_read()
    ensures { (lexemes : List Lexeme) (s : Statement) → spells (grammar_of user_statement) lexemes s → IsTrue (is_complete s)
        → spells (grammar_of user_statement) (canonical_lexemes s) s }
{}

/// A SET PASSWORD that names no account, once an account within its rules completes it, is spelled by its canonical tokens too.
pub fn completed_passwords_are_read()
    ensures { (lexemes : List Lexeme) (a : AuthId) (v : Verifier) → spells (grammar_of user_statement) lexemes (SetPassword None v)
        → IsTrue (account_keeps_rules a) → spells (grammar_of user_statement) (canonical_lexemes (SetPassword (Some a) v)) (SetPassword (Some a) v) }
{}

/// An account that tokens spell is within its rules.
pub fn spelled_accounts_keep_rules()
    ensures { (lexemes : List Lexeme) (a : AuthId) → spells (grammar_of account) lexemes a → IsTrue (account_keeps_rules a) }
{}
