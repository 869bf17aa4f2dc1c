//! Laws of canonical texts. Each does nothing when it runs.

ghost use Rattle.std.specs.Prelude.{◌≡◌, ℕ, IsTrue, List, None};
ghost use mathlib.Core.Logic.{inr};
ghost use Rattle.std.specs.List.{AllByRecursion};
ghost use Rattle.std.specs.Str.{IsUtf8};
ghost use Rattle.acl_grammar.specs.Spelling.{spells};
ghost use Rattle.acl_stmt.specs.declared.statement.Statement.{Statement};
ghost use Rattle.grant_lex.specs.Token.{IsCut};
ghost use Rattle.grant_lex.specs.declared.sorts.Token.{Token};
ghost use Rattle.grant_parse.specs.Meaning.{MeansStatement, level_fault};
ghost use Rattle.grant_words.specs.Lexemes.{lexemes_of};
ghost use Rattle.grant_words.specs.Syntax.{grammar_of};
ghost use Rattle.grant_words.specs.declared.lexeme.Lexeme.{Lexeme};
ghost use Rattle.privilege_statements.specs.Statements.{privilege_statement};
ghost use Rattle.privilege_statements.specs.declared.statement.RawStatement.{RawStatement};
ghost use Rattle.privilege_texts.specs.SpelledAgain.{IsSpelledAgain};
ghost use Rattle.privilege_texts.specs.Rules.{IsText, names_keep_rules};

/// The tokens that a text of UTF-8 is cut into stand for UTF-8.
pub fn tokens_stand_for_text()
    ensures { (text : List ℕ) (tokens : List Token) → IsUtf8 text → IsCut text tokens
        → AllByRecursion IsText (lexemes_of text tokens) }
{}

/// The names of a GRANT or a REVOKE that tokens spell are within their rules: accounts, columns, and what the privileges are
/// on. Of bytes that are no UTF-8, the name of a schema could have more characters without its escapes than with them.
pub fn spelled_names_keep_rules()
    ensures { (tokens : List Lexeme) (raw : RawStatement) (statement : Statement) → AllByRecursion IsText tokens
        → spells (grammar_of privilege_statement) tokens raw → MeansStatement (inr raw) statement
        → IsTrue (names_keep_rules statement) }
{}

/// Whatever tokens spell a GRANT or a REVOKE whose privileges have the level of their target, the tokens of its canonical
/// text spell the same statement.
pub fn canonical_texts_are_read_back()
    ensures { (tokens : List Lexeme) (raw : RawStatement) (statement : Statement) → AllByRecursion IsText tokens
        → spells (grammar_of privilege_statement) tokens raw → level_fault (inr raw) ≡ None
        → MeansStatement (inr raw) statement → IsSpelledAgain statement }
{}
