//! Laws of what is read. Each does nothing when it runs.

ghost use Rattle.std.specs.Prelude.{ℕ, ◌<◌, List, length};
ghost use Rattle.acl_grammar.specs.Spelling.{spells};
ghost use Rattle.acl_stmt.specs.declared.target.Target.{Target};
ghost use Rattle.grant_words.specs.Syntax.{grammar_of};
ghost use Rattle.grant_words.specs.declared.lexeme.Lexeme.{Lexeme};
ghost use Rattle.priv_items.specs.declared.item.Item.{Item};
ghost use Rattle.priv_items.specs.declared.item.Named.{Named};
ghost use Rattle.privilege_statements.specs.Columns.{HasColumns, privileges_of};
ghost use Rattle.priv_sets.specs.DynamicNames.{dynamic_name};
ghost use Rattle.priv_sets.specs.PlainNames.{plain_name};
ghost use Rattle.privilege_statements.specs.NameTokens.{name_tokens};
ghost use Rattle.privilege_statements.specs.PrivilegeItems.{item};
ghost use Rattle.privilege_statements.specs.Statements.{privilege_statement, request};
ghost use Rattle.privilege_statements.specs.declared.statement.RawStatement.{RawStatement};

/// The law that each list of columns has a column, and that no more columns are named than there are tokens.
pub fn columns_are_few()
    ensures statement { (tokens : List Lexeme) (statement : RawStatement) →
        spells (grammar_of privilege_statement) tokens statement →
        HasColumns (privileges_of statement) (length tokens) }
    ensures request { (tokens : List Lexeme) (named : Named) (target : Target) →
        spells (grammar_of request) tokens (named, target) → HasColumns named (length tokens) }
{}

/// The law that the words of each privilege's name spell the privilege: the numbers in the grammar are those of the names.
pub fn names_are_items()
    ensures plain { (number : ℕ) → number < 31 →
        spells (grammar_of item) (name_tokens (plain_name number)) (Item.Plain number) }
    ensures dynamic { (number : ℕ) → number < 20 →
        spells (grammar_of item) (name_tokens (dynamic_name number)) (Item.Dynamic number) }
{}
