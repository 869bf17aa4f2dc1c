//! Laws of commands.

ghost use Rattle.std.specs.Prelude.{◌≡◌, ℕ, List};
ghost use Rattle.acl_grammar.specs.Spelling.{spells};
ghost use Rattle.grant_words.specs.Syntax.{grammar_of};
ghost use Rattle.privilege_statements.specs.Statements.{privilege_statement};
ghost use Rattle.script_commands.specs.Beginnings.{BeginApart};
ghost use Rattle.script_commands.specs.Commands.{command};
ghost use Rattle.script_commands.specs.Moments.{HasMoment};
ghost use Rattle.script_commands.specs.declared.command.Connect.{Connect};
ghost use Rattle.user_statements.specs.Statements.{user_statement};

/// A text has one option AT at most, and of one CONNECT.
pub fn one_option_is_read()
    ensures { (text : List ℕ) (made other : Connect) (place elsewhere : ℕ) → HasMoment text made place
        → HasMoment text other elsewhere → (made ≡ other) × (place ≡ elsewhere) }
{}

/// No list of tokens begins with a command and with a statement, so that none is spelled by both.
pub fn commands_are_no_statements()
    ensures users { BeginApart (spells (grammar_of command)) (spells (grammar_of user_statement)) }
    ensures privileges { BeginApart (spells (grammar_of command)) (spells (grammar_of privilege_statement)) }
{}
