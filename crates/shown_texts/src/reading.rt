ghost use Rattle.std.specs.Prelude.{◌≡◌, ◌≤◌, IfErr, IfOk, IsTrue, List, [], ◌∷◌, ◌++◌, length};
ghost use Rattle.accepted_lists.specs.Sound.{IsSound};
ghost use Rattle.acl_model.specs.State.{State, stands};
ghost use Rattle.acl_model.specs.declared.row.Row.{Row};
ghost use Rattle.acl_names.specs.declared.auth.AuthId.{AuthId};
ghost use Rattle.acl_stmt.specs.declared.statement.Statement.{Statement};
ghost use Rattle.grant_parse.specs.Meaning.{IsStatement, IsStatementRefusal};
ghost use Rattle.grant_parse.specs.Texts.{ReadsAs};
ghost use Rattle.show_grants.specs.Lines.{shown};
ghost use Rattle.shown_laws.specs.Known.{Covers};
ghost use Rattle.shown_texts.specs.Lines.{line_text};
ghost use Rattle.shown_texts.specs.Names.{NamesKeepRules};

use acl_stmt::Statement;
use grant_parse::parse;
use grant_refusal::ParseRefusal;
use std::alloc::Global;

/// The statement of a line of at most `most` bytes that SHOW GRANTS printed.
///
/// MySQL 8.0 Reference Manual, "SHOW GRANTS Statement".
pub fn read_line(alloc: Global, line: &str, most: u32) -> Result<Statement, ParseRefusal>
    // A text is the statement, and one that is none has the refusal.
    ensures ok { IfOk result (IsStatement most line.now) }
    ensures err { IfErr result (IsStatementRefusal most line.now) }

    // A line of an account whose names keep their rules is the statement that it was printed from, and nothing is wrong with it.
    ensures shown { (there : State) (rows : List Row) (a : AuthId) (earlier : List Statement) (s : Statement) (later : List Statement)
        → IsSound there → Covers rows there a → NamesKeepRules there → IsTrue (stands there a)
        → shown there rows (a ∷ []) a ≡ earlier ++ s ∷ later → line.now ≡ line_text s → length line.now ≤ most
        → ReadsAs result s }
{
    parse(alloc, line, most)
}
