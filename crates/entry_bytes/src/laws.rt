//! Laws of the spelling of entries.

ghost use Rattle.std.specs.Prelude.{◌≡◌, ℕ, IsTrue, List, [], ◌++◌, None, Some};
ghost use Rattle.std.specs.Str.{IsUtf8};
ghost use Rattle.acl_names.specs.declared.auth.AuthId.{AuthId};
ghost use Rattle.acl_names.specs.declared.policy.Verifier.{Verifier};
ghost use Rattle.acl_stmt.specs.Entries.{is_complete};
ghost use Rattle.acl_stmt.specs.declared.statement.Statement.{Statement};
ghost use Rattle.acl_stmt.specs.declared.statement.Statement.TheVariants.{SetPassword};
ghost use Rattle.canonical_texts.specs.Rules.{account_keeps_rules};
ghost use Rattle.canonical_texts.specs.Statements.{canonical_text};
ghost use Rattle.entry_codec.specs.ReadBack.{IsReadBack};
ghost use Rattle.grant_parse.specs.Meaning.{IsStatement};
ghost use Rattle.acl_stmt.specs.declared.entry.Entry.{Entry};
ghost use Rattle.entry_bytes.specs.Faults.{IsBadAt};
ghost use Rattle.entry_bytes.specs.Spelling.{HasBytes, bytes_of};

/// The law that no spelling is a proper front of another's, and that entries with the same bytes are equal.
pub fn entries_have_one_spelling()
    ensures { (a b : Entry) (rest : List ℕ) → HasBytes a → HasBytes b → bytes_of a ++ rest ≡ bytes_of b → (a ≡ b) × (rest ≡ []) }
{}

/// The law that the bytes of an entry have no fault.
pub fn spellings_have_no_fault()
    ensures { (entry : Entry) (offset : ℕ) → HasBytes entry → IsBadAt (bytes_of entry) offset → ⊥ }
{}

/// The law that bytes have one first fault at most.
pub fn faults_have_one_offset()
    ensures { (bytes : List ℕ) (offset other : ℕ) → IsBadAt bytes offset → IsBadAt bytes other → offset ≡ other }
{}

/// The law that what `encode` asks of a statement is true of what was read: a statement that some text is, and that names
/// its account if it is a SET PASSWORD, and a SET PASSWORD that an account within its rules completes.
pub fn read_statements_are_read_back()
    ensures read { (most : ℕ) (text : List ℕ) (s : Statement) → IsUtf8 text → IsStatement most text s → IsTrue (is_complete s)
        → IsReadBack (canonical_text s) s }
    ensures completed { (most : ℕ) (text : List ℕ) (account : AuthId) (verifier : Verifier)
        → IsStatement most text (SetPassword None verifier) → IsTrue (account_keeps_rules account)
        → IsReadBack (canonical_text (SetPassword (Some account) verifier)) (SetPassword (Some account) verifier) }
{}
