//! Statements as texts that are read back.
//!
//! MySQL 8.0 Reference Manual, "Account Management Statements".
#![tactic(auto)]

ghost use Rattle.std.specs.Prelude.{◌≡◌, ℕ, IfOk, IsTrue, List, None, Some, string_bytes};
ghost use Rattle.std.specs.Str.{IsUtf8};
ghost use Rattle.acl_names.specs.declared.auth.AuthId.{AuthId};
ghost use Rattle.acl_names.specs.declared.policy.Verifier.{Verifier};
ghost use Rattle.acl_stmt.specs.Entries.{is_complete};
ghost use Rattle.acl_stmt.specs.declared.statement.Statement.TheVariants.{SetPassword};
ghost use Rattle.canonical_texts.specs.Rules.{account_keeps_rules};
ghost use Rattle.canonical_texts.specs.Statements.{canonical_text};
ghost use Rattle.grant_parse.specs.Meaning.{IsStatement};
ghost use Rattle.entry_codec.specs.ReadBack.{IsReadBack};

use acl_stmt::Statement;
use std::alloc::{AllocError, Global};

/// The canonical text of `statement`, from which it is read back.
///
/// MySQL 8.0 Reference Manual, "Account Management Statements".
pub fn text_of(alloc: Global, statement: &Statement) -> Result<String, AllocError>
    ensures text { IfOk result (λ text. string_bytes text ≡ canonical_text statement.now) }

    // Where some text is the statement, and a SET PASSWORD names its account, the result is the same statement.
    ensures read_back { (most : ℕ) (bytes : List ℕ) → IsUtf8 bytes → IsStatement most bytes statement.now
        → IsTrue (is_complete statement.now) → IfOk result (λ text. IsReadBack (string_bytes text) statement.now) }

    // So it is where some text is a SET PASSWORD that names none, and an account within its rules completes it.
    ensures completed { (most : ℕ) (bytes : List ℕ) (account : AuthId) (verifier : Verifier)
        → IsStatement most bytes (SetPassword None verifier) → IsTrue (account_keeps_rules account)
        → statement.now ≡ SetPassword (Some account) verifier
        → IfOk result (λ text. IsReadBack (string_bytes text) statement.now) }
{
    canonical_texts::text_of(alloc, statement)
}
