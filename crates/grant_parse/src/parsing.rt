//! Statements and requests, from their texts.

ghost use Rattle.std.specs.Prelude.{◌≡◌, ◌≢◌, ◌⊎◌, ◌<◌, ◌^◌, IfErr, IfOk, IsTrue, length};
ghost use Rattle.acl_grammar.specs.Code.{either_view};
ghost use Rattle.acl_stmt.specs.Statements.{is_statement};
ghost use Rattle.acl_stmt.specs.declared.request.Request.{Request};
ghost use Rattle.acl_stmt.specs.declared.statement.Statement.{Statement};
ghost use Rattle.grant_parse.specs.Meaning.{IsRequestRefusal, IsRequestText, IsStatement, IsStatementRefusal};
ghost use Rattle.grant_parse.specs.Statements.{SpellsRequest, SpellsStatement};
ghost use Rattle.grant_refusal.specs.declared.ParseRefusal.{ParseRefusal};
ghost use Rattle.grant_refusal.specs.declared.ParseRefusal.TheVariants.{NoMemory};
ghost use Rattle.grant_parse.specs.Texts.{IsSpelled, IsSyntaxRefusal, ReadsAs, RefusesAs};

use crate::meaning::{request_from, statement_from};
use crate::reading::{read_text, read_text_either};
use crate::rules::{PrivilegeRule, UserRule};
use acl_grammar::Either;
use acl_stmt::{Request, Statement, Target};
use grant_refusal::ParseRefusal;
use priv_items::Named;
use privilege_statements::{RawStatement, RequestRule};
use std::alloc::Global;

/// What the text spells, whatever the levels of its privileges.
fn spelled(alloc: Global, text: &str) -> Result<Either<Statement, RawStatement>, ParseRefusal>
    requires { length text.now < 2 ^ 32 }
    ensures ok { IfOk result (λ value. IsSpelled SpellsStatement text.now (either_view (λ x. x) (λ x. x) value)) }
    ensures err { IfErr result (IsSyntaxRefusal SpellsStatement text.now) }
{
    read_text_either::<UserRule, PrivilegeRule>(alloc, text)
}

/// The statement that a text of at most `most` bytes is.
///
/// MySQL 8.0 Reference Manual, "Account Management Statements".
pub fn parse(alloc: Global, text: &str, most: u32) -> Result<Statement, ParseRefusal>
    // The text is the statement, which keeps the rules of statements; a text is no other.
    ensures ok { IfOk result (IsStatement most text.now) }
    ensures kept { IfOk result (λ statement. IsTrue (is_statement statement)) }
    ensures only { (statement : Statement) → IsStatement most text.now statement → ReadsAs result statement }

    // The text has the refusal, and no other.
    ensures err { IfErr result (IsStatementRefusal most text.now) }
    ensures exact { (refusal : ParseRefusal) → refusal ≢ NoMemory → IsStatementRefusal most text.now refusal → RefusesAs result refusal }
{
    read_statement(alloc, text, most)
}

fn read_statement(alloc: Global, text: &str, most: u32) -> Result<Statement, ParseRefusal>
    ensures ok { IfOk result (IsStatement most text.now) }
    ensures kept { IfOk result (λ statement. IsTrue (is_statement statement)) }
    ensures err { IfErr result (IsStatementRefusal most text.now) }
{
    if text.len() > most as usize {
        return Err(ParseRefusal::Limit);
    }
    match spelled(alloc, text) {
        Ok(Either::First(statement)) => Ok(statement),
        Ok(Either::Second(raw)) => statement_from(alloc, raw),
        Err(refusal) => Err(refusal),
    }
}

/// The request that a text of at most `most` bytes is.
///
/// MySQL 8.0 Reference Manual, "Access Control, Stage 2: Request Verification".
pub fn parse_request(alloc: Global, text: &str, most: u32) -> Result<Request, ParseRefusal>
    // The text is the request, and no other.
    ensures ok { IfOk result (IsRequestText most text.now) }
    ensures only { (request : Request) → IsRequestText most text.now request → ReadsAs result request }

    // The text has the refusal, and no other.
    ensures err { IfErr result (IsRequestRefusal most text.now) }
    ensures exact { (refusal : ParseRefusal) → refusal ≢ NoMemory → IsRequestRefusal most text.now refusal → RefusesAs result refusal }
{
    read_request(alloc, text, most)
}

fn read_request(alloc: Global, text: &str, most: u32) -> Result<Request, ParseRefusal>
    ensures ok { IfOk result (IsRequestText most text.now) }
    ensures err { IfErr result (IsRequestRefusal most text.now) }
{
    if text.len() > most as usize {
        return Err(ParseRefusal::Limit);
    }
    let (named, target) = read_text::<RequestRule>(alloc, text)?;
    request_from(alloc, &named, target)
}
