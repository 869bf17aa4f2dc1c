//! The statement of an entry, read from its canonical text.

ghost use Rattle.std.specs.Prelude.{◌≡◌, ◌<◌, ◌^◌, ◌++◌, IfErr, IfOk, IsTrue, length};
ghost use Rattle.acl_stmt.specs.Statements.{is_statement};
ghost use Rattle.acl_stmt.specs.declared.statement.Statement.{Statement};
ghost use Rattle.canonical_texts.specs.Statements.{canonical_text};
ghost use Rattle.entry_bytes.specs.Faults.{NoneBegins};
ghost use Rattle.entry_bytes.specs.Spelling.{HasText, MayStand, statement_bytes};
ghost use Rattle.entry_fields.specs.Reading.{IsFieldFault};
ghost use Rattle.entry_reading.specs.Faults.{IsAbsent, IsFault, text_field_fault};
ghost use Rattle.grant_parse.specs.Meaning.{IsStatement};

use crate::fault::{Fault, placed};
use acl_stmt::{Limit, Statement};
use canonical_texts::text_of;
use entry_fields::{FieldFault, long_text_at, may_stand};
use grant_parse::parse;
use grant_refusal::ParseRefusal;
use std::alloc::Global;

/// The statement with which the bytes begin, and the bytes behind it.
pub(crate) fn statement_field<'a>(
    alloc: Global,
    limits: &[Limit],
    bytes: &'a [u8],
) -> Result<(Statement, &'a [u8]), Fault>
    ensures found { IfOk result (λ x. bytes.now ≡ statement_bytes x.0 ++ x.1.now) }
    ensures stands { IfOk result (λ x. MayStand limits.now x.0) }
    ensures kept { IfOk result (λ x. IsTrue (is_statement x.0)) }
    ensures err { IfErr result (IsFault (IsAbsent statement_bytes (MayStand limits.now) bytes.now)) }
{
    match statement_at(alloc, limits, bytes) {
        Ok((statement, rest)) => Ok((statement, rest)),
        Err(fault) => Err(placed(fault, bytes)),
    }
}

fn statement_at<'a>(
    alloc: Global,
    limits: &[Limit],
    bytes: &'a [u8],
) -> Result<(Statement, &'a [u8]), FieldFault>
    ensures found { IfOk result (λ x. bytes.now ≡ statement_bytes x.0 ++ x.1.now) }
    ensures stands { IfOk result (λ x. MayStand limits.now x.0) }
    ensures kept { IfOk result (λ x. IsTrue (is_statement x.0)) }
    ensures err { IfErr result (IsFieldFault (NoneBegins statement_bytes (MayStand limits.now) bytes.now)) }
{
    let Some((text, rest)) = long_text_at(bytes) else {
        return Err(FieldFault::Bad);
    };
    let statement = statement_of(alloc, text)?;
    if !may_stand(limits, &statement) {
        return Err(FieldFault::Bad);
    }
    Ok((statement, rest))
}

// The statement whose canonical text this is.
fn statement_of(alloc: Global, text: &str) -> Result<Statement, FieldFault>
    requires { length text.now < 2 ^ 32 }
    ensures text { IfOk result (λ statement. canonical_text statement ≡ text.now) }
    ensures has { IfOk result HasText }
    ensures kept { IfOk result (λ statement. IsTrue (is_statement statement)) }
    ensures err { IfErr result (IsFieldFault ((statement : Statement) → HasText statement → canonical_text statement ≡ text.now → ⊥)) }
{
    let statement = parsed(alloc, text)?;
    let canonical = text_of(alloc, &statement)?;
    // What is spelled otherwise has another canonical text.
    if canonical.as_str() != text {
        return Err(FieldFault::Bad);
    }
    Ok(statement)
}

fn parsed(alloc: Global, text: &str) -> Result<Statement, FieldFault>
    ensures ok { IfOk result (IsStatement 4294967295 text.now) }
    ensures kept { IfOk result (λ statement. IsTrue (is_statement statement)) }
    ensures err { IfErr result (IsFieldFault ((statement : Statement) → IsStatement 4294967295 text.now statement → ⊥)) }
{
    match parse(alloc, text, u32::MAX) {
        Ok(statement) => Ok(statement),
        Err(refusal) => Err(unread(refusal)),
    }
}

// What the refusal of a text says of its field.
fn unread(refusal: ParseRefusal) -> FieldFault
    ensures { result ≡ text_field_fault refusal }
{
    match refusal {
        ParseRefusal::NoMemory => FieldFault::NoMemory,
        _ => FieldFault::Bad,
    }
}
