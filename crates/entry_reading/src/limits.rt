//! The limits of an entry, read one by one.

ghost use Rattle.std.specs.Prelude.{◌≡◌, ◌++◌, ℕ, suc, [], List, IfErr, IfOk, IfSome, IsNone, IsTrue, length};
ghost use Rattle.std.specs.List.{AllByRecursion, flat_map};
ghost use Rattle.acl_stmt.specs.Entries.{are_limits_in_order};
ghost use Rattle.entry_bytes.specs.Faults.{ComesNext, LimitFields, NoneBegins, Restricts, StatementField};
ghost use Rattle.entry_bytes.specs.Spelling.{IsSchema, limit_bytes, privileges_bytes, short_text};
ghost use Rattle.entry_fields.specs.Reading.{IsFieldFault};
ghost use Rattle.entry_reading.specs.Faults.{IsAbsent, IsFault};

use crate::fault::{Fault, placed};
use acl_items::Items;
use acl_names::Ident;
use acl_stmt::Limit;
use entry_fields::{FieldFault, comes_behind, may_restrict, number_at, short_text_at};
use priv_sets::Static;
use std::alloc::Global;

/// So many limits with which the bytes begin, each behind the one before it, and the bytes behind them.
pub(crate) fn limits_at(
    alloc: Global,
    count: u32,
    bytes: &[u8],
) -> Result<(Items<Limit>, &[u8]), Fault>
    ensures found { IfOk result (λ x. bytes.now ≡ flat_map limit_bytes x.0 ++ x.1.now) }
    ensures many { IfOk result (λ x. length x.0 ≡ count) }
    ensures schemas { IfOk result (λ x. AllByRecursion (λ limit. IsSchema limit.schema) x.0) }
    ensures order { IfOk result (λ x. IsTrue (are_limits_in_order x.0)) }
    ensures behind { IfOk result (λ x. (bad : List ℕ) → StatementField x.0 x.1.now bad → LimitFields count [] bytes.now bad) }
    ensures err { IfErr result (IsFault (LimitFields count [] bytes.now)) }
{
    let mut limits = Items::new(alloc);
    let mut rest = bytes;
    for _ in 0..count {
        let (limit, behind) = limit_at(alloc, limits.as_slice(), rest)?;
        limits.push(limit)?;
        rest = behind;
    }
    Ok((limits, rest))
}

// The limit with which the bytes begin, whose schema comes after those of the others.
fn limit_at<'a>(
    alloc: Global,
    limits: &[Limit],
    bytes: &'a [u8],
) -> Result<(Limit, &'a [u8]), Fault>
    requires order { IsTrue (are_limits_in_order limits.now) }
    ensures found { IfOk result (λ x. bytes.now ≡ limit_bytes x.0 ++ x.1.now) }
    ensures next { IfOk result (λ x. ComesNext limits.now x.0.privileges x.0) }
    ensures err { IfErr result (IsFault (λ bad. (more : ℕ) → LimitFields (suc more) limits.now bytes.now bad)) }
{
    let (privileges, behind) = privileges_field(bytes)?;
    let (schema, rest) = schema_field(alloc, behind)?;
    if !comes_behind(limits, &schema) {
        return Err(Fault::Bad { left: behind.len() });
    }
    Ok((Limit { schema, privileges }, rest))
}

fn privileges_field(bytes: &[u8]) -> Result<(Static, &[u8]), Fault>
    ensures found { IfOk result (λ x. bytes.now ≡ privileges_bytes x.0 ++ x.1.now) }
    ensures restricts { IfOk result (λ x. Restricts x.0) }
    ensures err { IfErr result (IsFault (IsAbsent privileges_bytes Restricts bytes.now)) }
{
    match privileges_at(bytes) {
        Some((privileges, rest)) => Ok((privileges, rest)),
        None => Err(Fault::Bad { left: bytes.len() }),
    }
}

// The privileges of a limit.
fn privileges_at(bytes: &[u8]) -> Option<(Static, &[u8])>
    ensures found { IfSome result (λ x. bytes.now ≡ privileges_bytes x.0 ++ x.1.now) }
    ensures restricts { IfSome result (λ x. Restricts x.0) }
    ensures none { IsNone result → NoneBegins privileges_bytes Restricts bytes.now }
{
    let (bits, rest) = number_at(bytes)?;
    let privileges = Static::from_bits(bits)?;
    if !may_restrict(privileges) {
        return None;
    }
    Some((privileges, rest))
}

fn schema_field(alloc: Global, bytes: &[u8]) -> Result<(Ident, &[u8]), Fault>
    ensures found { IfOk result (λ x. bytes.now ≡ short_text x.0 ++ x.1.now) }
    ensures within { IfOk result (λ x. IsSchema x.0) }
    ensures err { IfErr result (IsFault (IsAbsent short_text IsSchema bytes.now)) }
{
    match schema_at(alloc, bytes) {
        Ok((schema, rest)) => Ok((schema, rest)),
        Err(fault) => Err(placed(fault, bytes)),
    }
}

fn schema_at(alloc: Global, bytes: &[u8]) -> Result<(Ident, &[u8]), FieldFault>
    ensures found { IfOk result (λ x. bytes.now ≡ short_text x.0 ++ x.1.now) }
    ensures within { IfOk result (λ x. IsSchema x.0) }
    ensures err { IfErr result (IsFieldFault (NoneBegins short_text IsSchema bytes.now)) }
{
    let Some((text, rest)) = short_text_at(bytes) else {
        return Err(FieldFault::Bad);
    };
    let schema = Ident::read(alloc, text)?;
    Ok((schema, rest))
}
