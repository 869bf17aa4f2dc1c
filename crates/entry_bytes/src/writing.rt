//! Entries are written as bytes.

ghost use Rattle.std.specs.Prelude.{◌≡◌, ◌<◌, ◌^◌, ◌++◌, IfOk, OnOk, length, string_bytes};
ghost use Rattle.std.specs.List.{AllByRecursion, flat_map};
ghost use Rattle.canonical_texts.specs.Statements.{canonical_text};
ghost use Rattle.entry_bytes.specs.Spelling.{HasBytes, HasText, IsHost, IsNumber, IsSchema, IsUser, bytes_of, limit_bytes, long_text, number_bytes, short_text};
ghost use Rattle.entry_codec.specs.ReadBack.{IsReadBack};

use acl_names::{HostText, UserName};
use acl_stmt::{Entry, Limit, Statement};
use entry_codec::text_of;
use std::alloc::{AllocError, Global};

/// The bytes of an entry: its caller, number, user, host, limits and the canonical text of its statement.
pub fn encode(alloc: Global, entry: &Entry) -> Result<Vec<u8>, AllocError>
    requires read_back { IsReadBack (canonical_text entry.now.statement) entry.now.statement }
    requires short { length (canonical_text entry.now.statement) < 2 ^ 32 }
    requires count { IsNumber (length entry.now.limits) }
    ensures bytes { IfOk result (λ bytes. bytes.items ≡ bytes_of entry.now) }

    // The entry keeps what it is read back for.
    ensures kept { OnOk result (HasBytes entry.now) }
{
    let text = statement_text(alloc, &entry.statement)?;
    let mut bytes = Vec::new(alloc);
    append_number(&mut bytes, entry.caller.0)?;
    append_number(&mut bytes, entry.number)?;
    append_user(&mut bytes, &entry.by.user)?;
    append_host(&mut bytes, &entry.by.host)?;
    append_number(&mut bytes, entry.limits.len() as u32)?;
    append_limits(&mut bytes, entry.limits.as_slice())?;
    append_number(&mut bytes, text.len() as u32)?;
    bytes.extend_from_slice(text.as_bytes())?;
    Ok(bytes)
}

// The text from which the statement is read back.
fn statement_text(alloc: Global, statement: &Statement) -> Result<String, AllocError>
    requires read_back { IsReadBack (canonical_text statement.now) statement.now }
    requires short { length (canonical_text statement.now) < 2 ^ 32 }
    ensures text { IfOk result (λ text. string_bytes text ≡ canonical_text statement.now) }
    ensures kept { OnOk result (HasText statement.now) }
{
    let text = text_of(alloc, statement)?;
    Ok(text)
}

fn append_number(bytes: &mut Vec<u8>, number: u32) -> Result<(), AllocError>
    ensures { OnOk result (bytes.new.items ≡ bytes.old.items ++ number_bytes number) }
{
    bytes.extend_from_slice(&number.to_le_bytes())?;
    Ok(())
}

fn append_short(bytes: &mut Vec<u8>, text: &str) -> Result<(), AllocError>
    requires { length text.now < 2 ^ 16 }
    ensures { OnOk result (bytes.new.items ≡ bytes.old.items ++ short_text text.now) }
{
    bytes.extend_from_slice(&(text.len() as u16).to_le_bytes())?;
    bytes.extend_from_slice(text.as_bytes())?;
    Ok(())
}

fn append_user(bytes: &mut Vec<u8>, user: &UserName) -> Result<(), AllocError>
    ensures put { OnOk result (bytes.new.items ≡ bytes.old.items ++ short_text user.now) }
    ensures kept { IsUser user.now }
{
    append_short(bytes, user.as_str())
}

fn append_host(bytes: &mut Vec<u8>, host: &HostText) -> Result<(), AllocError>
    ensures put { OnOk result (bytes.new.items ≡ bytes.old.items ++ short_text host.now) }
    ensures kept { IsHost host.now }
{
    append_short(bytes, host.as_str())
}

fn append_limit(bytes: &mut Vec<u8>, limit: &Limit) -> Result<(), AllocError>
    ensures put { OnOk result (bytes.new.items ≡ bytes.old.items ++ limit_bytes limit.now) }
    ensures kept { OnOk result (IsSchema limit.now.schema) }
{
    append_number(bytes, limit.privileges.bits())?;
    append_short(bytes, limit.schema.as_str())
}

fn append_limits(bytes: &mut Vec<u8>, limits: &[Limit]) -> Result<(), AllocError>
    ensures put { OnOk result (bytes.new.items ≡ bytes.old.items ++ flat_map limit_bytes limits.now) }
    ensures kept { OnOk result (AllByRecursion (λ limit. IsSchema limit.schema) limits.now) }
{
    for limit in limits {
        append_limit(bytes, limit)?;
    }
    Ok(())
}
