//! What stands before the limits of an entry.

ghost use Rattle.std.specs.Prelude.{◌≡◌, ◌++◌, IfErr, IfOk};
ghost use Rattle.entry_bytes.specs.Faults.{EntryFields};
ghost use Rattle.entry_bytes.specs.Spelling.{IsHost, IsNumber, IsUser, number_bytes, short_text};
ghost use Rattle.entry_reading.specs.Faults.{IsAbsent, IsFault};
ghost use Rattle.entry_reading.specs.Fronts.{IsFront, front_bytes};

use crate::fault::{Fault, placed};
use acl_names::{AuthId, Caller, HostText, UserName};
use entry_fields::{host_at, number_at, user_at};
use std::alloc::Global;

/// The fields of an entry before its limits.
#[derive(Drop)]
pub(crate) struct Front {
    pub(crate) caller: Caller,
    pub(crate) number: u32,
    pub(crate) by: AuthId,
    /// How many limits follow.
    pub(crate) count: u32,
}

/// The fields before the limits with which the bytes begin, and the bytes behind them.
pub(crate) fn front_at(alloc: Global, bytes: &[u8]) -> Result<(Front, &[u8]), Fault>
    ensures found { IfOk result (λ x. bytes.now ≡ front_bytes x.0 x.1.now) }
    ensures within { IfOk result (λ x. IsFront x.0) }
    ensures err { IfErr result (IsFault (EntryFields bytes.now)) }
{
    let (caller, behind_caller) = number_field(bytes)?;
    let (number, behind_number) = number_field(behind_caller)?;
    let (user, behind_user) = user_field(alloc, behind_number)?;
    let (host, behind_host) = host_field(alloc, behind_user)?;
    let (count, rest) = number_field(behind_host)?;
    let front = Front {
        caller: Caller(caller),
        number,
        by: AuthId { user, host },
        count,
    };
    Ok((front, rest))
}

fn number_field(bytes: &[u8]) -> Result<(u32, &[u8]), Fault>
    ensures found { IfOk result (λ x. bytes.now ≡ number_bytes x.0 ++ x.1.now) }
    ensures fits { IfOk result (λ x. IsNumber x.0) }
    ensures err { IfErr result (IsFault (IsAbsent number_bytes IsNumber bytes.now)) }
{
    match number_at(bytes) {
        Some((number, rest)) => Ok((number, rest)),
        None => Err(Fault::Bad { left: bytes.len() }),
    }
}

fn user_field(alloc: Global, bytes: &[u8]) -> Result<(UserName, &[u8]), Fault>
    ensures found { IfOk result (λ x. bytes.now ≡ short_text x.0 ++ x.1.now) }
    ensures within { IfOk result (λ x. IsUser x.0) }
    ensures err { IfErr result (IsFault (IsAbsent short_text IsUser bytes.now)) }
{
    match user_at(alloc, bytes) {
        Ok((user, rest)) => Ok((user, rest)),
        Err(fault) => Err(placed(fault, bytes)),
    }
}

fn host_field(alloc: Global, bytes: &[u8]) -> Result<(HostText, &[u8]), Fault>
    ensures found { IfOk result (λ x. bytes.now ≡ short_text x.0 ++ x.1.now) }
    ensures within { IfOk result (λ x. IsHost x.0) }
    ensures err { IfErr result (IsFault (IsAbsent short_text IsHost bytes.now)) }
{
    match host_at(alloc, bytes) {
        Ok((host, rest)) => Ok((host, rest)),
        Err(fault) => Err(placed(fault, bytes)),
    }
}
