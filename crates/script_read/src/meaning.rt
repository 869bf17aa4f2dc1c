//! What is written on a line, once its privileges have the level of their target.

ghost use Rattle.std.specs.Prelude.{◌≡◌, ◌<◌, ◌^◌, None, IfErr, IfOk, OnOk};
ghost use Rattle.grant_parse.specs.Meaning.{IsLevelFault, MeansStatement, level_fault, request_fault};
ghost use Rattle.priv_items.specs.Naming.{column_count, items_in};
ghost use Rattle.privilege_statements.specs.Columns.{privileges_of};
ghost use Rattle.script_commands.specs.declared.command.RawCommand.TheVariants.{Check as CheckAs};
ghost use Rattle.script_read.specs.Written.{MeansCommand, MeansWritten, as_written, command_columns, command_fault, connect_at, written_columns, written_fault};
ghost use mathlib.Core.Logic.{inr};

use crate::Command;
use acl_grammar::Either;
use acl_stmt::{Statement, Target};
use grant_parse::{request_from, statement_from};
use grant_refusal::ParseRefusal;
use priv_items::Named;
use privilege_statements::RawStatement;
use script_commands::{Connect, RawCommand};
use std::alloc::Global;

/// The CONNECT at this moment, or at none.
pub(crate) fn connected(connect: Connect, moment: Option<i64>) -> Command
    ensures { result ≡ connect_at connect moment }
{
    Command::Connect {
        user: connect.user,
        client: connect.client,
        verifier: connect.verifier,
        moment,
    }
}

/// The command that is written so.
pub(crate) fn command_of(
    alloc: Global,
    written: Either<RawCommand, Either<Statement, RawStatement>>,
) -> Result<Command, ParseRefusal>
    requires { written_columns (as_written written) < 2 ^ 32 }
    ensures means { IfOk result (MeansWritten (as_written written)) }
    ensures fits { OnOk result (written_fault (as_written written) ≡ None) }
    ensures err { IfErr result (IsLevelFault (written_fault (as_written written))) }
{
    match written {
        Either::First(command) => checked_command(alloc, command),
        Either::Second(Either::First(statement)) => Ok(Command::Statement(statement)),
        Either::Second(Either::Second(statement)) => checked_statement(alloc, statement),
    }
}

fn checked_statement(alloc: Global, raw: RawStatement) -> Result<Command, ParseRefusal>
    requires { column_count (items_in (privileges_of raw)) < 2 ^ 32 }
    ensures means { IfOk result (MeansWritten (inr (inr raw))) }
    ensures fits { OnOk result (level_fault (inr raw) ≡ None) }
    ensures err { IfErr result (IsLevelFault (level_fault (inr raw))) }
{
    match statement_from(alloc, raw) {
        Ok(statement) => Ok(Command::Statement(statement)),
        Err(refusal) => Err(refusal),
    }
}

fn checked_command(alloc: Global, raw: RawCommand) -> Result<Command, ParseRefusal>
    requires { command_columns raw < 2 ^ 32 }
    ensures means { IfOk result (MeansCommand raw) }
    ensures fits { OnOk result (command_fault raw ≡ None) }
    ensures err { IfErr result (IsLevelFault (command_fault raw)) }
{
    match raw {
        RawCommand::Connect(connect) => Ok(connected(connect, None)),
        RawCommand::Disconnect => Ok(Command::Disconnect),
        RawCommand::UseSchema(schema) => Ok(Command::UseSchema(schema)),
        RawCommand::SetRole(form) => Ok(Command::SetRole(form)),
        RawCommand::Check { privileges, target } => check(alloc, &privileges, target),
        RawCommand::ShowGrants { account, roles } => Ok(Command::ShowGrants { account, roles }),
        RawCommand::Await { length, turns } => Ok(Command::Await { length, turns }),
    }
}

fn check(alloc: Global, privileges: &Named, target: Target) -> Result<Command, ParseRefusal>
    requires { column_count (items_in privileges.now) < 2 ^ 32 }
    ensures means { IfOk result (MeansCommand (CheckAs privileges.now target)) }
    ensures fits { OnOk result (request_fault (privileges.now, target) ≡ None) }
    ensures err { IfErr result (IsLevelFault (request_fault (privileges.now, target))) }
{
    match request_from(alloc, privileges, target) {
        Ok(request) => Ok(Command::Check(request)),
        Err(refusal) => Err(refusal),
    }
}
