//! Why the program ended, with its status and its line on the error stream.
ghost use Rattle.std.specs.Prelude.{◌≡◌, ◌++◌, Some, IfSome, OnErr, OnOk};
ghost use Rattle.acl_ports.specs.Faults.{HasCause};
ghost use Rattle.acl_program.specs.Causes.{cause_of_fault, cause_of_refusal, limit_name as name_of_limit, refusal_text, status, text_of_cause};
ghost use Rattle.acl_program.specs.Streams.{IsPrefixWritten};
ghost use Rattle.acl_program.specs.declared.cause.Cause.TheVariants.{BadScript};

use crate::input::{InputFault, MOST_BYTES};
use crate::output::write_parts;
use acl_ports::{Failed, Sink};
use grant_refusal::ParseRefusal;
use script_read::{ScriptRefusal, Which};

/// Why the program ended.
#[derive(Clone, Copy, Debug, PartialEq, Eq)]
pub enum Cause {
    /// The script was read to its end and every line has its answer.
    Fine,
    /// The words are none that the program takes.
    Usage,
    /// The first line that is none, counted from 1.
    BadScript { line: u32, refusal: ParseRefusal },
    /// The script could not be read.
    ReadFault,
    /// The answers could not be written.
    WriteFault,
    NoMemory,
    /// The script has more than this many of these.
    Limit { which: Which, number: u64 },
}

/// The exit status.
pub fn status_of(cause: &Cause) -> u8
    ensures { result ≡ status cause.now }
{
    match cause {
        Cause::Fine => 0,
        Cause::Usage => 2,
        Cause::BadScript { .. } => 3,
        Cause::ReadFault => 4,
        Cause::WriteFault => 5,
        Cause::NoMemory => 8,
        Cause::Limit { .. } => 9,
    }
}

/// Why an input was not read.
pub(crate) fn cause_of_input(fault: InputFault) -> Cause
    ensures { result ≡ cause_of_fault fault }
{
    match fault {
        InputFault::Failed => Cause::ReadFault,
        InputFault::TooLong => Cause::Limit {
            which: Which::Bytes,
            number: MOST_BYTES as u64,
        },
        InputFault::NoMemory => Cause::NoMemory,
    }
}

/// Why a script was not read.
pub(crate) fn cause_of_script(refusal: ScriptRefusal) -> Cause
    ensures { result ≡ cause_of_refusal refusal }
{
    match refusal {
        ScriptRefusal::BadLine { line, refusal } => Cause::BadScript { line, refusal },
        ScriptRefusal::Limit { which, number } => Cause::Limit { which, number },
        ScriptRefusal::NoMemory => Cause::NoMemory,
    }
}

/// Writes the line that names the cause. It takes no memory.
pub(crate) fn tell<E: Sink>(err: &mut E, cause: &Cause) -> Result<(), Failed>
    ensures ok { IfSome (E.written err.old) (λ before.
        OnOk result (E.written err.new ≡ Some (before ++ text_of_cause cause.now))) }
    ensures err { IfSome (E.written err.old) (λ before.
        OnErr result (IsPrefixWritten before (text_of_cause cause.now) (E.written err.new))) }
    ensures cause { HasCause (E.faults err.old) (E.faults err.new) result }
{
    match *cause {
        Cause::Fine => write_parts(err, &[]),
        Cause::Usage => write_parts(
            err,
            &["usage: acl step SCRIPT JOURNAL, acl make NUMBER SESSIONS LINES\n"],
        ),
        Cause::BadScript { line, refusal } => tell_bad_line(err, line, refusal),
        Cause::ReadFault => write_parts(err, &["read fault\n"]),
        Cause::WriteFault => write_parts(err, &["write fault\n"]),
        Cause::NoMemory => write_parts(err, &["no memory\n"]),
        Cause::Limit { which, number } => {
            let mut digits = itoa::Buffer::new();
            let parts = [
                "limit ",
                limit_name(which),
                " ",
                digits.format(number),
                "\n",
            ];
            write_parts(err, &parts)
        }
    }
}

fn tell_bad_line<E: Sink>(err: &mut E, line: u32, refusal: ParseRefusal) -> Result<(), Failed>
    ensures ok { IfSome (E.written err.old) (λ before.
        OnOk result (E.written err.new ≡ Some (before ++ text_of_cause (BadScript line refusal)))) }
    ensures err { IfSome (E.written err.old) (λ before.
        OnErr result (IsPrefixWritten before (text_of_cause (BadScript line refusal)) (E.written err.new))) }
    ensures cause { HasCause (E.faults err.old) (E.faults err.new) result }
{
    let mut number = itoa::Buffer::new();
    let line = number.format(line);
    match refusal {
        ParseRefusal::Limit => write_parts(err, &["line ", line, ": too long\n"]),
        ParseRefusal::Syntax { offset } => {
            let mut place = itoa::Buffer::new();
            write_parts(
                err,
                &["line ", line, ": syntax at ", place.format(offset), "\n"],
            )
        }
        ParseRefusal::WrongLevel { privilege } => {
            let name = priv_sets::name(privilege);
            write_parts(err, &["line ", line, ": wrong level ", name, "\n"])
        }
        ParseRefusal::NoMemory => write_parts(err, &["line ", line, ": no memory\n"]),
    }
}

fn limit_name(which: Which) -> &'static str
    ensures { result.now ≡ name_of_limit which }
{
    match which {
        Which::Bytes => "bytes",
        Which::Lines => "lines",
        Which::Sessions => "sessions",
    }
}
