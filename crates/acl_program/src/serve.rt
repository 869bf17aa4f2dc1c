//! The program's one call: words and devices in, an end and what was written out.
ghost use Rattle.std.specs.Prelude.{◌≡◌, ◌≢◌, ℕ, ◌≤◌, ◌++◌, None, [], Some, map, string_bytes, IfSome, IsSomeAnd};
ghost use Rattle.acl_ports.specs.Faults.{next_count};
ghost use Rattle.acl_program.specs.Causes.{status, text_of_cause};
ghost use Rattle.acl_program.specs.Endings.{ComesExactly, HasReport, IsReadFor, IsTold, IsUsageOrWant};
ghost use Rattle.acl_program.specs.Rehearsal.{IsRehearsal};
ghost use Rattle.acl_program.specs.Runs.{script_bytes, told_text};
ghost use Rattle.acl_program.specs.Scripts.{IsBadScript, IsTooMuch};
ghost use Rattle.acl_program.specs.Streams.{IsPrefixWritten};
ghost use Rattle.acl_program.specs.declared.cause.Cause.TheVariants.{Fine, Usage, BadScript, ReadFault, WriteFault, Limit};
ghost use Rattle.grant_refusal.specs.declared.ParseRefusal.{ParseRefusal};
ghost use Rattle.program_words.specs.Forms.{form_of};
ghost use Rattle.program_words.specs.declared.form.Form.TheVariants.{Step};
ghost use Rattle.script_lines.specs.declared.refusal.Which.{Which};

use crate::cause::{Cause, status_of, tell};
use crate::output::write_all;
use crate::rehearse::{rehearse, text_of};
use acl_ports::{Disk, Sink, Source};
use line_answers::Report;
use std::alloc::Global;

/// How a run of the program ended.
#[derive(Drop)]
pub struct Served<D> {
    /// The exit status, 0 where all went well.
    pub status: u8,
    pub cause: Cause,
    /// What was answered, where the lines were run.
    pub report: Option<Report>,
    /// The disk that was handed in.
    pub disk: D,
}

/// Runs the program with the words after its name. `step` runs the script that is read, and tells each answer; `make` runs
/// the script that is made from its numbers, reads nothing, and tells how many answers there were.
///
/// The order is: the words, reading, the limits on bytes and on lines, then line by line the first without a spelling or
/// the 65th session, whichever comes first, running, writing. Want of memory may come anywhere.
pub fn serve<S: Source, K: Sink, E: Sink, D: Disk>(
    alloc: Global,
    words: &[String],
    script: &mut S,
    out: &mut K,
    err: &mut E,
    disk: D,
) -> Served<D>
    ensures status { result.status ≡ status result.cause }

    // Status 0: the script was read to its end, its lines have their answers, and the output has their text.
    ensures read { result.status ≡ 0 → form_of (map string_bytes words.now) ≡ Some Step →
        IfSome (S.left script.old) (λ bytes. S.left script.new ≡ Some []) }
    ensures report { result.status ≡ 0 →
        IfSome (script_bytes (form_of (map string_bytes words.now)) (S.left script.old))
        (λ bytes. IsSomeAnd result.report (IsRehearsal bytes)) }
    ensures out { result.status ≡ 0 → IfSome (K.written out.old) (λ before. IsSomeAnd result.report (λ report.
        K.written out.new ≡ Some (before ++ told_text (form_of (map string_bytes words.now)) report))) }
    ensures err { result.status ≡ 0 → err.new ≡ err.old }

    // Status 2, 3 and 9.
    ensures usage { result.cause ≡ Usage → form_of (map string_bytes words.now) ≡ None }
    ensures no_form { form_of (map string_bytes words.now) ≡ None → IsUsageOrWant result.cause }
    ensures bad_script { IfSome (script_bytes (form_of (map string_bytes words.now)) (S.left script.old)) (λ bytes.
        (line : ℕ) (refusal : ParseRefusal) →
        ComesExactly result.cause (BadScript line refusal) (IsBadScript bytes line refusal)) }
    ensures limit { IfSome (script_bytes (form_of (map string_bytes words.now)) (S.left script.old)) (λ bytes.
        (which : Which) (number : ℕ) →
        ComesExactly result.cause (Limit which number) (IsTooMuch bytes which number)) }

    // Status 4 and 5.
    ensures read_fault { result.cause ≡ ReadFault → next_count (S.faults script.old) ≤ S.faults script.new }
    ensures write_fault { result.cause ≡ WriteFault → next_count (K.faults out.old) ≤ K.faults out.new }
    ensures front_written { result.cause ≡ WriteFault → IfSome (K.written out.old) (λ before.
        IsSomeAnd result.report (λ report. IsPrefixWritten before
        (told_text (form_of (map string_bytes words.now)) report) (K.written out.new))) }

    // With every status.
    ensures taken { form_of (map string_bytes words.now) ≡ Some Step →
        IfSome (S.left script.old) (λ bytes. IsReadFor result.cause bytes (S.left script.new)) }
    ensures untaken { form_of (map string_bytes words.now) ≢ Some Step → script.new ≡ script.old }
    ensures kept_report { HasReport result.cause result.report }
    ensures rehearsed { IfSome result.report (λ report.
        IfSome (script_bytes (form_of (map string_bytes words.now)) (S.left script.old))
        (λ bytes. IsRehearsal bytes report)) }
    ensures unwritten { result.cause ≢ Fine → result.cause ≢ WriteFault → out.new ≡ out.old }
    ensures told { IfSome (E.written err.old) (λ before. IsTold before (text_of_cause result.cause)
        (E.faults err.old) (E.faults err.new) (E.written err.new)) }
    ensures disk { result.disk ≡ disk }
{
    let (form, report) = match rehearse(alloc, words, script) {
        Ok(run) => run,
        Err(cause) => return ended(cause, None, err, disk),
    };
    let Ok(text) = text_of(alloc, form, &report) else {
        return ended(Cause::NoMemory, Some(report), err, disk);
    };
    match write_all(out, text.as_bytes()) {
        Ok(()) => Served {
            status: 0,
            cause: Cause::Fine,
            report: Some(report),
            disk,
        },
        Err(_) => ended(Cause::WriteFault, Some(report), err, disk),
    }
}

// The end with a line on the error stream. A fault there changes nothing else.
fn ended<E: Sink, D: Disk>(cause: Cause, report: Option<Report>, err: &mut E, disk: D) -> Served<D>
    ensures status { result.status ≡ status cause }
    ensures cause { result.cause ≡ cause }
    ensures report { result.report ≡ report }
    ensures told { IfSome (E.written err.old) (λ before. IsTold before (text_of_cause cause)
        (E.faults err.old) (E.faults err.new) (E.written err.new)) }
    ensures disk { result.disk ≡ disk }
{
    let _ = tell(err, &cause);
    Served {
        status: status_of(&cause),
        cause,
        report,
        disk,
    }
}
