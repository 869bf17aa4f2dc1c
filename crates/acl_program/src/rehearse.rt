//! The run of a script: read or made, and its lines answered.
ghost use Rattle.std.specs.Prelude.{◌≡◌, ◌≢◌, ◌<◌, ◌≤◌, ◌^◌, None, Some, length, map, string_bytes, IfErr, IfOk, IfSome, IsTrue};
ghost use Rattle.std.specs.List.{All};
ghost use Rattle.acl_ports.specs.Faults.{next_count};
ghost use Rattle.acl_program.specs.Causes.{cause_so_far};
ghost use Rattle.acl_program.specs.Endings.{IsCausedBy, IsDue, IsMade, IsReadFor, IsUsageOrWant};
ghost use Rattle.acl_program.specs.Rehearsal.{IsRehearsal, IsReport};
ghost use Rattle.acl_program.specs.Runs.{bytes_of, script_bytes, text_of};
ghost use Rattle.acl_program.specs.Streams.{most_bytes};
ghost use Rattle.acl_program.specs.declared.cause.Cause.TheVariants.{Fine, Usage, ReadFault, WriteFault};
ghost use Rattle.made_scripts.specs.Scripts.{made};
ghost use Rattle.program_words.specs.Forms.{IsWithin, form_of};
ghost use Rattle.program_words.specs.declared.form.Form.TheVariants.{Step};
ghost use Rattle.script_run.specs.Forms.{is_built, keeps_rules};

use crate::cause::{Cause, cause_of_input, cause_of_script};
use crate::input::read_all;
use acl_ports::Source;
use line_answers::{Report, report_of, report_text};
use made_scripts::made_script;
use program_words::{Form, read_form};
use run_summaries::summary_text;
use script_read::{Script, read_script_of};
use script_run::{BuiltForms, run_lines};
use std::alloc::{AllocError, Global};

/// The report as the form tells it.
pub(crate) fn text_of(alloc: Global, form: Form, report: &Report) -> Result<String, AllocError>
    ensures { IfOk result (λ text. string_bytes text ≡ text_of form report.now) }
{
    match form {
        Form::Step => report_text(alloc, report),
        Form::Make { .. } => summary_text(alloc, report),
    }
}

/// Runs the lines of the script that the words ask for.
pub(crate) fn rehearse<S: Source>(
    alloc: Global,
    words: &[String],
    source: &mut S,
) -> Result<(Form, Report), Cause>
    ensures form { IfOk result (λ run. form_of (map string_bytes words.now) ≡ Some run.0) }
    ensures usage { cause_so_far result ≡ Usage → form_of (map string_bytes words.now) ≡ None }
    ensures no_form { form_of (map string_bytes words.now) ≡ None → IsUsageOrWant (cause_so_far result) }
    ensures cause { IfSome (script_bytes (form_of (map string_bytes words.now)) (S.left source.old)) (λ bytes.
        IsCausedBy bytes (cause_so_far result)) }
    ensures due { IfSome (script_bytes (form_of (map string_bytes words.now)) (S.left source.old)) (λ bytes.
        IsDue bytes (cause_so_far result)) }
    ensures fault { cause_so_far result ≡ ReadFault → next_count (S.faults source.old) ≤ S.faults source.new }
    ensures taken { form_of (map string_bytes words.now) ≡ Some Step →
        IfSome (S.left source.old) (λ bytes. IsReadFor (cause_so_far result) bytes (S.left source.new)) }
    ensures untaken { form_of (map string_bytes words.now) ≢ Some Step → source.new ≡ source.old }
    ensures report { IfOk result (λ run.
        IfSome (script_bytes (form_of (map string_bytes words.now)) (S.left source.old)) (λ bytes. IsRehearsal bytes run.1)) }
    ensures err { IfErr result (λ cause. (cause ≢ Fine) × (cause ≢ WriteFault)) }
{
    match read_form(alloc, words) {
        Ok(Some(form)) => match rehearse_form(alloc, form, source) {
            Ok(report) => Ok((form, report)),
            Err(cause) => Err(cause),
        },
        Ok(None) => Err(Cause::Usage),
        Err(_) => Err(Cause::NoMemory),
    }
}

// Runs the lines of the script of a form.
fn rehearse_form<S: Source>(alloc: Global, form: Form, source: &mut S) -> Result<Report, Cause>
    requires { IsWithin form }
    ensures cause { IfSome (bytes_of form (S.left source.old)) (λ bytes. IsCausedBy bytes (cause_so_far result)) }
    ensures due { IfSome (bytes_of form (S.left source.old)) (λ bytes. IsDue bytes (cause_so_far result)) }
    ensures fault { cause_so_far result ≡ ReadFault → next_count (S.faults source.old) ≤ S.faults source.new }
    ensures taken { form ≡ Step →
        IfSome (S.left source.old) (λ bytes. IsReadFor (cause_so_far result) bytes (S.left source.new)) }
    ensures untaken { form ≢ Step → source.new ≡ source.old }
    ensures report { IfOk result (λ report. IfSome (bytes_of form (S.left source.old)) (λ bytes. IsRehearsal bytes report)) }
    ensures err { IfErr result (λ cause. (cause ≢ Fine) × (cause ≢ WriteFault)) }
    ensures usage { cause_so_far result ≢ Usage }
{
    match form {
        Form::Step => rehearse_source(alloc, source),
        Form::Make {
            number,
            sessions,
            lines,
        } => rehearse_made(alloc, number, sessions, lines),
    }
}

// Reads the script and runs its lines.
fn rehearse_source<S: Source>(alloc: Global, source: &mut S) -> Result<Report, Cause>
    ensures cause { IfSome (S.left source.old) (λ bytes. IsCausedBy bytes (cause_so_far result)) }
    ensures due { IfSome (S.left source.old) (λ bytes. IsDue bytes (cause_so_far result)) }
    ensures fault { cause_so_far result ≡ ReadFault → next_count (S.faults source.old) ≤ S.faults source.new }
    ensures read { IfSome (S.left source.old) (λ bytes.
        IsReadFor (cause_so_far result) bytes (S.left source.new)) }
    ensures report { IfOk result (λ report.
        IfSome (S.left source.old) (λ bytes. IsRehearsal bytes report)) }
    ensures err { IfErr result (λ cause. (cause ≢ Fine) × (cause ≢ WriteFault)) }
    ensures usage { cause_so_far result ≢ Usage }
{
    match read_all(alloc, source) {
        Ok(bytes) => rehearse_bytes(alloc, &bytes),
        Err(fault) => Err(cause_of_input(fault)),
    }
}

// Makes the script and runs its lines.
fn rehearse_made(alloc: Global, number: u64, sessions: u64, lines: u64) -> Result<Report, Cause>
    requires some { 1 ≤ sessions }
    requires few { sessions ≤ 64 }
    requires short { lines ≤ 199936 }
    ensures made { IsMade (made number sessions lines) (cause_so_far result) }
    ensures due { IsDue (made number sessions lines) (cause_so_far result) }
    ensures report { IfOk result (IsRehearsal (made number sessions lines)) }
    ensures err { IfErr result (λ cause. cause ≢ Fine) }
{
    match made_script(alloc, number, sessions, lines) {
        Ok(script) => rehearse_bytes(alloc, script.as_bytes()),
        Err(_) => Err(Cause::NoMemory),
    }
}

// Runs the lines of the script that the bytes are.
fn rehearse_bytes(alloc: Global, bytes: &[u8]) -> Result<Report, Cause>
    requires { length bytes.now ≤ most_bytes }
    ensures made { IsMade bytes.now (cause_so_far result) }
    ensures due { IsDue bytes.now (cause_so_far result) }
    ensures report { IfOk result (IsRehearsal bytes.now) }
    ensures err { IfErr result (λ cause. cause ≢ Fine) }
{
    match read_script_of::<BuiltForms>(alloc, bytes) {
        Ok(script) => match run_script(alloc, script) {
            Ok(report) => Ok(report),
            Err(_) => Err(Cause::NoMemory),
        },
        Err(refusal) => Err(cause_of_script(refusal)),
    }
}

// Runs the lines of a script, and tells what they were answered.
fn run_script(alloc: Global, script: Script) -> Result<Report, AllocError>
    requires seated { All (λ line. line.session < length script.sessions) script.lines }
    requires count { length script.lines < 2 ^ 32 }
    requires built { All (λ line. IsTrue (is_built line.command)) script.lines }
    requires rules { All (λ line. IsTrue (keeps_rules line.command)) script.lines }
    ensures { IfOk result (IsReport script.sessions script.lines) }
{
    let run = run_lines(alloc, script.sessions.len(), script.lines.as_slice())?;
    report_of(alloc, script.sessions, run.answers, run.accepted)
}
