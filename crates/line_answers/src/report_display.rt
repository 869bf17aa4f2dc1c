//! The text of a report.
ghost use Rattle.std.specs.Prelude.{◌≡◌, Some, IfOk, string_bytes};
ghost use Rattle.line_answers.specs.ReportTexts.{session_text, text_of_report};

use crate::report::{Report, SessionReport};
use std::alloc::{AllocError, Global};
use std::fmt;

/// The report as text: a line for each answer, session by session, and a last line with the number of
/// accepted statements.
pub fn report_text(alloc: Global, report: &Report) -> Result<String, AllocError>
    ensures { IfOk result (λ text. string_bytes text ≡ text_of_report report.now) }
{
    report.to_string(alloc)
}

impl fmt::Display for Report {
    ghost output = { λ report. Some (text_of_report report) };

    fn fmt<W: fmt::Write>(&self, f: &mut fmt::Formatter<W>) -> fmt::Result {
        for session in &self.sessions {
            write!(f, "{session}")?;
        }
        let history = self.history;
        writeln!(f, "history {history}")
    }
}

/// A line for each answer.
impl fmt::Display for SessionReport {
    ghost output = { λ session. Some (session_text session) };

    fn fmt<W: fmt::Write>(&self, f: &mut fmt::Formatter<W>) -> fmt::Result {
        for told in &self.answers {
            let name = self.name.as_str();
            let line = told.line;
            let answer = &told.answer;
            writeln!(f, "{name}:{line} {answer}")?;
        }
        Ok(())
    }
}
