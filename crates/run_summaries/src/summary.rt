//! The numbers of a run as text.
ghost use Rattle.std.specs.Prelude.{◌≡◌, IfOk, IfSome, Some, string_bytes};
ghost use Rattle.run_summaries.specs.SummaryTexts.{summary_of, summary_text, text_of_summary};

use crate::count::{Sort, count};
use line_answers::Report;
use std::alloc::{AllocError, Global};
use std::fmt;

/// How many lines a run had, how many statements its history has, and how many answers of each name it gave.
#[derive(Clone, Copy)]
struct Summary {
    lines: u64,
    history: u64,
    done: u64,
    refused: u64,
    allowed: u64,
    denied: u64,
}

/// The report in numbers, a line for each: its lines, the statements of the history, the answers `done`, `refused`, `allowed`
/// and `denied`, and the accounts whose privileges were computed anew, which are none as long as nothing is computed ahead.
/// There is no memory for the answers of a report that 64 bits cannot count.
pub fn summary_text(alloc: Global, report: &Report) -> Result<String, AllocError>
    ensures { IfOk result (λ text. string_bytes text ≡ text_of_summary report.now) }
{
    match summary_of(report) {
        Some(summary) => summary.to_string(alloc),
        None => Err(AllocError),
    }
}

fn summary_of(report: &Report) -> Option<Summary>
    ensures { IfSome result (λ summary. summary ≡ summary_of report.now) }
{
    Some(Summary {
        lines: count(report, Sort::Any)?,
        history: u64::from(report.history),
        done: count(report, Sort::Done)?,
        refused: count(report, Sort::Refused)?,
        allowed: count(report, Sort::Allowed)?,
        denied: count(report, Sort::Denied)?,
    })
}

impl fmt::Display for Summary {
    ghost output = { λ summary. Some (summary_text summary) };

    fn fmt<W: fmt::Write>(&self, f: &mut fmt::Formatter<W>) -> fmt::Result {
        let Summary {
            lines,
            history,
            done,
            refused,
            allowed,
            denied,
        } = *self;
        write!(
            f,
            "lines {lines}\nhistory {history}\ndone {done}\nrefused {refused}\nallowed {allowed}\ndenied {denied}\nrecomputed 0\n"
        )
    }
}
