//! What a run answered, session by session.
ghost use Rattle.std.specs.Prelude.{◌≡◌, ◌<◌, [], IfOk, length, map};
ghost use Rattle.std.specs.List.{All};
ghost use Rattle.line_answers.specs.Reports.{answers_by_session, sessions_from};

use crate::answer::Answer;
use crate::points::Points;
use acl_items::Items;
use script_lines::SessionName;
use std::alloc::{AllocError, Global};

/// The answer to a line, beside the line's number.
#[derive(Debug, Drop)]
pub struct LineAnswer {
    pub line: u32,
    pub answer: Answer,
    /// What the session had read after the line.
    pub points: Points,
    /// How many accepted statements the session had seen after the line.
    pub now: u32,
}

/// The answers of one session, in the order of its lines.
#[derive(Debug, Drop)]
pub struct SessionReport {
    pub name: SessionName,
    pub answers: Vec<LineAnswer>,
}

/// What a run answered, session by session in the order in which they first appear.
#[derive(Debug, Drop)]
pub struct Report {
    pub sessions: Vec<SessionReport>,
    /// How many statements were accepted.
    pub history: u32,
}

/// The report of a run: its sessions by their names, and its answers, each beside the place of its session.
pub fn report_of(
    alloc: Global,
    names: Items<SessionName>,
    answers: Vec<(u32, LineAnswer)>,
    history: u32,
) -> Result<Report, AllocError>
    requires seated { All (λ answer. answer.0 < length names) answers.items }
    ensures sessions { IfOk result (λ report.
        answers_by_session report.sessions.items ≡ sessions_from 0 names answers.items) }
    ensures history { IfOk result (λ report. report.history ≡ history) }
{
    let mut sessions = unanswered(alloc, names.into_vec())?;
    for (place, answer) in answers {
        let session = &mut sessions[place as usize];
        session.answers.push(answer)?;
    }
    Ok(Report { sessions, history })
}

fn unanswered(alloc: Global, names: Vec<SessionName>) -> Result<Vec<SessionReport>, AllocError>
    ensures { IfOk result (λ sessions. answers_by_session sessions.items ≡ map (λ name. (name, [])) names.items) }
{
    let mut sessions = Vec::with_capacity(alloc, names.len())?;
    for name in names {
        sessions.push(SessionReport {
            name,
            answers: Vec::new(alloc),
        })?;
    }
    Ok(sessions)
}
