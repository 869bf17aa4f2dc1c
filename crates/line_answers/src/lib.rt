//! The answers to the lines of a script, what they were session by session, and how both are written.
#![tactic(auto)]

mod answer;
mod points;
mod refusal_text;
mod report;
mod report_display;
mod text;

pub use answer::{Answer, Denial, LineRefusal, LoginRefusal};
pub use points::Points;
pub use report::{LineAnswer, Report, SessionReport, report_of};
pub use report_display::report_text;
