//! How answers are written.
ghost use Rattle.std.specs.Prelude.{◌≡◌, Some};
ghost use Rattle.line_answers.specs.Texts.{answer_text, column_text, denial_text, login_text, reason_text, why_text};

use crate::answer::{Answer, Denial, LineRefusal, LoginRefusal};
use crate::refusal_text::{Object, Reason};
use acl_names::{Ident, Quoted};
use acl_stmt::Why;
use std::fmt;

impl fmt::Display for Answer {
    ghost output = { λ answer. Some (answer_text answer) };

    fn fmt<W: fmt::Write>(&self, f: &mut fmt::Formatter<W>) -> fmt::Result {
        match self {
            Answer::Connected(account) => write!(f, "connected {account}"),
            Answer::Bye => f.write_str("bye"),
            Answer::Schema(schema) => {
                let schema = Quoted(schema.as_str());
                write!(f, "schema {schema}")
            }
            Answer::Allowed => f.write_str("allowed"),
            Answer::Denied(denial) => write!(f, "{denial}"),
            Answer::Done { position } => write!(f, "done {position}"),
            Answer::Refused(refusal) => write!(f, "refused {refusal}"),
        }
    }
}

impl fmt::Display for Denial {
    ghost output = { λ denial. Some (denial_text denial) };

    fn fmt<W: fmt::Write>(&self, f: &mut fmt::Formatter<W>) -> fmt::Result {
        let privilege = self.missing.privilege;
        let column = Column(&self.column);
        let object = Object(&self.target);
        let why = why(self.missing.why);
        write!(f, "denied {privilege}{column} ON {object}{why}")
    }
}

/// The column, where there is one.
#[derive(Clone, Copy)]
struct Column<'a>(&'a Option<Ident>);

impl fmt::Display for Column<'_> {
    ghost output = { λ column. Some (column_text column.0.now) };

    fn fmt<W: fmt::Write>(&self, f: &mut fmt::Formatter<W>) -> fmt::Result {
        match self.0 {
            None => Ok(()),
            Some(name) => {
                let name = Quoted(name.as_str());
                write!(f, " ({name})")
            }
        }
    }
}

fn why(why: Why) -> &'static str
    ensures { result.now ≡ why_text why }
{
    match why {
        Why::NoGrant => "",
        Why::Restricted => " restricted",
    }
}

impl fmt::Display for LineRefusal {
    ghost output = { λ refusal. Some (reason_text refusal) };

    fn fmt<W: fmt::Write>(&self, f: &mut fmt::Formatter<W>) -> fmt::Result {
        match self {
            LineRefusal::NotConnected => f.write_str("not connected"),
            LineRefusal::Denied(denial) => write!(f, "{denial}"),
            LineRefusal::Statement(refusal) => {
                let reason = Reason(refusal);
                write!(f, "{reason}")
            }
            LineRefusal::Login(refusal) => write!(f, "{refusal}"),
            LineRefusal::NoMemory => f.write_str("no memory"),
        }
    }
}

impl fmt::Display for LoginRefusal {
    ghost output = { λ refusal. Some (login_text refusal) };

    fn fmt<W: fmt::Write>(&self, f: &mut fmt::Formatter<W>) -> fmt::Result {
        match self {
            LoginRefusal::NoAccount => f.write_str("no account"),
        }
    }
}
