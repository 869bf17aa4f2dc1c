//! How many answers there are of a sort.
ghost use Rattle.std.specs.Prelude.{◌≡◌, IfSome, count_by};
ghost use Rattle.run_summaries.specs.Counts.{is_of_sort, told_count};

use line_answers::{Answer, LineAnswer, Report};

/// What is counted.
#[derive(Clone, Copy, PartialEq, Eq)]
pub(crate) enum Sort {
    Any,
    Done,
    Refused,
    Allowed,
    Denied,
}

/// How many answers of this sort a report has; None past the numbers of 64 bits.
pub(crate) fn count(report: &Report, sort: Sort) -> Option<u64>
    ensures { IfSome result (λ count. count ≡ told_count sort report.now) }
{
    let mut total: u64 = 0;
    for session in &report.sessions {
        let here = count_in(&session.answers, sort);
        total = total.checked_add(here as u64)?;
    }
    Some(total)
}

fn count_in(answers: &[LineAnswer], sort: Sort) -> usize
    ensures { result ≡ count_by (λ told. is_of_sort sort told.answer) answers.now }
{
    answers
        .iter()
        .filter(|told| is_of_sort(&told.answer, sort))
        .count()
}

fn is_of_sort(answer: &Answer, sort: Sort) -> bool
    ensures { result ≡ is_of_sort sort answer.now }
{
    match sort {
        Sort::Any => true,
        Sort::Done => matches!(answer, Answer::Done { .. }),
        Sort::Refused => matches!(answer, Answer::Refused(_)),
        Sort::Allowed => matches!(answer, Answer::Allowed),
        Sort::Denied => matches!(answer, Answer::Denied(_)),
    }
}
