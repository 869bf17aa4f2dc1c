//! What a view has heard, the newest first. It exists in the proofs alone and takes no bytes.
ghost use Rattle.std.specs.Prelude.{◌≡◌, ◌∷◌, [], true, false};
ghost use Rattle.published_copies.specs.Stages.{last_of};

use crate::history::Mark;
use crate::stage::Notice;
use logbook::{Opening, Rule, Seen, Start};
use std::snapshot::Snapshot;

/// It holds of every list, so that its book is a variable of the proofs.
pub struct Free;

impl<E> Rule<Notice<E>, u64> for Free {
    ghost use Rattle.std.specs.Prelude.{[]};
    ghost use base.Fml.{ftrue};

    ghost holds = { λ cells log. Unit {0} };

    ghost first = { [] };

    ghost hinted = { λ n log. Unit {0} };

    ghost shows = { λ log. [] };

    ghost keeps = { λ names log. ftrue };

    ghost moves = { λ ask before after answer. Unit {0} };
}

/// What was heard before, and the mark that is heard now.
#[derive(Drop)]
pub struct Next<E> {
    before: Snapshot<Heard<E>>,
    mark: Snapshot<Mark<E>>,
}

pub struct Read;

impl<E> Opening<Next<E>, Notice<E>> for Read {
    ghost use Rattle.std.specs.Prelude.{◌∷◌, false};
    ghost use Rattle.published_copies.specs.Stages.{last_of};

    ghost log = { λ _ next. record { stage = last_of next.mark.value.seen.log; told = false } ∷ next.before.value.kept.log };
}

pub struct Told;

impl<E> Opening<Next<E>, Notice<E>> for Told {
    ghost use Rattle.std.specs.Prelude.{◌∷◌, true};
    ghost use Rattle.published_copies.specs.Stages.{last_of};

    ghost log = { λ _ next. record { stage = last_of next.mark.value.seen.log; told = true } ∷ next.before.value.kept.log };
}

/// What was heard, as a log of its own.
#[derive(Drop)]
pub struct Heard<E> {
    kept: Seen<Notice<E>, u64, Free>,
}

impl<E> Heard<E> {
    pub(crate) fn nothing() -> Heard<E>
        ensures { result.kept.log ≡ [] }
    {
        let (kept, _first, _second) = Seen::open(Start::alone(), 0, 0);
        Heard { kept }
    }

    /// A read of the publication at this mark.
    pub(crate) fn read(&self, mark: &Mark<E>) -> Heard<E>
        ensures { result.kept.log ≡ record { stage = last_of mark.now.seen.log; told = false } ∷ self.now.kept.log }
    {
        let next = Next {
            before: Snapshot::of(self),
            mark: Snapshot::of(mark),
        };
        let (kept, _row) = Seen::open_row::<Next<E>, Read>(&next, Start::alone(), 0);
        Heard { kept }
    }

    /// A front that stands for the publication at this mark.
    pub(crate) fn told(&self, mark: &Mark<E>) -> Heard<E>
        ensures { result.kept.log ≡ record { stage = last_of mark.now.seen.log; told = true } ∷ self.now.kept.log }
    {
        let next = Next {
            before: Snapshot::of(self),
            mark: Snapshot::of(mark),
        };
        let (kept, _row) = Seen::open_row::<Next<E>, Told>(&next, Start::alone(), 0);
        Heard { kept }
    }
}
