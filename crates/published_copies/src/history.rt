//! The history of what is published. It exists in the proofs alone: what is kept of it is a word, its length.
ghost use Rattle.std.specs.Prelude.{◌≡◌, ℕ, ◌+◌, ◌==◌, ◌<◌, ◌≤◌, ◌++◌, ◌∷◌, [], length, IfSome, None};
ghost use mathlib.Core.List.{IsPrefix};
ghost use Rattle.published_copies.specs.Stages.{GoesOn, IsChain, last_of};
ghost use Rattle.published_copies.specs.History.{head_of};

use crate::stage::Stage;
use logbook::{Gain, Offer, Plain, Play, Rule, Seen, Start, Word};

/// The word is the number of publications, and each goes on from those before it.
pub struct Law;

impl<E> Rule<Stage<E>, u64> for Law {
    ghost use Rattle.std.specs.Prelude.{[]};
    ghost use base.Fml.{ftrue};
    ghost use Rattle.published_copies.specs.History.{IsKept};

    ghost holds = { λ cells log. IsKept cells log };

    ghost first = { [] };

    ghost hinted = { λ n log. Unit {0} };

    ghost shows = { λ log. [] };

    ghost keeps = { λ names log. ftrue };

    ghost moves = { λ ask before after answer. Unit {0} };
}

/// Nothing is traded in a step.
pub struct Nothing;

impl<E> Gain<Stage<E>, u64> for Nothing {
    ghost use base.Fml.{ftrue};

    ghost after = { λ names about answer. ftrue };
}

/// A step that adds a publication.
pub struct Add;

impl<E> Play<Stage<E>, u64> for Add {
    ghost use Rattle.published_copies.specs.History.{Adds};

    ghost then = { Adds };
}

/// A beginning of the history that was reached, and how many publications it has.
#[derive(Drop)]
pub struct Mark<E> {
    pub(crate) turn: u64,
    pub(crate) seen: Seen<Stage<E>, u64, Law>,
    ghost counted: { turn ≡ length seen.log },
}

impl<E> Mark<E> {
    /// The history before the first publication, and the word that counts them.
    pub(crate) fn first() -> (Word<Stage<E>, u64, Law>, Mark<E>)
        ensures own { result.0 ≡ head_of result.1.seen.book }
        ensures none { result.1.seen.log ≡ [] }
    {
        let (seen, mut pen, _spare) = Seen::open(Start::alone(), 0, 0);
        let head = Word::tracked(0, &mut pen);
        (head, Mark { turn: 0, seen })
    }

    /// A copy.
    pub fn again(&self) -> Mark<E>
        ensures { result ≡ self.now }
    {
        Mark {
            turn: self.turn,
            seen: self.seen.again(),
        }
    }

    /// The mark that has more of the history.
    pub(crate) fn later(&self, other: &Mark<E>) -> Mark<E>
        requires { other.now.seen.book ≡ self.now.seen.book }
        ensures own { result.seen.book ≡ self.now.seen.book }
        ensures this { GoesOn (last_of self.now.seen.log) (last_of result.seen.log) }
        ensures that { GoesOn (last_of other.now.seen.log) (last_of result.seen.log) }
    {
        let mut both = self.seen.again();
        both.learn(&other.seen);
        if self.turn < other.turn {
            other.again()
        } else {
            self.again()
        }
    }

    /// Adds what `about` asks for, and answers the mark behind it.
    /// None where the history has more than this mark, or as many publications as a word counts.
    pub(crate) fn add<X, M: Plain<X, Stage<E>, u64>>(
        &self,
        head: &Word<Stage<E>, u64, Law>,
        about: &X,
    ) -> Option<Mark<E>>
        requires own { head.now ≡ head_of self.now.seen.book }
        requires on { GoesOn (last_of self.now.seen.log) (M.ask about.now) }
        ensures own { IfSome result (λ m. m.seen.book ≡ self.now.seen.book) }
        ensures added { IfSome result (λ m. m.seen.log ≡ self.now.seen.log ++ M.ask about.now ∷ []) }
    {
        if self.turn == u64::MAX {
            return None;
        }
        let mut seen = self.seen.again();
        let mut offer: Offer<Stage<E>, u64, Law, Nothing> = seen.plain::<Nothing, X, M>(about);
        let mut pen = seen.no_pen();
        let turn = self.turn;
        let found = head.compare_exchange::<Add, Nothing>(
            turn,
            turn + 1,
            &mut seen,
            &mut offer,
            &mut pen,
        );
        if found != turn {
            return None;
        }
        Some(Mark {
            turn: turn + 1,
            seen,
        })
    }
}
