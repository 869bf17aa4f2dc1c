ghost use Rattle.std.specs.Prelude.{◌≡◌};
ghost use Rattle.published_copies.specs.Stages.{last_of};

use crate::history::Mark;
use std::marker::Model;

/// A token that stands for the list that was published when the publisher gave it.
#[derive(Drop)]
pub struct Front<E> {
    mark: Mark<E>,
}

impl<E> Model for Front<E> {
    ghost use Rattle.published_copies.specs.Views.{Token};

    ghost Value = { Token E };

    ghost use Rattle.published_copies.specs.Stages.{last_of};

    ghost view = { λ f. record { book = f.mark.seen.book; stage = last_of f.mark.seen.log } };
}

impl<E> Front<E> {
    pub(crate) fn at(mark: Mark<E>) -> Front<E>
        ensures { (result.book ≡ mark.seen.book) × (result.stage ≡ last_of mark.seen.log) }
    {
        Front { mark }
    }

    pub(crate) fn into_mark(self) -> Mark<E>
        ensures { (result.seen.book ≡ self.book) × (last_of result.seen.log ≡ self.stage) }
    {
        let Front { mark } = self;
        mark
    }
}
