//! The rule of the table, and what each kind of step on it tells.
ghost use Rattle.book_turn.specs.Rule.{Kept};
ghost use Rattle.book_turn.specs.Views.{newest, numbering, numbered, copied, joined, spent};
ghost use Rattle.book_turn.specs.Steps.{Took, Counts, Gives, Looks, Recalls};

use crate::logged::Logged;
use crate::view::View;
use atomic_table::{Join, Play, Split, TableRule};

/// Word 0 is 1 while a seat has the turn, word 1 is the number of items, and the slot has the book.
pub struct OneHistory;

impl<B: Logged> TableRule<Option<B>, View<B::Item, B::Origin>, ()> for OneHistory {
    ghost holds = { λ _. Kept B.log B.origin B.caller_of };

    ghost first = { λ _. newest };
}

pub struct Take;

impl<B: Logged> Play<Option<B>, View<B::Item, B::Origin>> for Take {
    ghost then = { λ _ m found n. Took B.log B.origin B.caller_of m found n };
}

pub struct Count;

impl<B: Logged> Play<Option<B>, View<B::Item, B::Origin>> for Count {
    ghost then = { λ _ m _ n. Counts B.log B.caller_of m n };
}

pub struct Give;

impl<B: Logged> Play<Option<B>, View<B::Item, B::Origin>> for Give {
    ghost then = { λ _ m _ n. Gives B.origin m n };
}

pub struct Look;

impl<B: Logged> Play<Option<B>, View<B::Item, B::Origin>> for Look {
    ghost then = { λ _ m found n. Looks m found n };
}

/// After a join: the longer of both histories is seen.
pub struct Recall;

impl<B: Logged> Play<Option<B>, View<B::Item, B::Origin>> for Recall {
    ghost then = { λ _ m _ n. Recalls m n };
}

/// A caller more.
pub struct Number;

impl<I, O> Split<View<I, O>> for Number {
    ghost left = { numbering };

    ghost right = { numbered };
}

/// A copy of what was seen.
pub struct Copied;

impl<I, O> Split<View<I, O>> for Copied {
    ghost left = { λ v. v };

    ghost right = { copied };
}

pub struct Both;

impl<I, O> Join<View<I, O>> for Both {
    ghost both = { joined };

    ghost spent = { spent };
}
