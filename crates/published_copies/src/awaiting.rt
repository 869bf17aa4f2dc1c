//! Reads of lengths.
ghost use Rattle.std.specs.Prelude.{◌≡◌, ◌<◌, ◌∷◌, true, length, All, IfOk, MatchResult};
ghost use mathlib.Core.List.{IsPrefix};
ghost use Rattle.published_copies.specs.declared.stage.Stage.{Stage};
ghost use Rattle.published_copies.specs.Views.{AllBefore, HasHeardMore, HasJustRead, read_of};
ghost use Rattle.published_copies.specs.Awaiting.{IsAwaited};

use crate::copies::PublishedCopy;
use crate::front::Front;
use crate::view::{NoEntry, View};

/// How long the list was that was read last.
#[derive(Clone, Copy, Debug, PartialEq, Eq)]
pub enum Awaited {
    Reached { now: u32 },
    NotYet { now: u32 },
}

// One read, of the length alone.
fn read_length<S: PublishedCopy<E>, E: Drop>(view: &mut View<S, E>) -> Result<u32, NoEntry>
    ensures book { view.new.book ≡ view.old.book }
    ensures read { MatchResult result
        (λ n. (s : Stage E) × AllBefore view.old.heard s × (view.new.heard ≡ read_of s ∷ view.old.heard) × (n ≡ length s.entries))
        (λ _. view.new ≡ view.old) }
{
    view.read(
        |read: &S::Value| -> u32
            ensures { result ≡ length (S.stage read.now).entries }
        { S::length_of(read) },
    )
}

/// Reads until the list has `n` entries, or as often as there are turns.
pub fn await_length<S: PublishedCopy<E>, E: Drop>(
    view: &mut View<S, E>,
    n: u32,
    turns: u32,
) -> Result<Awaited, NoEntry>
    requires { 0 < turns }
    ensures more { HasHeardMore view.old view.new }
    ensures awaited { IfOk result (λ awaited. IsAwaited n turns view.old view.new awaited) }
{
    let mut now = read_length(view)?;
    let mut turn = 1;
    while now < n && turn < turns {
        now = read_length(view)?;
        turn += 1;
    }
    if now < n {
        Ok(Awaited::NotYet { now })
    } else {
        Ok(Awaited::Reached { now })
    }
}

/// The last read of a view: behind a front that was told once the end was published, the list is the whole,
/// and each list that was heard before is a beginning of it.
pub fn read_last<S: PublishedCopy<E>, E: Drop>(
    view: &mut View<S, E>,
    front: Front<E>,
) -> Result<u32, NoEntry>
    requires own { front.book ≡ view.old.book }
    requires ended { front.stage.ended ≡ true }
    ensures whole { IfOk result (λ n. n ≡ length front.stage.entries) }
    ensures before { IfOk result (λ _. All (λ notice. IsPrefix notice.stage.entries front.stage.entries) view.new.heard) }
{
    view.learn(front);
    let length = read_length(view)?;
    Ok(length)
}
