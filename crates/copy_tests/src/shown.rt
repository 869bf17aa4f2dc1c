//! A scale as one of two published copies.
ghost use Rattle.std.specs.Prelude.{◌≡◌, length};
ghost use Rattle.copy_tests.specs.Scales.{content_of, stage_of};

use crate::scale::{Scale, Weight};
use left_right::Absorb;
use published_copies::{Content, Mark, Operation, PublishedCopy};
use std::alloc::{AllocError, Global};

/// One of the two copies.
#[derive(Drop)]
pub struct Shown {
    scale: Scale,
    mark: Mark<Weight>,
}

impl Absorb<Operation<Weight>> for Shown {
    ghost use Rattle.published_copies.specs.Contents.{applied};
    ghost use Rattle.copy_tests.specs.Scales.{content_of};

    type State = Content<Weight>;

    ghost state = { λ x. content_of x.scale x.mark };

    ghost applied = { applied };

    fn absorb_first(
        &mut self,
        operation: &Operation<Weight>,
        _other: &Shown,
    ) -> Result<(), AllocError> {
        match operation {
            Operation::Added(entry) => self.scale.accept(*entry),
            Operation::Ended => {
                self.scale.ended = true;
                Ok(())
            }
            Operation::Marked(mark) => {
                self.mark = mark.again();
                Ok(())
            }
        }
    }
}

impl PublishedCopy<Weight> for Shown {
    ghost use Rattle.std.specs.Prelude.{refl};
    ghost use Rattle.copy_tests.specs.Scales.{stage_of};

    type Value = Scale;

    ghost shown = { λ x. x.scale };

    ghost stage = { stage_of };

    ghost may_follow = { λ _ _. Unit {0} };

    fn over(_alloc: Global, read: Scale, mark: Mark<Weight>) -> Shown
        ensures { content_of result.scale result.mark ≡ content_of read mark }
    {
        Shown { scale: read, mark }
    }

    fn value(&self) -> &Scale
        ensures { result.now ≡ self.now.scale }
    {
        &self.scale
    }

    fn mark(&self) -> &Mark<Weight>
        ensures { result.now ≡ (content_of self.now.scale self.now.mark).mark }
    {
        &self.mark
    }

    fn length_of(read: &Scale) -> u32
        ensures { result ≡ length (stage_of read.now).entries }
    {
        read.entries.len() as u32
    }

    ghost stands = { λ _. refl };

    ghost applies = { λ _ _. refl };
}
