ghost use Rattle.std.specs.Prelude.{◌≡◌, ℕ, List, ◌++◌, OnOk, string_bytes};
ghost use Rattle.std.specs.List.{flat_map};
ghost use Rattle.canonical_texts.specs.Lists.{list_text, text_if};

use std::alloc::{AllocError, Global};

/// A member of a list in a statement.
pub(crate) trait Member {
    /// What is written for it.
    ghost text_of_member: { Self → List ℕ };

    /// Appends it. After an error `text` may hold a part of it.
    fn write_to(&self, text: &mut String, alloc: Global) -> Result<(), AllocError>
        ensures { OnOk result (string_bytes text.new ≡ string_bytes text.old ++ text_of_member self.now) };
}

/// Appends the members with `before` in front of the first and `between` in front of each other one.
pub(crate) fn write_list<M: Member>(
    text: &mut String,
    alloc: Global,
    before: &str,
    between: &str,
    members: &[M],
) -> Result<(), AllocError>
    ensures { OnOk result (string_bytes text.new ≡ string_bytes text.old
        ++ list_text before.now between.now M.text_of_member members.now) }
{
    match members {
        [] => Ok(()),
        [first, others @ ..] => {
            text.push_str(before)?;
            first.write_to(text, alloc)?;
            write_others(text, alloc, between, others)
        }
    }
}

fn write_others<M: Member>(
    text: &mut String,
    alloc: Global,
    between: &str,
    others: &[M],
) -> Result<(), AllocError>
    ensures { OnOk result (string_bytes text.new ≡ string_bytes text.old
        ++ flat_map (λ other. between.now ++ M.text_of_member other) others.now) }
{
    for other in others {
        text.push_str(between)?;
        other.write_to(text, alloc)?;
    }
    Ok(())
}

/// Appends `words` where the test holds.
pub(crate) fn write_if(text: &mut String, test: bool, words: &str) -> Result<(), AllocError>
    ensures { OnOk result (string_bytes text.new ≡ string_bytes text.old ++ text_if test words.now) }
{
    if test { text.push_str(words) } else { Ok(()) }
}
