//! Which frame asked what, as answers want to know it.
ghost use Rattle.std.specs.Prelude.{◌≡◌, ◌+◌, ◌++◌, ◌∷◌, [], List, length, IfOk, OnErr};
ghost use Rattle.at_capture.specs.Asked.{IsAnswered, Recalls};
ghost use Rattle.at_capture.specs.Frames.{Content};
ghost use Rattle.at_capture.specs.Roles.{IsRole, PlaysRole};
ghost use Rattle.at_capture.specs.Tallies.{counted};

use crate::question::{Question, Role};
use std::alloc::{AllocError, Allocator};
use std::collections::BTreeMap;

/// Each question that was asked, with the number of the last frame that asks it. In a tree, a file that was made for it
/// can't make a search long.
pub(crate) type Asked<A> = BTreeMap<Question, u64, A>;

/// Nothing was asked yet. This takes no memory.
pub(crate) fn nothing_asked<A: Allocator>(alloc: A) -> Asked<A>
    ensures { Recalls [] result }
{
    BTreeMap::new(alloc)
}

/// Takes the next frame, by its role and its number, and returns which frame before it asks what it answers. The error
/// is out of memory, which changes nothing.
pub(crate) fn take_role<A: Allocator + Copy>(
    asked: &mut Asked<A>,
    role: Role,
    number: u64,
) -> Result<Option<u64>, AllocError>
    ensures taken { (before : List Content) (f : Content) → Recalls before asked.old → IsRole (PlaysRole f) role
        → number ≡ counted (length before + 1)
        → IfOk result (λ answered. IsAnswered before f answered × Recalls (before ++ f ∷ []) asked.new) }
    ensures err { OnErr result (asked.new.entries ≡ asked.old.entries) }
{
    match role {
        Role::Asks(question) => {
            asked.insert(question, number)?;
            Ok(None)
        }
        Role::Answers(question) => Ok(asked.get(&question).copied()),
        Role::Neither => Ok(None),
    }
}
