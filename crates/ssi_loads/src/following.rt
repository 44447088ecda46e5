//! Whether a segment begins with what the one before ended with.

ghost use Rattle.std.specs.Prelude.{◌≡◌, ◌++◌, true, false, IfErr, IfOk};
ghost use Rattle.adya_keys.specs.Meaning.Keys.{Bytes};
ghost use Rattle.adya_text.specs.Meaning.Texts.{with_ends};
ghost use Rattle.ssi_store.specs.Meaning.Contents.{contents_after};
ghost use Rattle.ssi_store.specs.Meaning.Courses.{New};
ghost use Rattle.ssi_durable.specs.Meaning.Lines.{whole_lines};
ghost use Rattle.ssi_durable.specs.Clauses.Recovery.{IsReplayed};
ghost use Rattle.ssi_loads.specs.declared.following.FollowFault.TheVariants.{Memory};
ghost use Rattle.ssi_loads.specs.Meaning.Following.{FollowFails};
ghost use Rattle.ssi_loads.specs.Meaning.Loads.{first_lines};

use crate::writing::first_lines;
use ssi_durable::{ReplayFault, replay};
use ssi_store::AnyStore;
use std::alloc::{AllocError, Global};

/// Why it isn't known how a segment begins.
#[derive(Clone, Copy, Debug, PartialEq, Eq)]
pub enum FollowFault {
    /// The lines of the segment before couldn't be carried out.
    Replay(ReplayFault),
    /// Memory ran out after them.
    Memory,
}

impl From<AllocError> for FollowFault {
    ghost from_gives = { λ _ fault. fault ≡ Memory };

    fn from(_: AllocError) -> FollowFault {
        FollowFault::Memory
    }
}

/// Returns whether the text of segment `next` begins with the lines that load what a store holds after the whole lines of
/// `text`, which is that of segment `number`. They are carried out on this store, which is new.
pub fn is_followed<S: AnyStore>(
    alloc: Global,
    store: &mut S,
    number: u32,
    text: &[u8],
    next: u32,
    next_text: &[u8],
) -> Result<bool, FollowFault>
    ensures followed { S.is_at store.old (New 1) → IfOk result (λ followed.
        (r : IsReplayed S.is_at number (whole_lines text.now) store.new)
        × (followed ≡ true → (rest : Bytes) × (next_text.now ≡ with_ends (first_lines next (contents_after r.course)) ++ rest))
        × (followed ≡ false → (rest : Bytes) → next_text.now ≡ with_ends (first_lines next (contents_after r.course)) ++ rest → ⊥)) }
    ensures fault { S.is_at store.old (New 1) → IfErr result (FollowFails number (whole_lines text.now)) }
{
    if let Err(fault) = replay(store, number, text) {
        return Err(FollowFault::Replay(fault));
    }
    let rows = store.contents()?;
    let lines = first_lines(alloc, next, &rows)?;
    Ok(next_text.starts_with(&lines))
}
