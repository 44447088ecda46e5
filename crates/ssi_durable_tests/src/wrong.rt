//! What can be wrong.

ghost use Rattle.std.specs.Prelude.{◌≡◌};
ghost use Rattle.ssi_durable_tests.specs.declared.wrong.Wrong.TheVariants.{Memory};

use std::alloc::AllocError;

/// What isn't as defined.
#[derive(Clone, Copy, Debug, PartialEq, Eq)]
pub enum Wrong {
    /// Memory ran out.
    Memory,
    /// A value is another one than was worked out by hand.
    Value,
    /// Something failed for which there is no reason.
    Failed,
    /// A log wasn't recovered, although all that is left is whole.
    NotRecovered,
    /// A recovery has found other lines than there are.
    OtherLines,
    /// A recovery that failed has changed the file.
    Changed,
    /// Replies were given out before the lines were on the disk.
    TooEarly,
    /// A line was carried out for which there was no room.
    NoRoom,
    /// Something was carried out or given out after a fault.
    AfterFault,
    /// What a crash has left is no front of the lines that count.
    NoFront,
    /// A crash has taken a line on which something rests that was given out.
    Lost,
    /// A line counts although it shouldn't, or the other way round.
    Counted,
    /// A reply isn't the one that a store gives after the lines that are left.
    Reply,
}

impl From<AllocError> for Wrong {
    ghost from_gives = { λ _ e. e ≡ Memory };

    fn from(_: AllocError) -> Wrong {
        Wrong::Memory
    }
}
