//! Why there is no answer.

use append_text::{Place, Problem, ReadFault};
use std::alloc::AllocError;

/// Why there is no answer.
#[derive(Clone, Copy, Debug, PartialEq, Eq)]
pub enum Fault {
    /// The text is that of no history.
    Text {
        /// Where it is at fault.
        place: Place,
        /// What is wrong there.
        problem: Problem,
    },
    /// The history has 2,147,483,648 transactions or more.
    Many,
    /// The source failed: a read failed, or the bound on read calls was met.
    Read,
    /// The order couldn't be written.
    Order,
    /// The drawing couldn't be written.
    Drawing,
    /// The answer couldn't be written.
    Write,
    /// Memory ran out.
    Memory,
}

impl From<ReadFault> for Fault {
    ghost use Rattle.lists_cli.specs.Clauses.Faults.{fault_of};
    ghost use Rattle.std.specs.Prelude.{◌≡◌};

    ghost from_gives = { λ read f. f ≡ fault_of read };

    fn from(fault: ReadFault) -> Fault {
        match fault {
            ReadFault::Text { place, problem } => Fault::Text { place, problem },
            ReadFault::Device => Fault::Read,
            ReadFault::Memory => Fault::Memory,
        }
    }
}

impl From<AllocError> for Fault {
    ghost use Rattle.std.specs.Prelude.{◌≡◌};
    ghost use Rattle.lists_cli.specs.declared.fault.Fault.TheVariants as fault;

    ghost from_gives = { λ _ f. f ≡ fault.Memory };

    fn from(_: AllocError) -> Fault {
        Fault::Memory
    }
}
