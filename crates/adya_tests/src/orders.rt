//! The lines that the auditor writes when it is asked for an order of a history's transactions.

ghost use Rattle.std.specs.Prelude.{◌<◌};

use adya_audit::run_order;
use adya_testing::Pieces;
use devices::Watched;
use std::alloc::Global;

/// Returns the lines for the text, in a stream that gives at most `most` bytes a call.
fn in_pieces(alloc: Global, history: &[u8], most: usize) -> Vec<u8>
    requires { 0 < most }
{
    let mut history = Watched::new(Pieces::new(history, most));
    let mut out = Watched::new(Vec::new(alloc));
    let _ = run_order(alloc, &mut history, &mut out);
    out.into_inner()
}

/// Returns the lines for the text; if they aren't the same in pieces of any size, nothing.
pub(crate) fn of_text(alloc: Global, history: &[u8]) -> Vec<u8> {
    let whole = in_pieces(alloc, history, usize::MAX);
    let by_one = in_pieces(alloc, history, 1);
    let by_three = in_pieces(alloc, history, 3);
    if whole == by_one && whole == by_three {
        whole
    } else {
        Vec::new(alloc)
    }
}
