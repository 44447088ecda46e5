//! The order that explains a history, as a text.

ghost use Rattle.std.specs.Prelude.{[]};
ghost use Rattle.devices.specs.Clauses.Writing.{Wrote};
ghost use Rattle.lists_cli.specs.Meaning.Answers.{order_line, order_text};

use append_text::Label;
use devices::{Watched, put, put_number};
use std::io;
use std::io::Write;

/// Writes the indexes of the transactions at these places, one a line.
pub(crate) fn put_order<W: Write>(
    labels: &[Label],
    order: &[u32],
    out: &mut Watched<W>,
) -> io::Result<()>
    ensures { Wrote W.contents out.old out.new (order_text labels.now order.now) result }
{
    for place in order {
        put_line_of(labels, *place, out)?;
    }
    flush(out)
}

/// Writes what the device holds back.
pub(crate) fn flush<W: Write>(out: &mut Watched<W>) -> io::Result<()>
    ensures { Wrote W.contents out.old out.new [] result }
{
    out.flush()
}

/// Writes the index of the transaction at this place, and a line feed; nothing if there is none.
fn put_line_of<W: Write>(labels: &[Label], place: u32, out: &mut Watched<W>) -> io::Result<()>
    ensures { Wrote W.contents out.old out.new (order_line labels.now place) result }
{
    match labels.get(place as usize) {
        Some(label) => {
            put_number(label.index, out)?;
            put(b"\n", out)
        }
        None => Ok(()),
    }
}
