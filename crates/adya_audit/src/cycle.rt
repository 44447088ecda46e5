//! Writing cycles.

ghost use Rattle.std.specs.Prelude.{map, flat_map};
ghost use Rattle.devices.specs.Clauses.Writing.{Wrote};
ghost use Rattle.adya_dsg.specs.Mirror.{edge_of};
ghost use Rattle.adya_audit.specs.Clauses.Output.{edge_line, cycle_text};

use crate::writing::put_edge;
use crate::{Edge, WriteFault};
use devices::{Watched, put, put_number};
use std::io;
use std::io::Write;

/// Writes a line with the number of edges, and then a line for each edge. `WriteFault` only if the writer fails or had
/// failed before. How much of the cycle went out is unknown then.
pub(crate) fn write_cycle<W: Write>(edges: &[Edge], out: &mut Watched<W>) -> Result<(), WriteFault>
    ensures { Wrote W.contents out.old out.new (cycle_text (map edge_of edges.now)) result }
{
    put_cycle(edges, out).map_err(|_| WriteFault)
}

fn put_cycle<W: Write>(edges: &[Edge], out: &mut Watched<W>) -> io::Result<()>
    ensures { Wrote W.contents out.old out.new (cycle_text (map edge_of edges.now)) result }
{
    put(b"cycle ", out)?;
    put_number(edges.len() as u64, out)?;
    put(b"\n", out)?;
    put_edges(edges, out)
}

fn put_edges<W: Write>(edges: &[Edge], out: &mut Watched<W>) -> io::Result<()>
    ensures { Wrote W.contents out.old out.new (flat_map edge_line (map edge_of edges.now)) result }
{
    for edge in edges {
        put_edge_line(edge, out)?;
    }
    Ok(())
}

fn put_edge_line<W: Write>(edge: &Edge, out: &mut Watched<W>) -> io::Result<()>
    ensures { Wrote W.contents out.old out.new (edge_line (edge_of edge.now)) result }
{
    put_edge(edge, out)?;
    put(b"\n", out)
}
