//! The edges of a history, a line each.

use adya_audit::{Edge, Kind};
use adya_dsg::edges;
use adya_terms::Checked;
use adya_text::read_history;
use devices::{Watched, put, put_number};
use std::alloc::Global;
use std::io;
use std::io::Write;

fn name(kind: Kind) -> &'static [u8] {
    match kind {
        Kind::Ww => b"ww ",
        Kind::Wr => b"wr ",
        Kind::Rw => b"rw ",
    }
}

/// Writes the line of an edge: its kind, its key, and the transactions that it goes from and to.
fn put_edge<W: Write>(edge: &Edge, out: &mut Watched<W>) -> io::Result<()> {
    put(name(edge.kind), out)?;
    put(edge.key.bytes(), out)?;
    put(b" ", out)?;
    put_number(u64::from(edge.from.get()), out)?;
    put(b" ", out)?;
    put_number(u64::from(edge.to.get()), out)?;
    put(b"\n", out)
}

fn put_edges<W: Write>(edges: &[Edge], out: &mut Watched<W>) -> io::Result<()> {
    for edge in edges {
        put_edge(edge, out)?;
    }
    Ok(())
}

fn of_history(alloc: Global, text: &[u8]) -> Option<Vec<Edge>> {
    let history = read_history(alloc, text).ok()?;
    let checked = Checked::of(alloc, &history).ok()?;
    edges(alloc, &checked).ok()
}

/// Returns the lines of the edges of the history of this text; if there is none, or it isn't checked, none.
pub(crate) fn of_text(alloc: Global, text: &[u8]) -> Vec<u8> {
    let mut out = Watched::new(Vec::new(alloc));
    if let Some(edges) = of_history(alloc, text) {
        let _ = put_edges(&edges, &mut out);
    }
    out.into_inner()
}
