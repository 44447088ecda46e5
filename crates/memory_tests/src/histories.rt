//! The auditor on worked histories: each call that takes memory.

use crate::scripts::Spare;
use crate::tally::{Tally, again};
use crate::wanted::{Wanted, is_history, is_met, is_serial, wanting};
use adya_audit::{Edge, Kind, RunFault, audit, run_audit, run_order, run_pipe, write_verdict};
use adya_dsg::{Found, edges, order};
use adya_line::write_event;
use adya_terms::Checked;
use adya_testing::Pieces;
use adya_text::{
    ReadFault, read_event, read_history, read_history_from, read_serial, read_serial_from,
    read_texts_from, write_serial,
};
use adya_values::{CheckFault, History, Listed, Serial};
use devices::{Watched, put, put_number};
use std::alloc::AllocError;
use std::io;

/// How many bytes a source gives at a time.
const MOST: usize = 7;

/// A worked history, with a certificate and what the auditor makes of them. A history that isn't checked has no edges.
#[derive(Drop)]
pub(crate) struct Worked<'a> {
    history: &'a [u8],
    certificate: &'a [u8],
    verdict: &'a [u8],
    order: &'a [u8],
    edges: &'a [u8],
}

impl<'a> Worked<'a> {
    /// Returns the history of these texts.
    pub(crate) fn of(texts: &'a str) -> Result<Worked<'a>, &'static str> {
        let (history, rest) = texts.split_once("%\n").ok_or("no certificate")?;
        let (certificate, rest) = rest.split_once("%\n").ok_or("no verdict")?;
        let (verdict, rest) = rest.split_once("%\n").ok_or("no order")?;
        let (order, edges) = rest.split_once("%\n").ok_or("no edges")?;
        Ok(Worked {
            history: history.as_bytes(),
            certificate: certificate.as_bytes(),
            verdict: verdict.as_bytes(),
            order: order.as_bytes(),
            edges: edges.as_bytes(),
        })
    }
}

/// Makes all calls.
pub(crate) fn run(tally: &mut Tally, spare: Spare, worked: &Worked) -> Result<(), &'static str> {
    let Ok(stream) = stream_of(spare, worked) else {
        return Err("no room for the texts");
    };
    events(tally, worked)?;
    values(tally, worked)?;
    sources(tally, worked)?;
    one_stream(tally, &stream, worked)?;
    runs(tally, &stream, worked)
}

/// Returns both texts, the one after the other, in the room of the first.
fn stream_of(spare: Spare, worked: &Worked) -> Result<Vec<u8>, AllocError> {
    let mut stream = spare.history;
    stream.extend_from_slice(worked.history)?;
    stream.extend_from_slice(worked.certificate)?;
    Ok(stream)
}

/// Makes the calls that take values.
fn values(tally: &mut Tally, worked: &Worked) -> Result<(), &'static str> {
    let (history, serial) = texts(tally, worked)?;
    graph(tally, &history, worked)?;
    verdict(tally, &history, &serial, worked)
}

/// Reads each event from its line.
fn events(tally: &mut Tally, worked: &Worked) -> Result<(), &'static str> {
    for line in str::from_utf8(worked.history).unwrap_or("").lines() {
        let Some(seen) = read_event(line.as_bytes()) else {
            continue;
        };
        let Ok(entries) = again!(tally, Err(AllocError), seen.to_entries(tally.alloc())) else {
            return Err("no entries at the second try");
        };
        let mut out = wanting(line.as_bytes());
        let event = seen.with_entries(Listed::Plain(&entries));
        if write_event(&event, &mut out).is_err() || !is_met(out) {
            return Err("another event");
        }
    }
    Ok(())
}

/// Reads both texts as slices.
fn texts(tally: &mut Tally, worked: &Worked) -> Result<(History, Serial), &'static str> {
    let history = again!(
        tally,
        Err(ReadFault::Memory),
        read_history(tally.alloc(), worked.history)
    );
    let serial = again!(
        tally,
        Err(ReadFault::Memory),
        read_serial(tally.alloc(), worked.certificate)
    );
    are_texts(history, serial, worked)
}

/// Reads both texts as sources.
fn sources(tally: &mut Tally, worked: &Worked) -> Result<(), &'static str> {
    let history = again!(
        tally,
        Err(ReadFault::Memory),
        read_history_from(tally.alloc(), &mut source(worked.history))
    );
    let serial = again!(
        tally,
        Err(ReadFault::Memory),
        read_serial_from(tally.alloc(), &mut source(worked.certificate))
    );
    are_texts(history, serial, worked)?;
    Ok(())
}

/// Reads both texts from one source.
fn one_stream(tally: &mut Tally, stream: &[u8], worked: &Worked) -> Result<(), &'static str> {
    let both = again!(
        tally,
        Err(ReadFault::Memory),
        read_texts_from(tally.alloc(), &mut source(stream))
    );
    let Ok((history, serial)) = both else {
        return Err("texts not read from one stream");
    };
    are_texts(Ok(history), Ok(serial), worked)?;
    Ok(())
}

/// Returns a source that gives a few bytes at a time.
pub(crate) fn source(text: &[u8]) -> Watched<Pieces<'_>> {
    Watched::new(Pieces::new(text, MOST))
}

/// Returns what was read if both are those of the texts.
fn are_texts(
    history: Result<History, ReadFault>,
    serial: Result<Serial, ReadFault>,
    worked: &Worked,
) -> Result<(History, Serial), &'static str> {
    let history = history.map_err(|_| "a history not read")?;
    let serial = serial.map_err(|_| "a certificate not read")?;
    if !is_history(&history, worked.history) || !is_serial(&serial, worked.certificate) {
        return Err("other values read");
    }
    Ok((history, serial))
}

/// Checks the history, and finds its edges and an order or a cycle.
fn graph(tally: &mut Tally, history: &History, worked: &Worked) -> Result<(), &'static str> {
    let checked = again!(
        tally,
        Err(CheckFault::Memory),
        Checked::of(tally.alloc(), history)
    );
    let checked = match checked {
        Ok(checked) => checked,
        Err(_) if worked.edges.is_empty() => return Ok(()),
        Err(_) => return Err("a fault of the history"),
    };
    edges_of(tally, &checked, worked)?;
    order_of(tally, &checked, worked)
}

fn edges_of(tally: &mut Tally, checked: &Checked, worked: &Worked) -> Result<(), &'static str> {
    let Ok(edges) = again!(tally, Err(AllocError), edges(tally.alloc(), checked)) else {
        return Err("no edges at the second try");
    };
    let mut out = wanting(worked.edges);
    if write_edges(&edges, &mut out).is_err() || !is_met(out) {
        return Err("other edges");
    }
    Ok(())
}

fn order_of(tally: &mut Tally, checked: &Checked, worked: &Worked) -> Result<(), &'static str> {
    let Ok(found) = again!(tally, Err(AllocError), order(tally.alloc(), checked)) else {
        return Err("no order at the second try");
    };
    let mut out = wanting(worked.order);
    if write_found(&found, &mut out).is_err() || !is_met(out) {
        return Err("another order");
    }
    Ok(())
}

fn write_found(found: &Found, out: &mut Watched<Wanted>) -> io::Result<()> {
    match found {
        Found::Serial(serial) => write_serial(serial, out).map_err(|_| io::ErrorKind::Other.into()),
        Found::Cycle(edges) => {
            put(b"cycle ", out)?;
            put_number(edges.len() as u64, out)?;
            put(b"\n", out)?;
            write_edges(edges, out)
        }
    }
}

fn write_edges(edges: &[Edge], out: &mut Watched<Wanted>) -> io::Result<()> {
    for edge in edges {
        let kind: &[u8] = match edge.kind {
            Kind::Ww => b"ww ",
            Kind::Wr => b"wr ",
            Kind::Rw => b"rw ",
        };
        put(kind, out)?;
        put(edge.key.bytes(), out)?;
        put(b" ", out)?;
        put_number(u64::from(edge.from.get()), out)?;
        put(b" ", out)?;
        put_number(u64::from(edge.to.get()), out)?;
        put(b"\n", out)?;
    }
    Ok(())
}

/// Judges the two values.
fn verdict(
    tally: &mut Tally,
    history: &History,
    serial: &Serial,
    worked: &Worked,
) -> Result<(), &'static str> {
    let Ok(verdict) = again!(
        tally,
        Err(AllocError),
        audit(tally.alloc(), history, serial)
    ) else {
        return Err("no verdict at the second try");
    };
    let mut out = wanting(worked.verdict);
    if write_verdict(&verdict, &mut out).is_err() || !is_met(out) {
        return Err("another verdict");
    }
    Ok(())
}

/// Judges the two texts in two streams and in one, and finds the order. The second try writes where the first did, so
/// it goes wrong if the first has written something.
fn runs(tally: &mut Tally, stream: &[u8], worked: &Worked) -> Result<(), &'static str> {
    on_two_streams(tally, worked)?;
    on_one_stream(tally, stream, worked)?;
    ordered(tally, worked)
}

fn on_two_streams(tally: &mut Tally, worked: &Worked) -> Result<(), &'static str> {
    let mut out = wanting(worked.verdict);
    let _ = again!(
        tally,
        Err(RunFault::Memory),
        run_audit(
            tally.alloc(),
            &mut source(worked.history),
            &mut source(worked.certificate),
            &mut out,
        )
    );
    if !is_met(out) {
        return Err("another verdict on two streams");
    }
    Ok(())
}

fn on_one_stream(tally: &mut Tally, stream: &[u8], worked: &Worked) -> Result<(), &'static str> {
    let mut out = wanting(worked.verdict);
    let _ = again!(
        tally,
        Err(RunFault::Memory),
        run_pipe(tally.alloc(), &mut source(stream), &mut out)
    );
    if !is_met(out) {
        return Err("another verdict on one stream");
    }
    Ok(())
}

fn ordered(tally: &mut Tally, worked: &Worked) -> Result<(), &'static str> {
    let mut out = wanting(worked.order);
    let _ = again!(
        tally,
        Err(RunFault::Memory),
        run_order(tally.alloc(), &mut source(worked.history), &mut out)
    );
    if !is_met(out) {
        return Err("another order of a stream");
    }
    Ok(())
}
