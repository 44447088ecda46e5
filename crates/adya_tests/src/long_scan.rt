//! A history with a long scan line.

use crate::audits;
use crate::saying::say;
use adya_text::{read_history, read_serial};
use devices::{Watched, put, put_number};
use std::alloc::Global;
use std::io;
use std::io::Write;

/// How many keys transaction 1 writes, all of which transaction 2 scans.
const SIZE: u64 = 5000;

/// The number in the first key, so that all keys have the same length.
const FIRST: u64 = 10_000;

/// The certificate that runs transaction 1 before 2.
const CERTIFICATE: &[u8] = b"serial 1\n1\n2\nend\n";

/// Writes the number of each key, between these bytes.
fn put_all<W: Write>(before: &[u8], after: &[u8], out: &mut Watched<W>) -> io::Result<()> {
    for i in 0..SIZE {
        put(before, out)?;
        put_number(FIRST + i, out)?;
        put(after, out)?;
    }
    Ok(())
}

fn put_events<W: Write>(out: &mut Watched<W>) -> io::Result<()> {
    put_all(b"w1(k", b".1:1,1)\n", out)?;
    put(b"c1\ns2(k10000,k15000", out)?;
    put_all(b";k", b".1:1,1", out)?;
    put(b")\nc2\n", out)
}

fn put_history<W: Write>(out: &mut Watched<W>) -> io::Result<()> {
    put(b"adya 1\n", out)?;
    put_events(out)?;
    put_all(b"[k", b":1]\n", out)?;
    put_all(b"{k", b",1}\n", out)?;
    put(b"end\n", out)
}

/// Returns the verdict on the values of the texts.
fn of_values(alloc: Global, history: &[u8]) -> Option<Vec<u8>> {
    let history = read_history(alloc, history).ok()?;
    let certificate = read_serial(alloc, CERTIFICATE).ok()?;
    audits::of_values(alloc, &history, &certificate)
}

/// Writes the verdicts on the history: of the values, of two streams and of one stream.
pub(crate) fn say_verdicts(rt: &HostRuntime, name: &str) -> io::Result<()> {
    let mut out = Watched::new(Vec::new(rt.alloc()));
    put_history(&mut out)?;
    let history = out.into_inner();
    let of_values = of_values(rt.alloc(), &history).unwrap_or(Vec::new(rt.alloc()));
    let of_two = audits::of_two_streams(rt.alloc(), &history, CERTIFICATE);
    let of_one = audits::of_one_stream(rt.alloc(), &history, CERTIFICATE);
    say(rt, &[name, ", from values: "])?;
    rt.stdout().write_all(&of_values)?;
    say(rt, &["from two streams: "])?;
    rt.stdout().write_all(&of_two)?;
    say(rt, &["from one stream: "])?;
    rt.stdout().write_all(&of_one)
}
