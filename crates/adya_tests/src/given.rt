//! The texts that cases are given, and the devices that fail or never end.

ghost use Rattle.std.specs.Prelude.{◌<◌};

use adya_testing::{Endless, FailsAt, Narrow, Pieces};
use devices::Watched;
use std::alloc::Global;
use std::io::{Chain, ErrorKind, Read};

/// The history in which transaction 2 reads what transaction 1 wrote.
pub(crate) const HISTORY: &[u8] = b"adya 1\nw1(x.1:1,5)\nc1\nr2(x.1:1,5)\nc2\n[x:1]\n{x,5}\nend\n";

/// The certificate that runs transaction 1 before 2.
pub(crate) const CERTIFICATE: &[u8] = b"serial 1\n1\n2\nend\n";

/// Both texts in one stream.
pub(crate) const STREAM: &[u8] =
    b"adya 1\nw1(x.1:1,5)\nc1\nr2(x.1:1,5)\nc2\n[x:1]\n{x,5}\nend\nserial 1\n1\n2\nend\n";

/// The history in which transaction 2 scans what 3 deletes, and deletes it itself before 3.
pub(crate) const CYCLE: &[u8] =
    b"adya 1\nw1(x.1:1,5)\nc1\nd3(x.3:1)\ns2(x,x;x.3:1,!)\nd2(x.2:1)\nc3\nc2\n[x:1<<2<<3]\nend\n";

/// The front of a history. Its second line is judged when it has ended, since lines of events may have any length.
pub(crate) const UNENDED: &[u8] = b"adya 1\nw1(x.1:1,";

/// How failing devices fail. An interrupted call is a failed one.
pub(crate) const KINDS: [ErrorKind; 2] = [ErrorKind::Interrupted, ErrorKind::TimedOut];

/// A reader that fails once.
pub(crate) type Reader<'a> = Watched<FailsAt<Pieces<'a>>>;

/// A reader that never ends.
pub(crate) type EndlessReader<'a> = Watched<FailsAt<Chain<&'a [u8], Endless>>>;

/// A writer that fails once.
pub(crate) type Writer = Watched<FailsAt<Narrow>>;

/// Makes a reader of the text in pieces of 7 bytes whose k-th call fails; if k is 0, none does.
pub(crate) fn reader(text: &[u8], k: u64, kind: ErrorKind) -> Reader<'_> {
    Watched::new(FailsAt::new(Pieces::new(text, 7), k, kind))
}

/// Makes a reader of the text and then of the byte forever, which gives at most `most_reads` reads.
pub(crate) fn endless(text: &[u8], byte: u8, most_reads: u32) -> EndlessReader<'_> {
    let device = FailsAt::new(text.chain(Endless(byte)), 0, ErrorKind::Other);
    Watched::with_bound(device, most_reads)
}

/// Makes a writer that takes a byte a call and whose k-th call fails; if k is 0, none does.
pub(crate) fn writer(alloc: Global, k: u64, kind: ErrorKind) -> Writer {
    let bytes = Vec::new(alloc);
    Watched::new(FailsAt::new(Narrow { bytes, most: 1 }, k, kind))
}

/// Makes a writer that takes nothing.
pub(crate) fn full(alloc: Global) -> Writer {
    let bytes = Vec::new(alloc);
    Watched::new(FailsAt::new(Narrow { bytes, most: 0 }, 0, ErrorKind::Other))
}
