//! The line that the auditor writes for a history and a certificate: the verdict.

ghost use Rattle.std.specs.Prelude.{◌<◌};

use crate::texts;
use adya_audit::{audit, run_audit, run_pipe, write_verdict};
use adya_testing::Pieces;
use adya_values::{History, Serial};
use devices::Watched;
use std::alloc::{AllocError, Global};

/// Returns the line for the two values, or none if memory runs out.
pub(crate) fn of_values(alloc: Global, history: &History, certificate: &Serial) -> Option<Vec<u8>> {
    let verdict = audit(alloc, history, certificate).ok()?;
    let mut out = Watched::new(Vec::new(alloc));
    write_verdict(&verdict, &mut out).ok()?;
    Some(out.into_inner())
}

/// Returns the line for the texts, each a stream that gives at most `most` bytes a call.
fn of_two_in_pieces(alloc: Global, history: &[u8], certificate: &[u8], most: usize) -> Vec<u8>
    requires { 0 < most }
{
    let mut history = Watched::new(Pieces::new(history, most));
    let mut certificate = Watched::new(Pieces::new(certificate, most));
    let mut out = Watched::new(Vec::new(alloc));
    let _ = run_audit(alloc, &mut history, &mut certificate, &mut out);
    out.into_inner()
}

/// Returns the line for the texts, each a stream; if it isn't the same in pieces of any size, nothing.
pub(crate) fn of_two_streams(alloc: Global, history: &[u8], certificate: &[u8]) -> Vec<u8> {
    let whole = of_two_in_pieces(alloc, history, certificate, usize::MAX);
    let by_one = of_two_in_pieces(alloc, history, certificate, 1);
    let by_three = of_two_in_pieces(alloc, history, certificate, 3);
    if whole == by_one && whole == by_three {
        whole
    } else {
        Vec::new(alloc)
    }
}

/// Returns the line for one stream of both texts that gives at most `most` bytes a call.
fn of_one_in_pieces(alloc: Global, stream: &[u8], most: usize) -> Vec<u8>
    requires { 0 < most }
{
    let mut input = Watched::new(Pieces::new(stream, most));
    let mut out = Watched::new(Vec::new(alloc));
    let _ = run_pipe(alloc, &mut input, &mut out);
    out.into_inner()
}

/// Returns the certificate after the history.
fn joined(alloc: Global, history: &[u8], certificate: &[u8]) -> Result<Vec<u8>, AllocError> {
    let mut stream = Vec::from_slice(alloc, history)?;
    stream.extend_from_slice(certificate)?;
    Ok(stream)
}

/// Returns the line for one stream, the certificate after the history; if it isn't the same in pieces of any size, or
/// if memory runs out, nothing.
pub(crate) fn of_one_stream(alloc: Global, history: &[u8], certificate: &[u8]) -> Vec<u8> {
    let Ok(stream) = joined(alloc, history, certificate) else {
        return Vec::new(alloc);
    };
    let whole = of_one_in_pieces(alloc, &stream, usize::MAX);
    let by_one = of_one_in_pieces(alloc, &stream, 1);
    let by_three = of_one_in_pieces(alloc, &stream, 3);
    if whole == by_one && whole == by_three {
        whole
    } else {
        Vec::new(alloc)
    }
}

/// Whether the verdict on a history and a certificate is the one after them, each of the two having a line `%` after it.
pub(crate) fn is_verdict(alloc: Global, case: &str) -> bool {
    let (history, rest) = case.split_once("%\n").unwrap_or(("", ""));
    let (certificate, wanted) = rest.split_once("%\n").unwrap_or(("", ""));
    let (history, certificate) = (history.as_bytes(), certificate.as_bytes());
    texts::are_read_alike(alloc, history, certificate)
        && of_two_streams(alloc, history, certificate).as_slice() == wanted.as_bytes()
}
