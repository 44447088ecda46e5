//! What remains of a store: the texts of its history and a certificate, and how its transactions began.

ghost use Rattle.std.specs.Prelude.{◌<◌};

use adya_audit::run_audit;
use adya_testing::Pieces;
use adya_text::{write_history, write_serial};
use adya_values::{History, Serial, Txn};
use devices::Watched;
use ssi_certify::certify;
use ssi_store::Finished;
use std::alloc::{AllocError, Global};

/// The texts of a history and of a certificate, what the auditor says of them, and each transaction with its snapshot.
#[derive(PartialEq, Drop)]
pub(crate) struct Texts {
    pub(crate) history: Vec<u8>,
    pub(crate) certificate: Vec<u8>,
    pub(crate) verdict: Vec<u8>,
    pub(crate) starts: Vec<(Txn, u64)>,
}

impl Texts {
    /// Returns the certificate after the history.
    pub(crate) fn joined(self) -> Result<Vec<u8>, AllocError> {
        let mut both = self.history;
        both.extend_from_slice(&self.certificate)?;
        Ok(both)
    }
}

/// Whether the auditor accepts the texts.
pub(crate) fn are_accepted(texts: &Texts) -> bool {
    texts.verdict.as_slice() == b"yes\n".as_slice()
}

/// Returns the texts of what remains of a store; nothing if memory runs out.
pub(crate) fn texts_of(alloc: Global, finished: &Finished) -> Option<Texts> {
    let certificate = certificate_text(alloc, &certify(alloc, finished).ok()?)?;
    let history = history_text(alloc, finished.history())?;
    let verdict = verdict_on(alloc, &history, &certificate);
    let starts = Vec::from_slice(alloc, finished.starts()).ok()?;
    Some(Texts {
        history,
        certificate,
        verdict,
        starts,
    })
}

fn history_text(alloc: Global, history: &History) -> Option<Vec<u8>> {
    let mut out = Watched::new(Vec::new(alloc));
    write_history(history, &mut out).ok()?;
    Some(out.into_inner())
}

fn certificate_text(alloc: Global, certificate: &Serial) -> Option<Vec<u8>> {
    let mut out = Watched::new(Vec::new(alloc));
    write_serial(certificate, &mut out).ok()?;
    Some(out.into_inner())
}

/// Returns the line that the auditor writes.
pub(crate) fn verdict_on(alloc: Global, history: &[u8], certificate: &[u8]) -> Vec<u8> {
    let mut history = Watched::new(Pieces::new(history, 4096));
    let mut certificate = Watched::new(Pieces::new(certificate, 4096));
    let mut out = Watched::new(Vec::new(alloc));
    let _ = run_audit(alloc, &mut history, &mut certificate, &mut out);
    out.into_inner()
}
