//! Stores as the protocol uses them.

ghost use Rattle.std.specs.Prelude.{◌≡◌, Bool, true, false, is_some, IfSome, IfOk};
ghost use Rattle.ssi_line.specs.Clauses.Dumps.{IsDumpText};

use crate::dump::dump_text;
use ssi_reads::Marks;
use ssi_store::{AnyStore, LiveStore, Store};
use ssi_versions::Chains;
use std::alloc::{AllocError, Global};

/// A store that answers the lines of the protocol. If it keeps its history, `dump` is answered with that; otherwise `dump` is
/// no line of the protocol.
pub trait ProtocolStore: AnyStore {
    /// Whether it keeps its history.
    ghost keeps: { Bool };

    /// Returns the text of the history so far and then that of a certificate that it is accepted with. `None` if the store
    /// keeps no history, and `AllocError` if memory runs out. The store stays as it is.
    fn texts(&self, alloc: Global) -> Option<Result<Vec<u8>, AllocError>>
        ensures kept { is_some result ≡ keeps }
        ensures text { IfSome result (λ r. IfOk r (λ text. IsDumpText (Self.is_at self.now) text.items)) };
}

impl<C: Chains + Drop, M: Marks + Drop> ProtocolStore for Store<C, M> {
    ghost keeps = { true };

    fn texts(&self, alloc: Global) -> Option<Result<Vec<u8>, AllocError>> {
        Some(dump_text(alloc, self))
    }
}

impl<C: Chains + Drop, M: Marks + Drop> ProtocolStore for LiveStore<C, M> {
    ghost keeps = { false };

    fn texts(&self, _alloc: Global) -> Option<Result<Vec<u8>, AllocError>> {
        None
    }
}
