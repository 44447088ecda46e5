//! The text of the history so far of a store, with that of a certificate.

ghost use Rattle.std.specs.Prelude.{◌≡◌, ◌++◌, IfOk};
ghost use Rattle.adya_values.specs.Mirror.Histories.{history_of, serial_txns};
ghost use Rattle.adya_text.specs.Meaning.Texts.{history_text, serial_text};
ghost use Rattle.ssi_store.specs.Mirror.Stores.{IsAt};
ghost use Rattle.ssi_line.specs.Clauses.Dumps.{IsDumpText};

use adya_text::{write_history, write_serial};
use adya_values::{History, Serial};
use devices::Watched;
use ssi_certify::certify;
use ssi_reads::Marks;
use ssi_store::Store;
use ssi_versions::Chains;
use std::alloc::{AllocError, Global};

/// Returns the text of the history so far and then that of a certificate that it is accepted with. The store stays as it
/// is. Returns `AllocError` if memory runs out.
pub(crate) fn dump_text<C: Chains + Drop, M: Marks + Drop>(
    alloc: Global,
    store: &Store<C, M>,
) -> Result<Vec<u8>, AllocError>
    ensures { IfOk result (λ text. IsDumpText (IsAt C.held M.marked store.now) text.items) }
{
    let finished = store.dump()?;
    let serial = certify(alloc, &finished)?;
    both_texts(alloc, finished.history(), &serial)
}

fn both_texts(alloc: Global, history: &History, serial: &Serial) -> Result<Vec<u8>, AllocError>
    ensures { IfOk result
        (λ text. text.items ≡ history_text (history_of history.now) ++ serial_text (serial_txns serial.now)) }
{
    let mut text = Watched::new(Vec::new(alloc));
    write_history(history, &mut text).map_err(|_| AllocError)?;
    write_serial(serial, &mut text).map_err(|_| AllocError)?;
    Ok(text.into_inner())
}
