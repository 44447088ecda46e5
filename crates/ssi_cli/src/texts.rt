//! The texts that remain of a store.

ghost use Rattle.std.specs.Prelude.{◌≡◌, [], true, Err, IfOk};
ghost use Rattle.adya_values.specs.Mirror.Histories.{history_of, serial_txns};
ghost use Rattle.devices.specs.Mirror.{has_failed};
ghost use Rattle.devices.specs.Clauses.Writing.{Grew, Wrote};
ghost use Rattle.adya_text.specs.Meaning.Texts.{history_text, serial_text};
ghost use Rattle.ssi_store.specs.Meaning.Courses.{Course};
ghost use Rattle.ssi_store.specs.Meaning.Faces.{Records};
ghost use Rattle.ssi_store.specs.Clauses.Finished.{finished};
ghost use Rattle.ssi_store.specs.Mirror.Finished.{recorded_in};
ghost use Rattle.ssi_store.specs.Mirror.Stores.{IsAt};
ghost use Rattle.ssi_cli.specs.Clauses.Scripts.{Certified, HistoryWritten, LeavesTexts};

use crate::ScriptFault;
use adya_text::{WriteFault, write_history, write_serial};
use adya_values::{History, Serial};
use devices::Watched;
use ssi_certify::certify;
use ssi_reads::Marks;
use ssi_store::{Finished, Store};
use ssi_versions::Chains;
use std::alloc::{AllocError, Global};
use std::io::Write;

/// Ends the store, and writes its history and then a certificate of it. The history records the course of the store, and
/// the auditor says yes to both texts.
pub(crate) fn write_texts<C: Chains + Drop, M: Marks + Drop, H: Write, W: Write>(
    alloc: Global,
    store: Store<C, M>,
    history: &mut Watched<H>,
    certificate: &mut Watched<W>,
) -> Result<(), ScriptFault>
    ensures certified { IfOk result (λ _. (course : Course) → IsAt C.held M.marked store course
        → Certified course H.contents history.old history.new W.contents certificate.old certificate.new) }
    ensures texts { (course : Course) → IsAt C.held M.marked store course
        → LeavesTexts result course H.contents history.old history.new W.contents certificate.old certificate.new }
    ensures history_fault { result ≡ Err ScriptFault.History
        → (has_failed history.new ≡ true) × (certificate.new ≡ certificate.old) }
    ensures certificate_fault { result ≡ Err ScriptFault.Certificate → has_failed certificate.new ≡ true }
    ensures memory { result ≡ Err ScriptFault.Memory
        → (history.new ≡ history.old) × (certificate.new ≡ certificate.old) }
{
    let Ok(ended) = end(store) else {
        return Err(ScriptFault::Memory);
    };
    write_ended(alloc, &ended, history, certificate)
}

/// Ends the store.
fn end<C: Chains + Drop, M: Marks + Drop>(store: Store<C, M>) -> Result<Finished, AllocError>
    ensures { IfOk result (λ f. (course : Course) → IsAt C.held M.marked store course
        → (recorded_in f ≡ finished course) × Records (recorded_in f) course) }
{
    let Ok(finished) = store.finish() else {
        return Err(AllocError);
    };
    Ok(finished)
}

/// Writes the history of a store that has ended, and then a certificate of it.
fn write_ended<H: Write, W: Write>(
    alloc: Global,
    ended: &Finished,
    history: &mut Watched<H>,
    certificate: &mut Watched<W>,
) -> Result<(), ScriptFault>
    ensures certified { IfOk result (λ _. (course : Course) → recorded_in ended.now ≡ finished course
        → Records (recorded_in ended.now) course
        → Certified course H.contents history.old history.new W.contents certificate.old certificate.new) }
    ensures history_written { result ≡ Err ScriptFault.Certificate → (course : Course) → recorded_in ended.now ≡ finished course
        → Records (recorded_in ended.now) course → HistoryWritten course H.contents history.old history.new }
    ensures history_fault { result ≡ Err ScriptFault.History
        → (has_failed history.new ≡ true) × (certificate.new ≡ certificate.old) }
    ensures certificate_fault { result ≡ Err ScriptFault.Certificate → has_failed certificate.new ≡ true }
    ensures memory { result ≡ Err ScriptFault.Memory
        → (history.new ≡ history.old) × (certificate.new ≡ certificate.old) }
{
    let Ok(serial) = certify(alloc, ended) else {
        return Err(ScriptFault::Memory);
    };
    put_texts(ended.history(), &serial, history, certificate)
}

fn put_texts<H: Write, W: Write>(
    recorded: &History,
    serial: &Serial,
    history: &mut Watched<H>,
    certificate: &mut Watched<W>,
) -> Result<(), ScriptFault>
    ensures history_written { IfOk result (λ _. Grew H.contents history.old history.new
        (history_text (history_of recorded.now))) }
    ensures certificate_written { IfOk result (λ _. Grew W.contents certificate.old certificate.new
        (serial_text (serial_txns serial.now))) }
    ensures history_first { result ≡ Err ScriptFault.Certificate → Grew H.contents history.old history.new
        (history_text (history_of recorded.now)) }
    ensures history_fault { result ≡ Err ScriptFault.History
        → (has_failed history.new ≡ true) × (certificate.new ≡ certificate.old) }
    ensures certificate_fault { result ≡ Err ScriptFault.Certificate → has_failed certificate.new ≡ true }
    ensures memory { result ≡ Err ScriptFault.Memory → ⊥ }
{
    let Ok(()) = put_history(recorded, history) else {
        return Err(ScriptFault::History);
    };
    let Ok(()) = put_serial(serial, certificate) else {
        return Err(ScriptFault::Certificate);
    };
    Ok(())
}

// What the device holds back is written, too.
fn put_history<W: Write>(history: &History, out: &mut Watched<W>) -> Result<(), WriteFault>
    ensures { Wrote W.contents out.old out.new (history_text (history_of history.now)) result }
{
    write_history(history, out)?;
    flush(out)
}

fn put_serial<W: Write>(serial: &Serial, out: &mut Watched<W>) -> Result<(), WriteFault>
    ensures { Wrote W.contents out.old out.new (serial_text (serial_txns serial.now)) result }
{
    write_serial(serial, out)?;
    flush(out)
}

fn flush<W: Write>(out: &mut Watched<W>) -> Result<(), WriteFault>
    ensures { Wrote W.contents out.old out.new [] result }
{
    out.flush().map_err(|_| WriteFault)
}
