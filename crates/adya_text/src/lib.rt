//! The texts of histories and of certificates: reading, writing, and the line of a fault.
#![tactic(auto)]

mod history_draft;
pub mod laws;
mod line_reader;
mod lines;
mod read_fault;
mod reading;
mod serial_draft;
mod sources;
mod writing;

pub use adya_line::{
    ContentRef, DeleteRef, EndRef, Entries, EntryRef, EventRef, ReadRef, ScanRef, ValueRef,
    VersionRef, WriteRef, read_event,
};
pub use read_fault::{ReadFault, Text};
pub use reading::{read_history, read_serial};
pub use sources::{
    read_history_early, read_history_from, read_serial_early, read_serial_from, read_texts_from,
};
pub use writing::{WriteFault, write_history, write_serial};
