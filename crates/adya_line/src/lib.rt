//! The lines of a history text and of a certificate text: their spelling, reading and writing.
#![tactic(auto)]

mod entries;
mod event_line;
mod event_ref;
mod fields;
mod final_line;
mod fixed_line;
mod history_lines;
pub mod laws;
mod order_line;
mod serial_lines;
mod txn_line;
mod unfinished_line;
mod writing;

pub use adya_values::{ContentRef, EntryRef, ValueRef, VersionRef};
pub use entries::Entries;
pub use event_line::{read_event, read_event_with};
pub use event_ref::{DeleteRef, EndRef, EventRef, ReadRef, ScanRef, WriteRef};
pub use final_line::final_pair;
pub use fixed_line::{history_head, is_tail, second_head, serial_head, tail};
pub use history_lines::{HistoryLine, history_line};
pub use order_line::order;
pub use serial_lines::{SerialLine, serial_line};
pub use txn_line::txn;
pub use unfinished_line::unfinished;
pub use writing::{
    write_event, write_final, write_order, write_txn, write_unfinished, write_version,
};
