//! Transaction histories as values (Adya 1999, section 3.1): versions, events, version orders, histories and certificates.
//! Keys, values and numbers are those of `adya_keys`.
//!
//! The definitions that all promises of the repository are made of are in `specs/Meaning`: dependencies, phenomena and the
//! serial run; well-formedness and acceptance are in `specs/Clauses`. `specs/Computing` has the functions that compute them.
#![tactic(auto)]

mod arena;
mod edition;
mod entry_ref;
mod event;
mod events;
mod fault;
mod finals;
mod history;
mod keeping;
mod listed;
mod order;
mod orders;
mod seen;
mod serial;

pub use adya_keys::{
    BadKey, BadNumber, BadValue, Indices, Key, MAX_KEY_LEN, MAX_VALUE_LEN, Mod, Txn, Value,
    is_key_byte, is_value_byte,
};
pub use edition::Edition;
pub use entry_ref::{ContentRef, EntryRef, ValueRef, VersionRef};
pub use event::{Content, Entry, Event, EventView, NumberedVersion, Version};
pub use events::Events;
pub use fault::{CheckFault, Rule};
pub use finals::Finals;
pub use history::{BadShape, History};
pub use listed::{Listed, PackedEntries};
pub use order::{FinalPair, Order};
pub use orders::Orders;
pub use seen::{Observed, Seen};
pub use serial::Serial;
