//! The check of histories: that a history is well-formed, without aborted and intermediate reads (Adya 1999, G1a and
//! G1b). [`Checked::of`] makes it. The values of histories come from `adya_values`, and are exported again here.
#![tactic(auto)]

mod checked;
mod ends;
mod event_index;
mod finals;
mod line_numbers;
mod line_places;
mod line_writers;
mod listed;
mod newest_writes;
mod own_writes;
mod placing;
mod reads;
mod rules;
mod scans;
mod tables;

pub use adya_rules::laws;
pub use adya_values::{
    BadKey, BadNumber, BadShape, BadValue, CheckFault, Content, Edition, Entry, Event, EventView,
    Events, FinalPair, Finals, History, Key, Listed, MAX_KEY_LEN, MAX_VALUE_LEN, Mod,
    NumberedVersion, Observed, Order, Orders, Rule, Seen, Serial, Txn, Value, Version, is_key_byte,
    is_value_byte,
};
pub use checked::Checked;
pub use devices::{Source, Watched};
