//! Keys and values, the numbers of transactions and of their writes (Adya 1999, section 3.1), and lists and tables of these
//! that take little memory.
//!
//! `specs/Meaning/Keys` says what keys, values and numbers are.
#![tactic(auto)]

mod indices;
mod key;
mod key_hash;
mod key_table;
mod lines;
mod number;
mod padded;
mod parts;
mod place;
mod value;

pub use indices::Indices;
pub use key::{BadKey, Key, MAX_KEY_LEN, is_key_byte};
pub use key_table::{KeyTable, MOST_KEYS};
pub use lines::Lines;
pub use number::{BadNumber, Mod, Txn};
pub use place::Place;
pub use value::{BadValue, MAX_VALUE_LEN, Value, is_value_byte};
