//! List-append histories out of the texts that Jepsen and Elle's users have, in EDN and in JSON.
#![tactic(auto)]

mod buffer;
mod collector;
mod data;
mod edn_data;
mod edn_text;
mod history;
mod json_data;
mod json_text;
mod name;
mod operation;
mod pairing;
mod read_fault;
mod reading;
mod text_form;

pub use history::{History, Label, PassedOver};
pub use name::{Name, Names};
pub use read_fault::{Place, Problem, ReadFault};
pub use reading::{read_edn, read_history, read_json};
pub use text_form::TextForm;
