//! Reading EDN, the notation of Clojure's data (https://github.com/edn-format/edn), form by form.
#![tactic(auto)]

mod atom;
mod builder;
mod bytes;
mod character;
mod form;
mod gap;
mod input;
mod kind;
pub mod laws;
mod leaf;
mod names;
mod number;
mod pending;
mod plain;
mod read_fault;
mod reader;
mod short;
mod string;
mod tape;
mod token;
mod word;

pub use builder::MAX_DEPTH;
pub use form::{Form, Forms};
pub use kind::Kind;
pub use read_fault::{Problem, ReadFault};
pub use reader::Reader;
