//! What the program answers to a verdict on a list-append history, what it is called, and the status that it ends with.
#![tactic(auto)]

mod answer;
mod phenomenon;
mod status;

pub use answer::Answer;
pub use phenomenon::{Phenomenon, appends, appends_in_vain, name_of_link};
pub use status::Status;
