//! What tests of logs stand on: a file in memory that crashes and fails as they want it, and coins.
#![tactic(auto)]

mod coins;
mod lent;
mod mixing;
mod written;

pub use coins::Coins;
pub use lent::Lent;
pub use mixing::Mixing;
