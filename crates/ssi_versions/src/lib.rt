//! The held versions of a store: which version of a key was installed by which commit, and which of them are kept.
#![tactic(auto)]

mod between;
mod chains;
mod held;
mod keyed;
pub mod laws;
mod place;
mod plain;

pub use chains::Chains;
pub use held::Held;
pub use keyed::KeyChains;
pub use plain::PlainChains;
