//! Snapshot histories, and why one of them without a dangerous structure is serializable (Fekete, Liarokapis, O'Neil,
//! O'Neil and Shasha 2005; Cahill, Röhm and Fekete 2008). It holds definitions and laws of them, and no code
//! that runs.
//!
//! In a *snapshot history* each transaction reads from the state that the transactions committed before it began have
//! left, and of two concurrent transactions that write a key only one commits. Such a history may have a cycle. But each
//! cycle then has two consecutive anti-dependencies, each between concurrent transactions, and the last of the three
//! transactions commits before all others of the cycle (Ports and Grittner 2012). That is a *dangerous structure*, and a
//! store that never lets one arise needs no look at the graph.
#![tactic(auto)]

pub mod laws;
