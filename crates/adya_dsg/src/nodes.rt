//! The nodes of a history's graph.

ghost use Rattle.std.specs.Prelude.{◌≡◌, All, IfOk};
ghost use Rattle.adya_keys.specs.Meaning.Keys.{IsTxn};
ghost use Rattle.adya_values.specs.Mirror.Events.{events_of};
ghost use Rattle.adya_values.specs.Mirror.Histories.{serial_txns};
ghost use Rattle.adya_dsg.specs.Machinery.Nodes.{committed};

use adya_values::{Events, Serial, Txn};
use std::alloc::{AllocError, Global};

/// Returns the numbers of the committed transactions, in the order of their commits; `AllocError` if memory is refused.
pub(crate) fn committed(alloc: Global, events: &Events) -> Result<Vec<u32>, AllocError>
    ensures value { IfOk result (λ v. v.items ≡ committed (events_of events.now)) }
    ensures numbers { IfOk result (λ v. All IsTxn v.items) }
{
    let mut nodes = Vec::new(alloc);
    for i in 0..events.len() {
        if let Some(txn) = events.commit_at(i) {
            nodes.push(txn.get())?;
        }
    }
    Ok(nodes)
}

/// Returns the certificate of the transactions with these numbers; `AllocError` if memory is refused.
pub(crate) fn serial_of(alloc: Global, nodes: &[u32]) -> Result<Serial, AllocError>
    requires { All IsTxn nodes.now }
    ensures { IfOk result (λ s. serial_txns s ≡ nodes.now) }
{
    let mut txns = Vec::new(alloc);
    for n in nodes {
        let Ok(txn) = Txn::new(u64::from(*n)) else {
            unreachable!()
        };
        txns.push(txn)?;
    }
    Ok(Serial::new(txns))
}
