//! The stores that a run begins with.

ghost use Rattle.ssi_store.specs.Meaning.Courses.{New};
ghost use Rattle.ssi_store.specs.Mirror.LiveStores.{IsAt as IsLiveAt};
ghost use Rattle.ssi_store.specs.Mirror.Stores.{IsAt};

use ssi_reads::{IndexMarks, Marks};
use ssi_store::{LiveStore, Store};
use ssi_versions::{Chains, KeyChains};
use std::alloc::Global;

/// Makes an empty store over the fast representations. Its first transaction has number 1.
pub fn new_store(alloc: Global) -> Store<KeyChains, IndexMarks>
    ensures { IsAt ⟦<KeyChains as Chains>⟧.held ⟦<IndexMarks as Marks>⟧.marked result (New 1) }
{
    Store::new(alloc, KeyChains::new(alloc), IndexMarks::new(alloc))
}

/// Makes an empty store that keeps no history, over the same representations. Its first transaction has number 1.
pub fn new_live_store(alloc: Global) -> LiveStore<KeyChains, IndexMarks>
    ensures { IsLiveAt ⟦<KeyChains as Chains>⟧.held ⟦<IndexMarks as Marks>⟧.marked result (New 1) }
{
    LiveStore::new(alloc, KeyChains::new(alloc), IndexMarks::new(alloc))
}
