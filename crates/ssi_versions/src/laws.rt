//! Laws of what a store of versions is told, each proved as the contract of a function that does nothing: collections
//! drop nothing that is still asked for, and the lengths of a store's list of held versions are counts of the changes.

ghost use Rattle.ssi_versions.specs.Laws.Changes.{HeldRises, LastIsHeld, HeldShows, LastIsAbove, CollectsHeld, CollectKeepsSeen};
ghost use Rattle.ssi_versions.specs.Laws.Counts.{CountsHeld, CountsKeys};

/// The held versions of a key stand by stamp.
pub fn held_rises()
    ensures { HeldRises }
{}

/// The last version of a key is always held.
pub fn last_is_held()
    ensures { LastIsHeld }
{}

/// What a snapshot sees of a key can be told from the held versions if each collection was told of the snapshot or came
/// before any stamp above it.
pub fn held_shows()
    ensures { HeldShows }
{}

/// Whether a version of a key with a stamp above a snapshot was installed can be told from the key's last version.
/// This is what a commit asks where the first committer wins (Cahill, Röhm and Fekete 2008).
pub fn last_is_above()
    ensures { LastIsAbove }
{}

/// What a collection keeps can be told from the held versions if no snapshot that it names was left out before.
pub fn collects_held()
    ensures { CollectsHeld }
{}

/// What a snapshot that a collection names sees is the same after the collection as before it.
pub fn collect_keeps_seen()
    ensures { CollectKeepsSeen }
{}

/// If a list of versions has of each key the held versions, it is as long as there are held versions.
pub fn counts_held()
    ensures { CountsHeld }
{}

/// If a list of versions has of each key the held versions, it has versions of as many keys as have a held version.
pub fn counts_keys()
    ensures { CountsKeys }
{}
