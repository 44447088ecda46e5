//! Laws of lists of writes and of what a scan lists, each proved as the contract of a function that does nothing.

ghost use Rattle.ssi_snapshot.specs.Laws.{PutIsFound, PutKeepsOrder, ListIsByKey, ListingIsUnique, LimitTakesFirst, LimitListsItsRange};

/// After a write the list has this write of its key, and of every other key what it had.
pub fn put_is_found()
    ensures { PutIsFound }
{}

/// A write of a key that was written before leaves the keys of the list as they are. A write of another key adds its key
/// at the end.
pub fn put_keeps_order()
    ensures { PutKeepsOrder }
{}

/// If each key stands once, a list of writes can be told from its keys, in their order, and from what it has of each.
pub fn list_is_by_key()
    ensures { ListIsByKey }
{}

/// Only one list by rising key has a given entry, or none, of each key.
pub fn listing_is_unique()
    ensures { ListingIsUnique }
{}

/// The keys and values that a limited scan shows are the first ones that the whole scan shows.
pub fn limit_takes_first()
    ensures { LimitTakesFirst }
{}

/// A limited scan lists all that is seen of the keys as far as it looked: to the last visible key if it found as many as
/// its limit, and else to the end of its range.
pub fn limit_lists_its_range()
    ensures { LimitListsItsRange }
{}
