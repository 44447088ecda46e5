//! What the proofs of the store rest on.

ghost use Rattle.ssi_store.specs.Machinery.Below.{Below};

use ssi_conflict::laws::{ordered_pivots_are_named, quiet_calls_make_no_pair};
use ssi_snapshot::laws::{
    limit_lists_its_range, limit_takes_first, listing_is_unique, put_is_found, put_keeps_order,
};
use ssi_versions::laws::{
    collects_held, counts_held, counts_keys, held_shows, last_is_above, last_is_held,
};

/// The laws of the parts of a store. It does nothing.
pub(crate) fn laws_below()
    ensures { Below }
{
    held_shows();
    last_is_held();
    last_is_above();
    collects_held();
    counts_held();
    counts_keys();
    put_is_found();
    put_keeps_order();
    listing_is_unique();
    limit_takes_first();
    limit_lists_its_range();
    ordered_pivots_are_named();
    quiet_calls_make_no_pair();
}
