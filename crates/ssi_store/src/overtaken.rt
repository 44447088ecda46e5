//! The first committer wins (Cahill, Röhm and Fekete 2008, section 2.2): keys of a transaction of which another one has
//! committed a version since it began.

ghost use Rattle.std.specs.Prelude.{◌≡◌, Some, None, if◌then◌else◌, map, option_map, IfSome};
ghost use Rattle.ssi_versions.specs.Mirror.{write_of};
ghost use Rattle.ssi_snapshot.specs.Clauses.Listings.{keys};
ghost use Rattle.ssi_store.specs.Machinery.Overtaken.{is_passed, passed_by, key_of, lesser, IsLeast};

use adya_values::{Content, Key, Txn, Version};
use ssi_versions::Chains;

/// An overtaken key, and who wrote its last version.
#[derive(Clone, Copy)]
pub(crate) struct Overtaken {
    pub key: Key,
    pub writer: Txn,
}

/// Returns the key if its last version has a stamp above this one.
fn overtaken_key<C: Chains>(chains: &C, stamp: u64, key: Key) -> Option<Overtaken>
    ensures key { option_map key_of result ≡ if is_passed stamp (C.held chains.now) key then Some key else None }
    ensures writer { IfSome result (λ o. o.writer ≡ passed_by o.key (C.held chains.now)) }
{
    let last = chains.last(key)?;
    if last.stamp <= stamp {
        return None;
    }
    Some(Overtaken {
        key,
        writer: last.version.txn,
    })
}

/// Returns the one with the smaller key.
fn lesser(least: Option<Overtaken>, found: Option<Overtaken>) -> Option<Overtaken>
    ensures { result ≡ lesser least found }
{
    match (least, found) {
        (None, _) => found,
        (Some(_), None) => least,
        (Some(a), Some(b)) => { if a.key < b.key { least } else { found } }
    }
}

/// Returns the smallest overtaken key of these writes. Takes no memory.
pub(crate) fn least_overtaken<C: Chains>(
    chains: &C,
    stamp: u64,
    writes: &[(Version, Content)],
) -> Option<Overtaken>
    ensures least { IsLeast (is_passed stamp (C.held chains.now)) (keys (map write_of writes.now)) (option_map key_of result) }
    ensures writer { IfSome result (λ o. o.writer ≡ passed_by o.key (C.held chains.now)) }
{
    let mut least = None;
    'writes: for write in writes {
        least = lesser(least, overtaken_key(chains, stamp, write.0.key));
    }
    least
}
