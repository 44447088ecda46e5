//! Comparisons of stamps and snapshots, some of which may be missing.

ghost use Rattle.std.specs.Prelude.{◌≡◌, Some};
ghost use Rattle.ssi_conflict.specs.Meaning.Calls.{is_at_or_below};
ghost use Rattle.ssi_conflict.specs.Computing.Steps.{is_earlier as comes_before, is_no_later as comes_no_later};
ghost use Rattle.ssi_conflict.specs.Machinery.Rows.{sooner as sooner_of};
ghost use Rattle.ssi_conflict.specs.Machinery.Tables.{is_after as comes_after};

/// Returns the lower of two stamps, or the one that is there.
pub(crate) fn sooner(a: Option<u64>, b: Option<u64>) -> Option<u64>
    ensures { result ≡ sooner_of a b }
{
    match (a, b) {
        (None, m) => m,
        (Some(n), None) => Some(n),
        (Some(n), Some(m)) => Some(if m < n { m } else { n }),
    }
}

/// Returns whether there is a stamp, and it is at or below the snapshot.
pub(crate) fn is_within(stamp: Option<u64>, snapshot: u64) -> bool
    ensures { result ≡ is_at_or_below stamp (Some snapshot) }
{
    match stamp {
        None => false,
        Some(n) => n <= snapshot,
    }
}

/// Returns whether the first stamp is below the second.
pub(crate) fn is_earlier(a: Option<u64>, b: Option<u64>) -> bool
    ensures { result ≡ comes_before a b }
{
    match (a, b) {
        (Some(n), Some(m)) => n < m,
        _ => false,
    }
}

/// Returns whether there is a first stamp, and it is at most the second. A missing second one counts as later than all.
pub(crate) fn is_no_later(a: Option<u64>, b: Option<u64>) -> bool
    ensures { result ≡ comes_no_later a b }
{
    match (a, b) {
        (None, _) => false,
        (Some(_), None) => true,
        (Some(n), Some(m)) => n <= m,
    }
}

/// Returns whether the stamp is above the snapshot.
pub(crate) fn is_after(stamp: Option<u64>, snapshot: Option<u64>) -> bool
    ensures { result ≡ comes_after stamp snapshot }
{
    match (stamp, snapshot) {
        (Some(n), Some(s)) => s < n,
        _ => false,
    }
}
