//! Snapshots between two stamps.

ghost use Rattle.std.specs.Prelude.{◌≡◌, ℕ, ◌≤◌, ◌<◌, true, length};
ghost use Rattle.ssi_versions.specs.Machinery.Snapshots.{Rises, is_between};

/// Snapshots in any order, and whether they rise.
#[derive(Drop)]
pub(crate) struct Snapshots<'a> {
    pub stamps: &'a [u64],
    pub rising: bool,
    pub ghost sorted: { rising ≡ true → Rises stamps.now },
}

/// The snapshots, looked through once.
pub(crate) fn looked_through<'a>(stamps: &'a [u64]) -> Snapshots<'a>
    ensures { result.stamps.now ≡ stamps.now }
{
    let rising = is_rising(stamps);
    Snapshots { stamps, rising }
}

fn is_rising(stamps: &[u64]) -> bool
    ensures { result ≡ true → Rises stamps.now }
{
    'stamps: for i in 1..stamps.len() {
        if stamps[i - 1] > stamps[i] {
            return false;
        }
    }
    true
}

/// Whether some snapshot is at the one stamp or above it, and below the other.
pub(crate) fn is_between(stamps: &[u64], low: u64, high: u64) -> bool
    ensures { result ≡ is_between stamps.now low high }
{
    stamps.iter().any(|s| low <= *s && *s < high)
}

/// The same, where the snapshots rise: the first one that isn't below the one stamp tells it.
fn is_between_rising(stamps: &[u64], low: u64, high: u64) -> bool
    requires { Rises stamps.now }
    ensures { result ≡ is_between stamps.now low high }
{
    let i = stamps.partition_point(|s| *s < low);
    match stamps.get(i) {
        Some(s) => *s < high,
        None => false,
    }
}

impl Snapshots<'_> {
    /// Whether some snapshot is at the one stamp or above it, and below the other.
    pub fn is_between(&self, low: u64, high: u64) -> bool
        ensures { result ≡ is_between self.now.stamps.now low high }
    {
        if self.rising {
            return is_between_rising(self.stamps, low, high);
        }
        is_between(self.stamps, low, high)
    }
}
