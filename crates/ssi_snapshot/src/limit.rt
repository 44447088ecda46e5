//! Limited scans: the entries up to a number of visible ones.

ghost use Rattle.std.specs.Prelude.{◌≡◌, map, take, is_some};
ghost use Rattle.adya_values.specs.Mirror.Events.{entry_of};
ghost use Rattle.adya_values.specs.Meaning.Events.{visible};
ghost use Rattle.ssi_snapshot.specs.Clauses.Listings.{up_to};

use adya_values::{Content, Entry};

/// Drops what comes after the `n`th visible entry.
pub(crate) fn keep_first(entries: &mut Vec<Entry>, n: u16)
    ensures { map entry_of entries.new.items ≡ up_to n (map entry_of entries.old.items) }
{
    let to = end_of_first(entries.as_slice(), n);
    entries.truncate(to);
}

/// Returns how many entries there are up to the `n`th visible one, with that one; all if fewer are visible.
fn end_of_first(entries: &[Entry], n: u16) -> usize
    ensures { map entry_of (take result entries.now) ≡ up_to n (map entry_of entries.now) }
{
    let mut left = n;
    'entries: for i in 0..entries.len() {
        if left == 0 {
            return i;
        }
        if is_visible(&entries[i]) {
            left -= 1;
        }
    }
    entries.len()
}

fn is_visible(entry: &Entry) -> bool
    ensures { result ≡ is_some (visible (entry_of entry.now).content) }
{
    match entry.content {
        Content::Live(_) => true,
        Content::Dead => false,
    }
}
