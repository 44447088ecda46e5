//! The rows that entries and held versions make: the keys and values that are visible.

ghost use Rattle.std.specs.Prelude.{◌≡◌, ◌++◌, ◌∷◌, [], map, IfOk, OnOk};
ghost use Rattle.adya_values.specs.Mirror.Events.{entry_of, final_of};
ghost use Rattle.adya_values.specs.Meaning.Serial.{visible_pairs};
ghost use Rattle.ssi_versions.specs.Mirror.{held_of};
ghost use Rattle.ssi_store.specs.Machinery.HeldRows.{entries_in};

use adya_values::{Content, Entry, FinalPair};
use ssi_versions::Held;
use std::alloc::{AllocError, Global};

/// Adds the key and value of an entry that is visible.
fn push_row(rows: &mut Vec<FinalPair>, entry: &Entry) -> Result<(), AllocError>
    ensures { OnOk result (map final_of rows.new.items ≡ map final_of rows.old.items ++ visible_pairs (entry_of entry.now ∷ [])) }
{
    match entry.content {
        Content::Live(value) => {
            rows.push(FinalPair {
                key: entry.version.key,
                value,
            })?;
            Ok(())
        }
        Content::Dead => Ok(()),
    }
}

/// Returns the keys and values of the entries that are visible.
pub(crate) fn rows_of(alloc: Global, entries: &[Entry]) -> Result<Vec<FinalPair>, AllocError>
    ensures { IfOk result (λ v. map final_of v.items ≡ visible_pairs (map entry_of entries.now)) }
{
    let mut rows = Vec::new(alloc);
    'entries: for entry in entries {
        push_row(&mut rows, entry)?;
    }
    Ok(rows)
}

/// Returns the keys and values of the held versions that are visible.
pub(crate) fn held_rows(alloc: Global, held: &[Held]) -> Result<Vec<FinalPair>, AllocError>
    ensures { IfOk result (λ v. map final_of v.items ≡ visible_pairs (entries_in (map held_of held.now))) }
{
    let mut rows = Vec::new(alloc);
    'versions: for version in held {
        let entry = Entry {
            version: version.version,
            content: version.content,
        };
        push_row(&mut rows, &entry)?;
    }
    Ok(rows)
}
