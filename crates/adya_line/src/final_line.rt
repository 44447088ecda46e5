//! The lines of finals.

ghost use Rattle.adya_values.specs.Mirror.Events.{final_of};
ghost use Rattle.adya_line.specs.Computing.Reading.{Gives, final_at};

use crate::fields::{after, key_between, value_at};
use adya_values::{FinalPair, Key, Value};

/// Reads the line of a final, without its line feed: `{K,V}`. Returns `None` for every other text.
#[tactic(auto, unfolding(crate::specs::Computing::Reading::final_at))]
// Not inlined: a caller pays at its entry for all locals of what is inlined into it.
#[inline(never)]
pub fn final_pair(line: &[u8]) -> Option<FinalPair>
    ensures { Gives final_of result (final_at line.now) }
{
    let (key, rest) = key_between(b'{', b',', line)?;
    let (value, rest) = value_at(rest)?;
    let rest = after(b'}', rest)?;
    if !rest.is_empty() {
        return None;
    }
    Some(FinalPair {
        key: Key::from_valid(key),
        value: Value::from_valid(value),
    })
}
