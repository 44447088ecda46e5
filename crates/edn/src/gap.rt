//! What stands between forms.

ghost use Rattle.std.specs.Prelude.{◌≡◌, ◌≤◌, ◌<◌, length, ◌==◌, IfSome, None, if◌then◌else◌, option_map};
ghost use Rattle.edn.specs.Computing.Gaps.{after_gap, after_line, after_one};

use crate::bytes::is_space;

/// Returns what follows the white space and the comments at the front. A comment goes up to its line feed; one that has
/// none isn't passed over.
#[tactic(auto, unfolding(crate::specs::Computing::Gaps::after_gap))]
pub(crate) fn after_gap(text: &[u8]) -> &[u8]
    ensures value { result.now ≡ after_gap text.now }
    ensures within { length result.now ≤ length text.now }
{
    let mut rest = text;
    while let [first, others @ ..] = rest {
        let Some(after) = after_one(*first, others) else {
            return rest;
        };
        rest = after;
    }
    rest
}

/// Returns what follows the white space or the comment that begins with this byte and goes on so, if it is one.
fn after_one(first: u8, others: &[u8]) -> Option<&[u8]>
    ensures value { option_map (λ rest. rest.now) result ≡ after_one first others.now }
    ensures within { IfSome result (λ rest. length rest.now ≤ length others.now) }
{
    // most bytes that no gap begins with are beyond all white space
    if first > b',' {
        return after_semicolon(first, others);
    }
    if is_space(first) {
        return Some(others);
    }
    None
}

/// Returns what follows the comment that begins with this byte and goes on so, if it is one.
fn after_semicolon(first: u8, others: &[u8]) -> Option<&[u8]>
    ensures value { option_map (λ rest. rest.now) result ≡ if first == 59 then after_line others.now else None }
    ensures within { IfSome result (λ rest. length rest.now ≤ length others.now) }
{
    if first == b';' {
        return after_line(others);
    }
    None
}

/// Returns what follows the first line feed.
fn after_line(text: &[u8]) -> Option<&[u8]>
    ensures value { option_map (λ rest. rest.now) result ≡ after_line text.now }
    ensures within { IfSome result (λ rest. length rest.now < length text.now) }
{
    let mut rest = text;
    while let [first, others @ ..] = rest {
        if *first == b'\n' {
            return Some(others);
        }
        rest = others;
    }
    None
}
