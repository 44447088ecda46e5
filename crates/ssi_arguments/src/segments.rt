//! The length of segments.

ghost use Rattle.std.specs.Prelude.{◌≡◌, ◌≤◌, ℕ, None, IfSome};
ghost use Rattle.std.specs.Str.Parse.{IsNumeral, digits_value, without_leading_plus};

/// How many bytes the log of a segment may have before the next segment is begun, if nothing else is asked for: 64 MiB.
pub const SEGMENT: usize = 67_108_864;

/// Returns the number of bytes that this value of the option `--segment` asks for. `None` if it isn't a number in decimal digits,
/// before which a plus may stand, from 65,536 to 1,099,511,627,776.
pub fn segment_len(text: &str) -> Option<usize>
    ensures len { IfSome result (λ n. IsNumeral 10 (without_leading_plus text.now)
        × (n ≡ digits_value 10 (without_leading_plus text.now)) × (65536 ≤ n) × (n ≤ 1099511627776)) }
    ensures none { result ≡ None → let n = digits_value 10 (without_leading_plus text.now) in
        IsNumeral 10 (without_leading_plus text.now) → 65536 ≤ n → n ≤ 1099511627776 → ⊥ }
{
    match text.parse::<usize>() {
        Ok(len) if len >= 65_536 && len <= 1_099_511_627_776 => Some(len),
        _ => None,
    }
}
