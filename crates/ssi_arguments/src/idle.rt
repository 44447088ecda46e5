//! How long a session may be idle.

ghost use Rattle.std.specs.Prelude.{◌≡◌, ◌≤◌, ℕ, None, IfSome};
ghost use Rattle.std.specs.Str.Parse.{IsNumeral, digits_value, without_leading_plus};

/// Returns the number of seconds that this value of the option `--idle` asks for. `None` if it isn't a number in decimal digits,
/// before which a plus may stand, from 1 to 86,400.
pub fn idle_seconds(text: &str) -> Option<u64>
    ensures secs { IfSome result (λ n. IsNumeral 10 (without_leading_plus text.now)
        × (n ≡ digits_value 10 (without_leading_plus text.now)) × (1 ≤ n) × (n ≤ 86400)) }
    ensures none { result ≡ None → let n = digits_value 10 (without_leading_plus text.now) in
        IsNumeral 10 (without_leading_plus text.now) → 1 ≤ n → n ≤ 86400 → ⊥ }
{
    match text.parse::<u64>() {
        Ok(seconds) if seconds >= 1 && seconds <= 86_400 => Some(seconds),
        _ => None,
    }
}
