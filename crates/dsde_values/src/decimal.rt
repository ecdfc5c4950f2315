//! Numbers, read from decimals.

ghost use Rattle.std.specs.Prelude.{◌≡◌, ◌≢◌, ◌<◌, ◌^◌, ℕ, ℤ, FitsSigned, decimal, IfSome, IfNone};
ghost use Rattle.std.specs.Int.{w64};
ghost use Rattle.std.specs.Fmt.{signed_decimal};

use itoa::Buffer;

/// The number whose decimal, without leading zeros, the text is.
pub fn decimal_of(text: &[u8]) -> Option<u64>
    ensures some { IfSome result (λ number. text.now ≡ decimal number) }
    ensures none { IfNone result ((number : ℕ) → number < 2 ^ 64 → text.now ≢ decimal number) }
{
    let Ok(word) = str::from_utf8(text) else {
        return None;
    };
    let Ok(number) = word.parse::<u64>() else {
        return None;
    };
    let is_spelled = Buffer::new().format(number).as_bytes() == text;
    is_spelled.then_some(number)
}

/// The number whose decimal, with `-` before a negative one and without leading zeros, the text is.
pub fn signed_decimal_of(text: &[u8]) -> Option<i64>
    ensures some { IfSome result (λ number. text.now ≡ signed_decimal number) }
    ensures none { IfNone result ((number : ℤ) → FitsSigned w64 number → text.now ≢ signed_decimal number) }
{
    let Ok(word) = str::from_utf8(text) else {
        return None;
    };
    let Ok(number) = word.parse::<i64>() else {
        return None;
    };
    let is_spelled = Buffer::new().format(number).as_bytes() == text;
    is_spelled.then_some(number)
}
