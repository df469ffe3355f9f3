//! Numbers, as words write them.
ghost use Rattle.std.specs.Prelude.{◌↔◌, ℕ, IsTrue, MatchOption, slice_index};
ghost use Rattle.std.specs.Int.{IsInRange};
ghost use Rattle.app_words.specs.Numbers.{IsDecimal};

/// The number of 64 bits whose decimal text this is, without a sign and without a zero in front, or `None` where it is none's.
pub(crate) fn number_in(text: &str) -> Option<u64>
    ensures { MatchOption result ((n : ℕ) → ¬ (IsDecimal text.now n)) (λ n. IsDecimal text.now n) }
{
    if text == "0" {
        return Some(0);
    }
    if !begins_a_number(text.as_bytes()) {
        return None;
    }
    match text.parse::<u64>() {
        Ok(number) => Some(number),
        Err(_) => None,
    }
}

// Whether the first byte is a digit other than zero.
fn begins_a_number(text: &[u8]) -> bool
    ensures { IsTrue result ↔ IsInRange 49 57 (slice_index text.now 0) }
{
    matches!(text.first(), Some(b'1'..=b'9'))
}
