//! Whole numbers without sign and leading zero.

ghost use Rattle.std.specs.Prelude.{◌≡◌, ◌<◌, ◌≤◌, IsTrue, IfSome, MatchOption};
ghost use Rattle.std.specs.List.{list_all};
ghost use Rattle.metering_model.specs.NumberText.{is_digit, is_whole_part, number_of};
ghost use Rattle.metering_model.specs.BatchReading.{whole_in};

/// Whether each byte is a digit.
fn are_digits(text: &[u8]) -> bool
    ensures { result ≡ list_all is_digit text.now }
{
    text.iter().all(|c| *c >= b'0' && *c <= b'9')
}

/// Whether the text is `0`, or digits of which the first is not `0`.
pub fn is_whole_part(text: &[u8]) -> bool
    ensures { result ≡ is_whole_part text.now }
{
    match text {
        [] => false,
        [digit] => *digit >= b'0' && *digit <= b'9',
        [first, rest @ ..] => *first >= b'0'
            && *first <= b'9'
            && *first != b'0'
            && are_digits(rest),
    }
}

/// The number that digits write, unless it is above the limit.
fn number_within(digits: &[u8], limit: u64) -> Option<u64>
    requires digits { IsTrue (list_all is_digit digits.now) }
    requires small { limit < 1_000_000_000_000 }
    ensures { MatchOption result (limit < number_of digits.now)
        (λ n. (n ≡ number_of digits.now) × (n ≤ limit)) }
{
    let mut number = 0;
    for digit in digits {
        number = 10 * number + u64::from(*digit - b'0');
        if number > limit {
            return None;
        }
    }
    Some(number)
}

/// The whole number that a text writes; None where it is none, or above the limit, which is below 10^12.
pub fn whole_up_to(text: &[u8], limit: u64) -> Option<u64>
    requires { limit < 1_000_000_000_000 }
    ensures { MatchOption result (IsTrue (is_whole_part text.now) → limit < number_of text.now)
        (λ n. IsTrue (is_whole_part text.now) × (n ≡ number_of text.now) × (n ≤ limit)) }
{
    if is_whole_part(text) {
        number_within(text, limit)
    } else {
        None
    }
}

/// The whole number from `low` to `high` that a text writes, else None. `high` is at most 1,000,000.
pub fn read_whole(text: &[u8], low: u32, high: u32) -> Option<u32>
    requires { high ≤ 1_000_000 }
    ensures value { result ≡ whole_in low high text.now }
    ensures within { IfSome result (λ n. n ≤ high) }
{
    let number = whole_up_to(text, u64::from(high))? as u32;
    if number < low { None } else { Some(number) }
}
