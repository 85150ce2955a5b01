//! Numbers of a fixed count of digits.

ghost use Rattle.std.specs.Prelude.{◌≡◌, ◌^◌, ◌<◌, ◌≤◌, ◌↔◌, IsSome, IfSome, IsTrue, length};
ghost use Rattle.std.specs.List.{list_all};
ghost use Rattle.metering_model.specs.NumberText.{is_digit, number_of};

/// The number that up to four digits write, leading zeros among them; `None` where a byte is no digit. An empty text is
/// 0.
pub fn number(digits: &[u8]) -> Option<u16>
    requires { length digits.now ≤ 4 }
    ensures valid { IsSome result ↔ IsTrue (list_all is_digit digits.now) }
    ensures value { IfSome result (λ n. n ≡ number_of digits.now) }
    ensures below { IfSome result (λ n. n < 10 ^ length digits.now) }
{
    let mut number = 0;
    for digit in digits {
        if !digit.is_ascii_digit() {
            return None;
        }
        number = 10 * number + u16::from(*digit - b'0');
    }
    Some(number)
}
