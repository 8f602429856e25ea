//! The values of digits.
ghost use Rattle.std.specs.Prelude.{◌≡◌, ◌<◌, ◌≤◌};
ghost use Rattle.text_pieces.specs.Digits.{digit_value, value_from, capped_value};

/// A number that a text writes counts as no more than this.
const CAP: u64 = 4_294_967_296;

#[tactic(auto, unfolding(crate::specs::Digits::digit_value))]
fn digit_value(byte: u8) -> u64
    ensures value { result ≡ digit_value byte }
    ensures small { result < 256 }
{
    let digit = u64::from(byte);
    if byte >= b'a' {
        digit - 87
    } else if byte >= b'A' {
        digit - 55
    } else {
        digit.saturating_sub(48)
    }
}

/// The value of digits in a base, or the cap if that is less.
pub fn value(digits: &[u8], base: u64) -> u64
    requires some { 0 < base }
    requires few { base ≤ 16 }
    ensures value { result ≡ capped_value (value_from base 0 digits.now) }
    ensures small { result ≤ 4294967296 }
{
    let mut value = 0;
    for digit in digits {
        let next = value * base + digit_value(*digit);
        value = next.min(CAP);
    }
    value
}
