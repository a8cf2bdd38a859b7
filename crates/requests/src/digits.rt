//! Hexadecimal digits.
ghost use Rattle.std.specs.Prelude.{◌≡◌};
ghost use Rattle.requests.specs.Words.{address as address_spec};

/// What 1 to 8 hexadecimal digits of either case write.
pub fn address(digits: &[u8]) -> Option<u32>
    ensures { result ≡ address_spec digits.now }
{
    if digits.is_empty() {
        return None;
    }
    if digits.len() > 8 {
        return None;
    }
    let mut value = 0;
    let mut rest = digits;
    'digits: while let Some((digit, after)) = rest.split_first() {
        match char::from(*digit).to_digit(16) {
            None => return None,
            Some(digit) => {
                value = value * 16 + digit;
                rest = after;
            }
        }
    }
    Some(value)
}
