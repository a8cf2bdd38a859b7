//! Words of eight lower-case hexadecimal digits.
ghost use Rattle.std.specs.Prelude.{◌≡◌, ◌<◌, IfSome};
ghost use Rattle.replay.specs.Lines.{digit as digit_spec, two_digits as two_spec, four_digits as four_spec, word_of as word_spec, spaced_word as spaced_spec};

fn digit(byte: u8) -> Option<u32>
    ensures value { result ≡ digit_spec byte }
    ensures below { IfSome result (λ value. value < 16) }
{
    match byte {
        b'0'..=b'9' => Some(u32::from(byte - b'0')),
        b'a'..=b'f' => Some(u32::from(byte - 87)),
        _ => None,
    }
}

fn two_digits(high: u8, low: u8) -> Option<u32>
    ensures value { result ≡ two_spec high low }
    ensures below { IfSome result (λ value. value < 256) }
{
    match digit(high) {
        None => None,
        Some(high) => match digit(low) {
            None => None,
            Some(low) => Some(high * 16 + low),
        },
    }
}

fn four_digits(high: (u8, u8), low: (u8, u8)) -> Option<u32>
    ensures value { result ≡ four_spec high.0 high.1 low.0 low.1 }
    ensures below { IfSome result (λ value. value < 65536) }
{
    match two_digits(high.0, high.1) {
        None => None,
        Some(high) => match two_digits(low.0, low.1) {
            None => None,
            Some(low) => Some(high * 256 + low),
        },
    }
}

/// The word that eight digits write.
pub(crate) fn word_of(digits: &[u8]) -> Option<u32>
    ensures { result ≡ word_spec digits.now }
{
    match digits {
        [a, b, c, d, e, f, g, h] => match four_digits((*a, *b), (*c, *d)) {
            None => None,
            Some(high) => match four_digits((*e, *f), (*g, *h)) {
                None => None,
                Some(low) => Some(high * 65_536 + low),
            },
        },
        _ => None,
    }
}

/// The word behind a space.
pub(crate) fn spaced_word(text: &[u8]) -> Option<u32>
    ensures { result ≡ spaced_spec text.now }
{
    match text {
        [] => None,
        [byte, digits @ ..] => { if *byte == b' ' { word_of(digits) } else { None } }
    }
}
