// Hexadecimal digits.
ghost use Rattle.std.specs.Prelude.{◌≡◌, ◌<◌, ◌^◌, ℕ};
ghost use Rattle.surf_base.specs.Hex.{hex_digit, hex8_text};

fn digit(value: u32) -> u8
    requires { value < 16 }
    ensures { result ≡ hex_digit value }
{
    let value = value as u8;
    if value < 10 {
        b'0' + value
    } else {
        b'a' - 10 + value
    }
}

/// The eight lower-case hexadecimal digits of a number, the highest first.
pub fn hex8(value: u32) -> [u8; 8]
    ensures digits { result ≡ hex8_text value }
    // Two numbers have two texts.
    ensures one { (other : ℕ) → other < 2 ^ 32 → hex8_text other ≡ result → other ≡ value }
{
    [
        digit(value / 0x1000_0000 % 16),
        digit(value / 0x100_0000 % 16),
        digit(value / 0x10_0000 % 16),
        digit(value / 0x1_0000 % 16),
        digit(value / 0x1000 % 16),
        digit(value / 0x100 % 16),
        digit(value / 0x10 % 16),
        digit(value % 16),
    ]
}
