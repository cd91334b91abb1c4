// Bytes and hexadecimal digits.
ghost use Rattle.std.specs.Prelude.{◌<◌};

const DIGITS: [u8; 16] = *b"0123456789abcdef";

// The byte of two digits.
pub(crate) fn byte(high: u8, low: u8) -> u8 {
    value(high) * 16 + value(low)
}

// The value of a digit, and 0 of any other byte. (`char::to_digit` takes capital letters, too.)
fn value(digit: u8) -> u8
    ensures { result < 16 }
{
    match digit {
        b'0'..=b'9' => digit - b'0',
        b'a'..=b'f' => digit - b'a' + 10,
        _ => 0,
    }
}

// The two digits of a byte.
pub(crate) fn digits(byte: u8) -> [u8; 2] {
    [
        DIGITS[usize::from(byte / 16)],
        DIGITS[usize::from(byte % 16)],
    ]
}
