//! Numbers as words: `0x` and hexadecimal digits, or decimal digits.
ghost use Rattle.std.specs.Prelude.{◌≡◌, ◌≤◌};
ghost use Rattle.text_lines.specs.Numbers.{digit_of, number_of_digits, hexadecimal_of, number_of};

/// The most digits of a hexadecimal number.
const HEXADECIMAL_DIGITS: usize = 16;

/// The most digits of a decimal number.
const DECIMAL_DIGITS: usize = 20;

/// The value of a digit, of either case, below the base.
fn digit_of(base: u64, byte: u8) -> Option<u64>
    ensures { result ≡ digit_of base byte }
{
    let digit = match byte {
        b'0'..=b'9' => byte - b'0',
        b'a'..=b'f' => byte - b'a' + 10,
        b'A'..=b'F' => byte - b'A' + 10,
        _ => return None,
    };
    let digit = u64::from(digit);
    if digit < base { Some(digit) } else { None }
}

/// The number that digits write, where all bytes are digits and it is below 2^64.
fn number_of_digits(base: u64, bytes: &[u8]) -> Option<u64>
    requires { 1 ≤ base }
    ensures { result ≡ number_of_digits base bytes.now }
{
    let mut number = 0u64;
    for byte in bytes {
        let digit = digit_of(base, *byte)?;
        number = number.checked_mul(base)?.checked_add(digit)?;
    }
    Some(number)
}

/// The number of `0x` and 1 to 16 hexadecimal digits.
pub fn hexadecimal_of(word: &[u8]) -> Option<u64>
    ensures { result ≡ hexadecimal_of word.now }
{
    let digits = word.strip_prefix(b"0x")?;
    if digits.is_empty() || digits.len() > HEXADECIMAL_DIGITS {
        return None;
    }
    number_of_digits(16, digits)
}

/// The number of a word: `0x` and 1 to 16 hexadecimal digits, or 1 to 20 decimal digits with a
/// value below 2^64.
pub fn number_of(word: &[u8]) -> Option<u64>
    ensures { result ≡ number_of word.now }
{
    if word.starts_with(b"0x") {
        return hexadecimal_of(word);
    }
    if word.is_empty() || word.len() > DECIMAL_DIGITS {
        return None;
    }
    number_of_digits(10, word)
}
