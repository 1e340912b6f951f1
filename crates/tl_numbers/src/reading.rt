//! Reading of numbers.
ghost use Rattle.std.specs.Prelude.{◌≡◌, IfSome, IfNone, true, false};
ghost use Rattle.tl_numbers.specs.HexText.{is_digit, digit_value, IsHexText, hex_value};

/// The most digits of a number below 2^32.
const MOST_DIGITS: usize = 8;

// The value of a lower-case digit.
fn digit_of(byte: u8) -> Option<u32>
    ensures value { IfSome result (λ d. (is_digit byte ≡ true) × (digit_value byte ≡ d)) }
    ensures none { IfNone result (is_digit byte ≡ false) }
{
    match byte {
        b'0'..=b'9' => Some((byte - b'0') as u32),
        b'a'..=b'f' => Some((byte - b'a') as u32 + 10),
        _ => None,
    }
}

/// The number that one to eight lower-case hexadecimal digits spell.
pub fn read_hex(text: &[u8]) -> Option<u32>
    ensures value { IfSome result (λ number. IsHexText text.now × (hex_value text.now ≡ number)) }
    ensures none { IfNone result (IsHexText text.now → ⊥) }
{
    if text.is_empty() || text.len() > MOST_DIGITS {
        return None;
    }
    let mut number = 0;
    for byte in text {
        number = number * 16 + digit_of(*byte)?;
    }
    Some(number)
}
