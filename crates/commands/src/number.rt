//! Numbers in words.
ghost use Rattle.std.specs.Prelude.{◌<◌, ◌-◌, ◌^◌};
ghost use Rattle.commands.specs.Numbers.{FindsDigit, FindsNumber, FindsValue};

/// The numbers that a word of a row may be: of so many digits at most, zeros before others among them, and from the least to the most.
#[derive(Clone, Copy)]
pub struct Range {
    pub digits: u32,
    pub least: u64,
    pub most: u64,
}

/// The number of a range that a word is.
pub fn number_in(range: Range, word: &str) -> Option<u64>
    requires below { range.most < 2 ^ 64 - 1 }
    ensures { FindsNumber range word.now result }
{
    let digits = word.as_bytes();
    if digits.is_empty() || digits.len() > range.digits as usize {
        return None;
    }
    let number = value_of(digits)?;
    if number < range.least || range.most < number {
        return None;
    }
    Some(number)
}

// The value of decimal digits, which stops at 2^64 - 1.
fn value_of(digits: &[u8]) -> Option<u64>
    ensures { FindsValue digits.now result }
{
    let mut value = 0u64;
    for digit in digits {
        value = value.saturating_mul(10).saturating_add(digit_of(*digit)?);
    }
    Some(value)
}

// The value of a decimal digit.
fn digit_of(byte: u8) -> Option<u64>
    ensures { FindsDigit byte result }
{
    if byte < b'0' || b'9' < byte {
        return None;
    }
    Some((byte - b'0') as u64)
}
