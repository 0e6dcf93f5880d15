// Numbers as words give them: decimals without a sign, up to 2,147,483,647.
ghost use Rattle.std.specs.Prelude.{◌≡◌};
ghost use Rattle.asking.specs.Decimal.{appended_to, decimal_of};

// A number with one digit more, up to 2,147,483,647.
fn appended(value: u32, byte: u8) -> Option<u32>
    ensures { result ≡ appended_to value byte }
{
    if !byte.is_ascii_digit() {
        return None;
    }
    let next = value as u64 * 10 + (byte - b'0') as u64;
    if 2147483647 < next {
        return None;
    }
    Some(next as u32)
}

/// The number that a word of decimal digits is: from 0 to 2,147,483,647, and `None` for every other word.
pub fn decimal(word: &[u8]) -> Option<u32>
    ensures { result ≡ decimal_of word.now }
{
    if word.is_empty() {
        return None;
    }
    let mut value = 0;
    for byte in word {
        value = appended(value, *byte)?;
    }
    Some(value)
}
