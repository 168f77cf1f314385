// Hexadecimal digits, two a byte.
use crate::Expected;
use lessons::tally;

// Puts digit n into its byte, the high half first. A blank is passed over. Answers how many digits there are.
fn put_digit(bytes: &mut [u8], n: usize, byte: u8) -> Result<usize, Expected> {
    if byte == b' ' || byte == b'\t' {
        return Ok(n);
    }
    let value = char::from(byte).to_digit(16).ok_or(Expected::Digits)?;
    let at = n / 2;
    if bytes.len() <= at {
        return Err(Expected::Fewer);
    }
    if n % 2 == 0 {
        bytes[at] = 16 * value as u8;
        return Ok(n + 1);
    }
    bytes[at] = bytes[at] & 0xF0 | value as u8;
    Ok(tally::more(n))
}

// Puts the digits of a text after the first n. Answers how many there are then. Digits are expected where the text has
// anything else, or half a byte; fewer where there is no room.
pub fn put(bytes: &mut [u8], n: usize, text: &[u8]) -> Result<usize, Expected> {
    let mut count = n;
    for &byte in text {
        count = put_digit(bytes, count, byte)?;
    }
    if count % 2 == 1 {
        return Err(Expected::Digits);
    }
    Ok(count)
}
