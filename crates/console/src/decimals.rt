// Decimal numbers, as texts and arguments spell them.
ghost use Rattle.std.specs.Prelude.{◌≡◌, length};
ghost use Rattle.std.specs.Io.{StartsWith};
ghost use Rattle.rules.specs.Formats.{fibre_kept};
ghost use Rattle.console.specs.Spelled.{WithDigit, WithByte, Spelled};
ghost use Rattle.console.specs.Lines.{bytes_of_line};

use crate::say;
use std::env::FillError;
use std::rt::Env;

// Why a text spells no number: it is nothing of the kind; or the number is above the largest usize.
#[derive(Clone, Copy, PartialEq, Eq)]
pub enum NotNumber {
    Nothing,
    TooLarge,
}

impl NotNumber {
    // What is said of it, after a name and before what to type.
    fn words(self) -> &'static [u8] {
        match self {
            NotNumber::Nothing => b" is no number; type ",
            NotNumber::TooLarge => b" is too large; type ",
        }
    }
}

// A number with one digit more.
fn with_digit(value: usize, byte: u8) -> Result<usize, NotNumber>
    ensures { WithDigit value byte result }
{
    if !byte.is_ascii_digit() {
        return Err(NotNumber::Nothing);
    }
    let digit = usize::from(byte - b'0');
    value
        .checked_mul(10)
        .and_then(|tens| tens.checked_add(digit))
        .ok_or(NotNumber::TooLarge)
}

// What a text spells with one byte more. The largest usize stands for a number too large: with a digit more it is one,
// and with any other byte nothing is spelled.
fn with_byte(number: Result<usize, NotNumber>, byte: u8) -> Result<usize, NotNumber>
    ensures { WithByte number byte result }
{
    match number {
        Ok(value) => with_digit(value, byte),
        Err(NotNumber::Nothing) => number,
        Err(NotNumber::TooLarge) => with_digit(usize::MAX, byte),
    }
}

// The number that a text spells in digits.
pub fn read(text: &[u8]) -> Result<usize, NotNumber>
    ensures { Spelled text.now result }
{
    if text.is_empty() {
        return Err(NotNumber::Nothing);
    }
    let mut number = Ok(0);
    for &byte in text {
        number = with_byte(number, byte);
    }
    number
}

// The number that an argument of more than 64 bytes spells. One that is longer than the room is too large, if it begins
// as a number.
fn spelled_long(rt: &impl Env, i: usize) -> Result<usize, NotNumber> {
    let mut text = io::large_buffer();
    match rt.arg(i, &mut text) {
        Ok(n) => read(&text[..n]),
        Err(FillError::NotPresent) => Err(NotNumber::Nothing),
        Err(FillError::TooLong) => read(&text).and(Err(NotNumber::TooLarge)),
    }
}

// The number that an argument spells. Few are long, and a large buffer takes time to clear.
fn spelled(rt: &impl Env, i: usize) -> Result<usize, NotNumber> {
    let mut text = [0u8; 64];
    match rt.arg(i, &mut text) {
        Ok(n) => read(&text[..n]),
        Err(FillError::NotPresent) => Err(NotNumber::Nothing),
        Err(FillError::TooLong) => spelled_long(rt, i),
    }
}

// The number that an argument spells. What is wrong with it is said, with its name and the numbers to type.
pub fn argument(rt: &impl Env, i: usize, name: &[u8], range: &[u8]) -> Option<usize> {
    match spelled(rt, i) {
        Ok(number) => Some(number),
        Err(why) => {
            say::wrong(name, why.words(), range);
            None
        }
    }
}

// The bytes of a line that the line word of so many payload bits takes, whatever the lists. There is one for the most
// payload bits at most.
pub fn line_bytes(bits: usize, line: &[u8]) -> &[u8]
    ensures front { StartsWith line.now result.now }
    ensures value { length result.now ≡ bytes_of_line fibre_kept bits (length line.now) }
{
    if rules::fibre::PAYLOAD_MOST < bits {
        return b"";
    }
    let size = bits::needed(bits + rules::fibre::TAIL_BITS).min(line.len());
    &line[..size]
}
