// Files of vectors (docs/VECTORS.md): each payload is encoded, and the line word compared with the one given. A line
// may name the lists that those after it are encoded by.
#![tactic(auto)]

mod digits;
mod words;

ghost use Rattle.std.specs.Prelude.{◌≡◌, ◌/◌, ◌≤◌, length, take, IfSome};
ghost use Rattle.codes.specs.Codes.{pair_bytes};

use answers::{Said, Status};
use codes::{Code, Served, pair};
use console::decimals::NotNumber;
use console::{arguments, decimals, files, say};
use kinds::System;
use lessons::tally;
use lessons::tally::Tally;

// What was expected of a line that is not as it should be.
#[derive(Clone, Copy)]
enum Expected {
    Word,
    Number,
    Smaller,
    Digits,
    Fewer,
    NoMore,
    End,
    Lists,
}

impl From<NotNumber> for Expected {
    fn from(why: NotNumber) -> Expected {
        match why {
            NotNumber::Nothing => Expected::Number,
            NotNumber::TooLarge => Expected::Smaller,
        }
    }
}

// What was read of a vector. The payload and the line are counts of hexadecimal digits.
#[derive(Clone, Copy)]
struct Vector {
    bits: usize,
    delimiter: usize,
    payload: usize,
    line: usize,
}

// Before its first line. What a vector does not say is refused: it has no payload bits, and a delimiter that is none.
impl Default for Vector {
    fn default() -> Vector {
        Vector {
            bits: 0,
            delimiter: 1024,
            payload: 0,
            line: 0,
        }
    }
}

// What was read of the file so far: the vector that a line has opened, how many bytes of lists, and how many vectors
// were run. The lists are no slice: later lines write to their room.
#[derive(Clone, Copy)]
struct Reading {
    open: Option<Vector>,
    lists: usize,
    vectors: usize,
    tally: Tally,
}

// Whether the payload is encoded into this line word.
fn is_right(served: Served, bits: usize, payload: &[u8], delimiter: usize, line: &[u8]) -> bool {
    let mut made = [0u8; rules::fibre::LINE_BYTES];
    let answer = served.encode(bits, payload, delimiter, &mut made);
    answer.is_ok() && served.code.encoded(bits, &made) == line
}

// The bytes that so many digits take, two a byte.
fn bytes_of(digits: usize, bytes: &[u8]) -> &[u8]
    ensures { result.now ≡ take (digits / 2) bytes.now }
{
    &bytes[..(digits / 2).min(bytes.len())]
}

// The line of a vector.
fn said(right: bool, vector: usize) -> Status {
    if right {
        return say::answer(Said::RightVector(vector));
    }
    say::answer(Said::WrongVector(vector))
}

// The lists, so many bytes, which were read into a room.
fn listed(lists: usize, room: &[u8]) -> &[u8]
    ensures { result.now ≡ take lists room.now }
{
    &room[..lists.min(room.len())]
}

// The end of a vector: it is run, and its line said.
fn end(reading: Reading, payload: &[u8], line: &[u8], lists: &[u8]) -> Reading {
    let vector = reading.open.unwrap_or_default();
    let vectors = tally::more(reading.vectors);
    let served = Served {
        code: Code::Fibre,
        lists: listed(reading.lists, lists),
    };
    let right = is_right(
        served,
        vector.bits,
        bytes_of(vector.payload, payload),
        vector.delimiter,
        bytes_of(vector.line, line),
    );
    Reading {
        open: None,
        vectors,
        tally: tally::count(reading.tally, right, said(right, vectors)),
        ..reading
    }
}

// A line that names lists: they are read, and hold from there on. It opens no vector.
fn take_lists(
    rt: &impl System,
    reading: Reading,
    name: &[u8],
    lists: &mut [u8],
) -> Result<Reading, Expected>
    requires { pair_bytes ≤ length lists.old }
{
    let read = pair::read_at(rt, name, lists).ok_or(Expected::Lists)?;
    Ok(Reading {
        lists: read.len(),
        ..reading
    })
}

// A line that ends a vector.
fn take_end(
    reading: Reading,
    rest: &[u8],
    payload: &[u8],
    line: &[u8],
    lists: &[u8],
) -> Result<Reading, Expected> {
    if !rest.is_empty() {
        return Err(Expected::NoMore);
    }
    Ok(end(reading, payload, line, lists))
}

// A line of a vector, by its first word and what comes after it.
fn take_words(
    reading: Reading,
    name: &[u8],
    rest: &[u8],
    payload: &mut [u8],
    line: &mut [u8],
) -> Result<Reading, Expected> {
    let mut vector = reading.open.unwrap_or_default();
    match name {
        b"bits" => vector.bits = decimals::read(rest)?,
        b"delimiter" => vector.delimiter = decimals::read(rest)?,
        b"payload" => vector.payload = digits::put(payload, vector.payload, rest)?,
        b"line" => vector.line = digits::put(line, vector.line, rest)?,
        _ => return Err(Expected::Word),
    }
    Ok(Reading {
        open: Some(vector),
        ..reading
    })
}

// One line of the file. An empty one, and one that begins with #, says nothing.
fn take_line(
    rt: &impl System,
    reading: Reading,
    text: &[u8],
    payload: &mut [u8],
    line: &mut [u8],
    lists: &mut [u8],
) -> Result<Reading, Expected>
    requires { pair_bytes ≤ length lists.old }
{
    let n = words::content(text);
    let words = &text[0..n];
    let from = words::find(words, 0, words::is_word);
    if from == n || words[from] == b'#' {
        return Ok(reading);
    }
    let to = words::find(words, from, words::is_blank);
    let rest = words::find(words, to, words::is_word);
    let rest = &words[rest..n];
    match &words[from..to] {
        b"lists" => take_lists(rt, reading, rest, lists),
        b"end" => take_end(reading, rest, payload, line, lists),
        name => take_words(reading, name, rest, payload, line),
    }
}

// Says what was expected.
fn say_expected(expected: Expected) -> Status {
    say::text(match expected {
        Expected::Word => b"expected lists, bits, delimiter,\npayload, line or end\n",
        Expected::Number => b"expected a number in decimal digits\n",
        Expected::Smaller => b"expected a smaller number\n",
        Expected::Digits => b"expected two hexadecimal digits a byte\n",
        Expected::Fewer => b"expected fewer digits\n",
        Expected::NoMore => b"expected nothing after end\n",
        Expected::Lists => b"expected plain, or a file of lists\n",
        Expected::End => b"expected end\n",
    })
}

// The tally after the first line that is not as expected.
fn wrong(tally: Tally, line: usize, expected: Expected) -> Tally {
    let status = say::answer(Said::WrongLine(line));
    tally::count(tally, false, status.max(say_expected(expected)))
}

// The tally after the last line. A vector that is still open is wrong.
fn told(reading: Reading, lines: usize) -> Tally {
    let mut tally = reading.tally;
    if reading.open.is_some() {
        return wrong(tally, lines, Expected::End);
    }
    if reading.vectors == 0 {
        tally.status = tally.status.max(say::answer(Said::NoVectors));
    }
    tally
}

// Runs every vector of a text, a line each. It stops at the first line that is not as expected.
pub fn run(rt: &impl System, text: &[u8], tally: Tally) -> Tally {
    let mut payload = [0u8; 1800];
    let mut line = [0u8; 2122];
    let mut lists = io::large_buffer();
    let mut reading = Reading {
        open: None,
        lists: pair::fill_plain(&mut lists),
        vectors: 0,
        tally,
    };
    let mut lines = 0;
    for whole in text[words::begin(text)..].split_inclusive(|&byte| byte == b'\n') {
        lines = tally::more(lines);
        let taken = take_line(
            rt,
            reading,
            whole.strip_suffix(b"\n").unwrap_or(whole),
            &mut payload,
            &mut line,
            &mut lists,
        );
        match taken {
            Ok(later) => reading = later,
            Err(expected) => return wrong(reading.tally, lines, expected),
        }
    }
    told(reading, lines)
}

// Reads the file of vectors that an argument names, or else vectors.txt in this folder, if it is there. No file has no
// vectors.
pub fn read<'a>(rt: &impl System, room: &'a mut [u8]) -> Option<&'a [u8]>
    ensures { IfSome result (λ text. length text.now ≤ length room.old) }
{
    if arguments::count(rt) == 3 {
        return Some(files::read(rt, 2, room)?);
    }
    if files::known(rt, b"vectors.txt").is_ok() {
        return Some(files::read_at(rt, b"vectors.txt", room)?);
    }
    Some(b"")
}
