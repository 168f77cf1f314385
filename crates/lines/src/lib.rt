// A line of text, put together in a buffer: words, numbers in decimal digits, and the end of the line. No line here is
// longer than 61 bytes: 20 of words, 40 of digits, and the end.
#![tactic(auto)]

ghost use Rattle.std.specs.Prelude.{◌≡◌, ◌++◌, [], ◌∷◌, ◌+◌, ◌≤◌, length, take};
ghost use Rattle.io.specs.Counts.{IsPrefixLen};
ghost use Rattle.lines.specs.Texts.{decimal, new_line, fact, facts, tally, numbered, shown};

use std::marker::Model;

// Puts words after the first n bytes of a buffer, and answers how many it has then. A path is no `Line`: it is longer,
// and its buffer is its caller's.
pub fn put(line: &mut [u8], n: usize, words: &[u8]) -> usize
    requires { n + length words.now ≤ length line.old }
    ensures value { result ≡ n + length words.now }
    ensures prefix_len { IsPrefixLen result line.new }
    ensures line_after { take result line.new ≡ take n line.old ++ words.now }
{
    let end = n + words.len();
    line[n..end].copy_from_slice(words);
    end
}

// The bytes put so far are the first `size`. A contract sees a line as the list of them.
#[derive(Drop)]
pub struct Line {
    bytes: [u8; 64],
    size: usize,
}

impl Model for Line {
    ghost use Rattle.std.specs.Prelude.{ℕ, ◌≤◌, List, take};

    ghost Value = { List ℕ };

    ghost view = { λ line. take line.size line.bytes };

    ghost invariant = { λ line. line.size ≤ 64 };
}

impl Line {
    pub fn new() -> Self
        ensures { result ≡ [] }
    {
        Line {
            bytes: [0; 64],
            size: 0,
        }
    }

    // Puts words after what the line has.
    pub fn push(&mut self, words: &[u8])
        requires { length self.old + length words.now ≤ 64 }
        ensures { self.new ≡ self.old ++ words.now }
    {
        self.size = put(&mut self.bytes, self.size, words);
    }

    // Puts a number after what the line has. It has at most 20 digits.
    fn push_number(&mut self, number: usize)
        requires { length self.old + 20 ≤ 64 }
        ensures upper_bound { length self.new ≤ length self.old + 20 }
        ensures line_after { self.new ≡ self.old ++ decimal number }
    {
        let mut digits = [0u8; 20];
        let k = io::decimal(number as u64, &mut digits);
        self.push(&digits[..k]);
    }

    pub fn as_bytes(&self) -> &[u8]
        ensures { result.now ≡ self.now }
    {
        &self.bytes[..self.size]
    }
}

// The line of words and more words, as `right place 255`.
pub fn plain(words: &[u8], more: &[u8]) -> Line
    requires { length words.now + length more.now ≤ 60 }
    ensures { result ≡ words.now ++ more.now ++ new_line }
{
    let mut line = Line::new();
    line.push(words);
    line.push(more);
    line.push(b"\n");
    line
}

// The line of one fact, as `written 354`.
pub fn one(words: &[u8], number: usize) -> Line
    requires { length words.now ≤ 20 }
    ensures { result ≡ fact words.now number }
{
    let mut line = Line::new();
    line.push(words);
    line.push_number(number);
    line.push(b"\n");
    line
}

// The line of two facts, as `check 176 fails 6`.
pub fn two(words: &[u8], number: usize, more: &[u8], count: usize) -> Line
    requires { length words.now + length more.now ≤ 20 }
    ensures { result ≡ facts words.now number more.now count }
{
    let mut line = Line::new();
    line.push(words);
    line.push_number(number);
    line.push(more);
    line.push_number(count);
    line.push(b"\n");
    line
}

// The line of a count, as `21 right`.
pub fn counted(number: usize, words: &[u8]) -> Line
    requires { length words.now ≤ 20 }
    ensures { result ≡ tally number words.now }
{
    let mut line = Line::new();
    line.push_number(number);
    line.push(words);
    line.push(b"\n");
    line
}

// The number of a byte, as `<10>`.
fn byte_number(byte: u8) -> Line
    ensures { result ≡ numbered byte }
{
    let mut line = Line::new();
    line.push(b"<");
    line.push_number(byte as usize);
    line.push(b">");
    line
}

fn plain_byte(byte: u8) -> Line
    ensures { result ≡ byte ∷ [] }
{
    let mut line = Line::new();
    line.push(&[byte]);
    line
}

// A byte of a name: as it is where it is printable, else its number.
pub fn byte(byte: u8) -> Line
    ensures { result ≡ shown byte }
{
    match byte {
        32..=126 => plain_byte(byte),
        _ => byte_number(byte),
    }
}
