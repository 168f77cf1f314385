// The codes that the program serves: the fibre code and the two coax codes. How CODE names one, what BITS may be, and
// each operation by its code, so that a command is written once for all of them.
#![tactic(auto)]

pub mod pair;

ghost use Rattle.std.specs.Prelude.{◌≡◌, ◌≤◌, length};
ghost use Rattle.std.specs.Io.{StartsWith};
ghost use Rattle.rules.specs.Answers.{answer, outcome};
ghost use Rattle.rules.specs.Judgements.{judgement};
ghost use Rattle.rules.specs.Promises.{WordChecked, LineChecked};
ghost use Rattle.rules.specs.Streams.{fresh};
ghost use Rattle.codes.specs.Codes.{NamedBy, number_of, fibre_in, EncodedBy, CompletedBy, TakenBy, FinishedBy};

use console::decimals;
use rules::{CoaxCode, Refusal, Stream, Verdict};
use std::rt::Env;

#[derive(Clone, Copy)]
pub enum Code {
    Fibre,
    Coax(CoaxCode),
}

// The code that a command serves, and the pair of lists that it was lent, both joined to one slice. A coax code has no
// lists, and does not read it.
#[derive(Clone, Copy)]
pub struct Served<'a> {
    pub code: Code,
    pub lists: &'a [u8],
}

// What stands for the delimiter of a coax word, which has none. It is not read.
pub const NO_DELIMITER: usize = 0;

// What CODE names: a coax code, by the bits of its words, or nothing.
pub fn find(name: &[u8]) -> Option<CoaxCode>
    ensures { NamedBy name.now result }
{
    match name {
        b"16200" => Some(CoaxCode::Long),
        b"5940" => Some(CoaxCode::Short),
        _ => None,
    }
}

// The bytes of a buffer that so many bits take. No word has more bits than the fibre code's full word; more take none.
pub fn bytes_of(bits: usize, buffer: &[u8]) -> &[u8]
    ensures front { StartsWith buffer.now result.now }
    ensures within { length result.now ≤ length buffer.now }
{
    if rules::fibre::PLACES < bits {
        return &buffer[..0];
    }
    &buffer[..bits::needed(bits).min(buffer.len())]
}

impl Code {
    // The BITS of a whole payload, argument i.
    pub fn payload_bits(self, rt: &impl Env, i: usize) -> Option<usize> {
        let range: &[u8] = match self {
            Code::Fibre => b"257 to 14392",
            Code::Coax(CoaxCode::Long) => b"14400",
            Code::Coax(CoaxCode::Short) => b"5040",
        };
        decimals::argument(rt, i, b"BITS", range)
    }

    // The BITS of a piece, argument i.
    pub fn piece_bits(self, rt: &impl Env, i: usize) -> Option<usize> {
        let range: &[u8] = match self {
            Code::Fibre => b"0 to 14392",
            Code::Coax(CoaxCode::Long) => b"0 to 14400",
            Code::Coax(CoaxCode::Short) => b"0 to 5040",
        };
        decimals::argument(rt, i, b"BITS", range)
    }

    // What encode has written to a buffer, for so many payload bits.
    pub fn encoded(self, bits: usize, buffer: &[u8]) -> &[u8]
        ensures front { StartsWith buffer.now result.now }
        ensures within { length result.now ≤ length buffer.now }
    {
        match self {
            Code::Fibre => decimals::line_bytes(bits, buffer),
            Code::Coax(coax) => bytes_of(rules::coax::places(coax), buffer),
        }
    }

    // A fresh stream.
    pub fn begin(self) -> Stream
        ensures { result ≡ fresh (number_of self) }
    {
        match self {
            Code::Fibre => stream::begin(),
            Code::Coax(coax) => coax::begin(coax),
        }
    }

    // What finish has written to a buffer.
    pub fn finished(self, buffer: &[u8]) -> &[u8]
        ensures front { StartsWith buffer.now result.now }
        ensures within { length result.now ≤ length buffer.now }
    {
        match self {
            Code::Fibre => bytes_of(rules::fibre::TAIL_BITS, buffer),
            Code::Coax(coax) => bytes_of(rules::coax::checks(coax), buffer),
        }
    }
}

impl Served<'_> {
    // Encodes a payload.
    pub fn encode(
        &self,
        bits: usize,
        payload: &[u8],
        delimiter: usize,
        word: &mut [u8],
    ) -> Result<(), Refusal>
        ensures { EncodedBy self.now.code self.now.lists.now bits payload.now delimiter word.old
            (answer result) word.new }
    {
        match self.code {
            Code::Fibre => {
                let (first, second) = pair::split(self.lists);
                line::encode(bits, payload, delimiter, first, second, word)
            }
            Code::Coax(coax) => coax::encode(coax, bits, payload, word),
        }
    }

    // Completes a word.
    pub fn complete(&self, bits: usize, word: &mut [u8]) -> Result<(), Refusal>
        ensures { CompletedBy self.now.code self.now.lists.now bits word.old (answer result) word.new }
    {
        match self.code {
            Code::Fibre => {
                let (first, second) = pair::split(self.lists);
                word::complete(bits, word, first, second)
            }
            Code::Coax(coax) => coax::complete(coax, bits, word),
        }
    }

    // Takes a piece of a stream.
    pub fn piece(&self, stream: &mut Stream, bits: usize, bytes: &[u8]) -> Result<(), Refusal>
        ensures { TakenBy self.now.code self.now.lists.now bits bytes.now stream.old (outcome result stream.new) }
    {
        match self.code {
            Code::Fibre => {
                let (first, second) = pair::split(self.lists);
                stream::piece(stream, bits, bytes, first, second)
            }
            Code::Coax(coax) => coax::piece(coax, stream, bits, bytes),
        }
    }

    // Finishes a stream.
    pub fn finish(
        &self,
        stream: &mut Stream,
        delimiter: usize,
        tail: &mut [u8],
    ) -> Result<(), Refusal>
        ensures { FinishedBy self.now.code self.now.lists.now delimiter stream.old tail.old
            (outcome result stream.new) tail.new }
    {
        match self.code {
            Code::Fibre => {
                let (first, second) = pair::split(self.lists);
                stream::finish(stream, delimiter, first, second, tail)
            }
            Code::Coax(coax) => coax::finish(coax, stream, tail),
        }
    }
}

// Checks a full word of the fibre code. A coax word is checked by its own crate's operation, so the checks here have no
// code to choose, and take the lists alone.
pub fn check_word(lists: &[u8], bits: usize, word: &[u8]) -> Result<Verdict, Refusal>
    ensures { WordChecked (fibre_in lists.now) bits word.now (judgement result) }
{
    let (first, second) = pair::split(lists);
    word::check(bits, word, first, second)
}

// Checks a line word.
pub fn check_line(
    lists: &[u8],
    bits: usize,
    line: &[u8],
    delimiter: usize,
) -> Result<Verdict, Refusal>
    ensures { LineChecked (fibre_in lists.now) bits line.now delimiter (judgement result) }
{
    let (first, second) = pair::split(lists);
    line::check(bits, line, delimiter, first, second)
}
