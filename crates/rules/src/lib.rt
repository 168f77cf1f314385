// The rules: the verdicts, the refusals and the stream that paper 01 names; and each code's numbers and table, a module
// for each code. What they mean is defined in specs/, a module for each section of the paper.
#![tactic(auto)]

pub mod coax;
pub mod fibre;

ghost use Rattle.std.specs.Prelude.{◌≡◌};
ghost use Rattle.rules.specs.Answers.{number};

// Why a word is not accepted: the lowest shortened place that is 1, the lowest failing row and how many rows fail, the
// lowest sent parity place that differs, or the lowest delimiter bit that differs.
#[derive(Clone, Copy, PartialEq, Eq)]
pub enum Cause {
    Shortened(usize),
    Check { row: usize, count: usize },
    Parity(usize),
    Delimiter(usize),
}

// An enum of its own, and no Option: paper 01 names the form, a verdict enum that holds a cause enum.
#[derive(Clone, Copy, PartialEq, Eq)]
pub enum Verdict {
    Accepted,
    Rejected(Cause),
}

// Why an operation is refused: the refusals of paper 01, W2, W4 and W9, each with its number there.
#[derive(Clone, Copy, Debug, PartialEq, Eq)]
pub enum Refusal {
    Count = 1,
    Bytes = 2,
    UnusedBit = 3,
    Delimiter = 4,
    Room = 5,
    TooMany = 6,
    State = 7,
    Shortened = 8,
    Block = 10,
    OtherCode = 12,
    Lists = 16,
}

impl Refusal {
    // The paper's number.
    pub fn number(self) -> usize
        ensures { result ≡ number self }
    {
        self as usize
    }
}

// The same, for whoever tells a refusal by a number.
impl From<Refusal> for u64 {
    ghost from_gives = { λ why told. told ≡ number why };

    fn from(why: Refusal) -> u64 {
        why.number() as u64
    }
}

// The two coax codes: the longer has words of 16,200 bits, the shorter of 5,940.
#[derive(Clone, Copy, PartialEq, Eq)]
pub enum CoaxCode {
    Long,
    Short,
}

// The bytes of running checks that a stream holds, and their bits.
pub const STREAM_BYTES: usize = 384;

pub const STREAM_BITS: usize = 3072;

// A stream: the number of the code that it serves, the payload bits held so far, and the running checks of them. The
// number is no enum, as a state may come from outside: any number in its bytes is a stream's (`state_single`).
#[derive(Clone, Copy, PartialEq, Eq)]
pub struct Stream {
    pub number: usize,
    pub held: usize,
    pub checks: [u8; STREAM_BYTES],
}

// What a code asks of a stream: its number, the most bits held, and how many running checks are in use.
#[derive(Clone, Copy)]
pub struct Limits {
    pub number: usize,
    pub most: usize,
    pub used: usize,
}
