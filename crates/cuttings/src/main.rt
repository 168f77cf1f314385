// Feeds one payload to the stream by many cuttings, and compares. The payload has 1,285 bits, and goes in pieces of 1,
// 7, 8, 9, 255, 256 and 257 bits (the last one shorter), with an empty piece and a refused one after each. After every
// piece the stream must be what a fresh stream becomes by the same first bits as one single piece. The finish must
// write what encode writes after the payload. All this by the pair of lists that changes nothing, and some of it by one
// that is made up: both lists reversed. Then come the lessons of paper 01's sheet on a full stream and on a fresh one.
// Each line says first whether its fact is right; the last two say how many are right and how many are wrong.
#![tactic(auto)]

ghost use Rattle.std.specs.Prelude.{◌≡◌, cond, ◌+◌, ◌-◌, ◌*◌, ◌^◌, ◌≤◌, ◌<◌, min, length};
ghost use Rattle.cuttings.specs.Tallies.{Tells};

use rules::{Refusal, Stream, fibre};
use std::array;
use std::fmt::Display;

// The payload's bits: 160 bytes and 5 bits.
const K: usize = 1285;

const PAYLOAD_BYTES: usize = 161;

type Payload = [u8; PAYLOAD_BYTES];

// The delimiter of every finish but the last lesson's.
const DELIMITER: usize = 682;

// The bytes of a tail, 322, and 8 after them, which the finish leaves.
const ROOM: usize = 330;

// What stands in a buffer before it is written to.
const BLANK: u8 = 165;

// How many facts the program tells.
const FACTS: usize = 23;

// How many facts were right, and how many wrong.
#[derive(Drop)]
struct Tally {
    right: usize,
    wrong: usize,
}

impl Tally {
    // Says whether a fact is right, and counts it. A line that was not written is no fact of the streams'.
    fn tell(&mut self, rt: &impl Print, is_right: bool, fact: impl Display + Drop)
        ensures right { self.new.right ≡ cond is_right (min (self.old.right + 1) (2 ^ 64 - 1)) self.old.right }
        ensures wrong { self.new.wrong ≡ cond is_right self.old.wrong (min (self.old.wrong + 1) (2 ^ 64 - 1)) }
        ensures told { Tells 1 self.old self.new }
    {
        let word = if is_right {
            self.right = self.right.saturating_add(1);
            "right"
        } else {
            self.wrong = self.wrong.saturating_add(1);
            "wrong"
        };
        let _ = println!(rt; "{word} {fact}");
    }
}

// A pair of lists, by which a stream is fed and finished.
#[derive(Clone, Copy)]
struct Pair<'a> {
    first: &'a [u8],
    second: &'a [u8],
}

// A stream on its way, and whether every answer and every state up to here was right.
#[derive(Clone, Copy)]
struct Way {
    stream: Stream,
    right: bool,
}

// Byte i of the payload. The last, byte 160, is 11: its three unused high bits are 0.
fn payload_byte(i: usize) -> u8
    requires { i < 161 }
{
    ((37 * i + 235) % 256) as u8
}

// Makes a list that turns the order of its places round. An entry has two bytes, the low one first.
fn fill_reversed(list: &mut [u8], places: u16)
    requires { length list.old ≡ 2 * places }
{
    for (place, entry) in (0..places).rev().zip(list.chunks_exact_mut(2)) {
        entry.copy_from_slice(&place.to_le_bytes());
    }
}

impl Pair<'_> {
    // Hands the stream a piece.
    fn piece(self, stream: &mut Stream, count: usize, bytes: &[u8]) -> Result<(), Refusal> {
        stream::piece(stream, count, bytes, self.first, self.second)
    }

    fn finish(self, stream: &mut Stream, delimiter: usize, tail: &mut [u8]) -> Result<(), Refusal> {
        stream::finish(stream, delimiter, self.first, self.second, tail)
    }

    // Cuts `count` bits out of the payload, those from `at` on, and hands them to the stream as a piece.
    fn feed(
        self,
        stream: &mut Stream,
        payload: &Payload,
        at: usize,
        count: usize,
    ) -> Result<(), Refusal>
        requires { at + count ≤ 1285 }
    {
        let mut bytes = [0u8; PAYLOAD_BYTES];
        bits::add_run(&mut bytes, 0, payload, at, count);
        self.piece(stream, count, &bytes[0..bits::needed(count)])
    }

    // Whether a stream is right after the pieces that end at `end`: so many bits held, and the stream what a fresh one
    // becomes by the same first bits as one single piece.
    fn is_fed(self, stream: Stream, payload: &Payload, end: usize) -> bool
        requires { end ≤ 1285 }
    {
        let mut whole = stream::begin();
        let _ = self.feed(&mut whole, payload, 0, end);
        whole.held == end && stream == whole
    }

    // Feeds the payload in pieces of so many bits.
    fn feed_all(self, payload: &Payload, size: usize) -> Way
        requires { 0 < size }
    {
        let mut way = Way {
            stream: stream::begin(),
            right: true,
        };
        for at in (0..K).step_by(size) {
            way.take_piece(self, payload, at, size.min(K - at));
        }
        way
    }

    // What encode writes after the payload: 2,570 bits in 322 bytes. The 8 bytes after them stay.
    fn tail(self, payload: &Payload) -> Result<[u8; ROOM], Refusal> {
        let mut line = [0u8; 482];
        line::encode(K, payload, DELIMITER, self.first, self.second, &mut line)?;
        let mut tail = [BLANK; ROOM];
        bits::clear(&mut tail, fibre::TAIL_BYTES);
        bits::add_run(&mut tail, 0, &line, K, 2570);
        Ok(tail)
    }

    // Whether the finish is right: 322 bytes written, those that encode writes after the payload, and the 8 after them
    // left; a fresh stream; and a second finish refused, with nothing changed.
    fn is_finished(self, mut stream: Stream, payload: &Payload) -> bool {
        let mut written = [BLANK; ROOM];
        let done = self.finish(&mut stream, DELIMITER, &mut written);
        if done.is_err() || stream != stream::begin() {
            return false;
        }
        let again = self.finish(&mut stream, DELIMITER, &mut written);
        if again != Err(Refusal::Count) || stream != stream::begin() {
            return false;
        }
        self.tail(payload) == Ok(written)
    }
}

impl Way {
    // A piece that changes nothing: an empty one, which is done, or one that is refused.
    fn take_idle(&mut self, pair: Pair, count: usize, bytes: &[u8], expected: Result<(), Refusal>) {
        let before = self.stream;
        let answer = pair.piece(&mut self.stream, count, bytes);
        self.right &= answer == expected && self.stream == before;
    }

    // The next piece of the payload, and after it an empty one, and one of 9 bits in a single byte, which is refused.
    fn take_piece(&mut self, pair: Pair, payload: &Payload, at: usize, count: usize)
        requires { at + count ≤ 1285 }
    {
        let answer = pair.feed(&mut self.stream, payload, at, count);
        self.right &= answer.is_ok() && pair.is_fed(self.stream, payload, at + count);
        self.take_idle(pair, 0, b"", Ok(()));
        self.take_idle(pair, 9, b"U", Err(Refusal::Bytes));
    }
}

// The two facts of a cutting by the lists of this name: its states, and its finish.
fn try_cutting(
    rt: &impl Print,
    tally: &mut Tally,
    payload: &Payload,
    size: usize,
    lists: &str,
    pair: Pair,
)
    requires { 0 < size }
    ensures { Tells 2 tally.old tally.new }
{
    let way = pair.feed_all(payload, size);
    tally.tell(
        rt,
        way.right,
        format_args!("{lists}cut {size} at a time, states"),
    );
    let stream = way.stream;
    let finished = pair.is_finished(stream, payload);
    tally.tell(
        rt,
        finished,
        format_args!("{lists}cut {size} at a time, finish"),
    );
}

// Some cuttings, by a pair of which both lists are reversed, and then all, by the pair that changes nothing, which
// stays in the lists.
fn try_cuttings(
    rt: &impl Print,
    tally: &mut Tally,
    first: &mut [u8; fibre::FIRST_BYTES],
    second: &mut [u8; fibre::SECOND_BYTES],
)
    ensures { Tells 20 tally.old tally.new }
{
    let payload: Payload = array::from_fn(payload_byte);
    fill_reversed(first, fibre::PAYLOAD_PLACES as u16);
    fill_reversed(second, fibre::CHECKS as u16);
    let reversed = Pair { first, second };
    for size in [9, 255, 257] {
        try_cutting(rt, tally, &payload, size, "reversed ", reversed);
    }
    lists::fill_plain(first, fibre::PAYLOAD_PLACES);
    lists::fill_plain(second, fibre::CHECKS);
    let plain = Pair { first, second };
    for size in [1, 7, 8, 9, 255, 256, 257] {
        try_cutting(rt, tally, &payload, size, "", plain);
    }
}

// Lesson: 14,392 held, and a piece of 0 bits, then of 1 bit.
fn try_full(rt: &impl Print, tally: &mut Tally, pair: Pair)
    ensures { Tells 2 tally.old tally.new }
{
    let full = Stream {
        number: fibre::NUMBER,
        held: fibre::PAYLOAD_MOST,
        checks: [BLANK; rules::STREAM_BYTES],
    };
    let mut stream = full;
    let none = pair.piece(&mut stream, 0, b"");
    tally.tell(
        rt,
        none.is_ok() && stream == full,
        "14392 held, piece of 0 bits",
    );
    let mut stream = full;
    let one = pair.piece(&mut stream, 1, b"\x01");
    tally.tell(
        rt,
        one == Err(Refusal::TooMany) && stream == full,
        "14392 held, piece of 1 bit",
    );
}

// Lesson: the finish of a fresh stream with delimiter 1,024.
fn try_fresh(rt: &impl Print, tally: &mut Tally, pair: Pair)
    ensures { Tells 1 tally.old tally.new }
{
    let mut stream = stream::begin();
    let mut written = [BLANK; fibre::TAIL_BYTES];
    let answer = pair.finish(&mut stream, 1024, &mut written);
    let is_left = stream == stream::begin() && written == [BLANK; fibre::TAIL_BYTES];
    tally.tell(
        rt,
        answer == Err(Refusal::Count) && is_left,
        "fresh finish, delimiter 1024",
    );
}

// Whether a line could be written does not change the exit status.
fn main(rt: HostRuntime) {
    let mut first = [0u8; fibre::FIRST_BYTES];
    let mut second = [0u8; fibre::SECOND_BYTES];
    let mut tally = Tally { right: 0, wrong: 0 };
    try_cuttings(&rt, &mut tally, &mut first, &mut second);
    let plain = Pair {
        first: &first,
        second: &second,
    };
    try_full(&rt, &mut tally, plain);
    try_fresh(&rt, &mut tally, plain);
    prove!(tally.right + tally.wrong == FACTS);
    let _ = println!(rt; "{} right", tally.right);
    let _ = println!(rt; "{} wrong", tally.wrong);
}
