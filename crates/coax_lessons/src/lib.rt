// The lessons of W8 and W9 of paper 02, run through the libraries for each coax code. What a lesson expects comes from
// the tables of source document 001 and from the orders of refusals.
#![tactic(auto)]

use codes::{Code, Served};
use lessons::expected::{fails, set};
use lessons::places;
use lessons::tally::Tally;
use rules::{CoaxCode, Refusal, Stream};

// Of a word with the bit at a place alone as many checks fail as these, and the lowest is the first of these.
fn is_checked(code: CoaxCode, place: usize, rows: &[usize]) -> bool {
    let [lowest, ..] = rows else {
        return false;
    };
    let mut word = [0u8; rules::coax::WORD_BYTES];
    set(&mut word, place);
    let word = codes::bytes_of(rules::coax::places(code), &word);
    coax::check(code, rules::coax::payload_places(code), word) == fails(*lowest, rows.len())
}

// A place is in these checks, and in no other.
fn is_place(code: CoaxCode, place: usize, rows: &[usize]) -> bool {
    if !is_checked(code, place, rows) {
        return false;
    }
    let served = Served {
        code: Code::Coax(code),
        lists: b"",
    };
    let bits = rules::coax::payload_places(code);
    if place < bits {
        return places::payload_place(served, bits, place, rows);
    }
    places::parity_place(served, bits, place - bits, rows)
}

// The word of a payload that is all 0 is all 0, and the bytes after it stay.
fn is_zero(code: CoaxCode) -> bool {
    let bits = rules::coax::payload_places(code);
    let payload = [0u8; rules::coax::PAYLOAD_BYTES];
    let mut word = [255u8; rules::coax::WORD_BYTES];
    let answer = coax::encode(code, bits, codes::bytes_of(bits, &payload), &mut word);
    let mut expected = [255u8; rules::coax::WORD_BYTES];
    bits::clear(
        &mut expected,
        codes::bytes_of(rules::coax::places(code), &word).len(),
    );
    answer.is_ok() && word == expected
}

// The finish of a stream that holds so many bits is refused by 1.
fn is_finish_refused(code: CoaxCode, count: usize) -> bool {
    let mut stream = Stream {
        held: count,
        ..coax::begin(code)
    };
    let mut tail = [0u8; rules::coax::PARITY_BYTES];
    coax::finish(code, &mut stream, &mut tail) == Err(Refusal::Count)
}

// Every operation that takes a count, and the finish, refuses this one by 1.
fn is_bad_count(code: CoaxCode, count: usize) -> bool {
    let payload = [0u8; rules::coax::PAYLOAD_BYTES];
    let payload = codes::bytes_of(count, &payload);
    let mut word = [0u8; rules::coax::WORD_BYTES];
    let n = codes::bytes_of(rules::coax::places(code), &word).len();
    coax::encode(code, count, payload, &mut word) == Err(Refusal::Count)
        && coax::check(code, count, &word[..n]) == Err(Refusal::Count)
        && coax::complete(code, count, &mut word[..n]) == Err(Refusal::Count)
        && is_finish_refused(code, count)
}

// A piece and the finish refuse a fresh stream of another code by 12.
fn is_other_code(code: CoaxCode, other: Code) -> bool {
    let mut stream = other.begin();
    let mut tail = [0u8; rules::coax::PARITY_BYTES];
    coax::piece(code, &mut stream, 0, b"") == Err(Refusal::OtherCode)
        && coax::finish(code, &mut stream, &mut tail) == Err(Refusal::OtherCode)
}

// A code's lessons are a table as they stand, a line each: what must hold, and its name. As fields of a table the names
// would need a type that keeps them short enough for their lines.
fn long(tally: &mut Tally) {
    let code = CoaxCode::Long;
    tally.lesson(is_place(code, 0, &[267, 446, 946, 1547]), b"16200 place 0");
    tally.lesson(is_place(code, 14400, &[217, 614]), b"16200 place 14400");
    tally.lesson(is_place(code, 16199, &[1799]), b"16200 place 16199");
    tally.lesson(is_zero(code), b"16200 all 0");
    tally.lesson(is_bad_count(code, 14399), b"16200 K 14399");
    tally.lesson(is_other_code(code, Code::Fibre), b"16200 fibre stream");
}

fn short(tally: &mut Tally) {
    let code = CoaxCode::Short;
    tally.lesson(
        is_place(code, 0, &[38, 306, 477, 692, 848]),
        b"5940 place 0",
    );
    tally.lesson(is_place(code, 5040, &[158, 259]), b"5940 place 5040");
    tally.lesson(is_place(code, 5939, &[880]), b"5940 place 5939");
    tally.lesson(is_zero(code), b"5940 all 0");
    tally.lesson(is_bad_count(code, 5039), b"5940 K 5039");
    let long = Code::Coax(CoaxCode::Long);
    tally.lesson(is_other_code(code, long), b"5940 16200 stream");
}

// All lessons, a line each.
pub fn run(tally: &mut Tally) {
    long(tally);
    short(tally);
}
