// The lesson sheet of paper 01, with what W2, W3 and W4 of paper 02 change, run through the libraries.
// What a lesson expects is the sheet's. All are lent the pair of lists that changes nothing, but the last one of the
// refusals.
use crate::expected::{fails, set, shortened};
use crate::tally::Tally;
use crate::{places, tally};
use codes::{Code, Served, pair};
use rules::{CoaxCode, Refusal, Stream, Verdict, fibre};

// The fibre code, which is lent these lists.
fn fibre_by(lists: &[u8]) -> Served {
    Served {
        code: Code::Fibre,
        lists,
    }
}

fn payload_place(served: Served, place: usize, rows: &[usize]) -> bool {
    places::payload_place(served, fibre::PAYLOAD_MOST, place, rows)
}

// What the check of a full word answers where it has only the bit at a place.
fn check_only(served: Served, place: usize, count: usize) -> Result<Verdict, Refusal> {
    let mut word = [0u8; fibre::WORD_BYTES];
    set(&mut word, place);
    codes::check_word(served.lists, count, &word)
}

fn all_zero(served: Served) -> bool {
    let word = [0u8; fibre::WORD_BYTES];
    codes::check_word(served.lists, 257, &word) == Ok(Verdict::Accepted)
}

// K 257, payload bytes 0, delimiter 1,023: 352 bytes of 00, then FE 07.
fn least_payload(served: Served) -> bool {
    let payload = [0u8; 33];
    let mut line = [255u8; 354];
    let answer = served.encode(257, &payload, 1023, &mut line);
    let mut expected = [0u8; 354];
    expected[352] = 0xFE;
    expected[353] = 0x07;
    answer.is_ok() && line == expected
}

// Every operation that takes a K refuses this one, with these lists, by this refusal.
fn bad_count(served: Served, count: usize, why: Refusal) -> bool {
    let bytes = [0u8; 1800];
    let mut line = [0u8; 2122];
    let mut word = [0u8; fibre::WORD_BYTES];
    served.encode(count, &bytes, 0, &mut line) == Err(why)
        && codes::check_line(served.lists, count, &line, 0) == Err(why)
        && served.complete(count, &mut word) == Err(why)
        && codes::check_word(served.lists, count, &word) == Err(why)
}

// Every operation but `begin` refuses lists of no bytes by 16: those that take a K also where it would be refused by 1,
// the piece and the finish also where the stream would be by 7.
fn no_lists() -> bool {
    let mut claimed = Stream {
        number: fibre::NUMBER,
        held: 14393,
        checks: [0u8; rules::STREAM_BYTES],
    };
    let served = fibre_by(b"");
    bad_count(served, 0, Refusal::Lists)
        && served.piece(&mut claimed, 1, b"") == Err(Refusal::Lists)
        && finish(served, claimed, 1024) == Err(Refusal::Lists)
}

fn unused_bit(served: Served) -> bool {
    let mut payload = [0u8; 33];
    payload[32] = 0x02;
    let mut line = [0u8; 354];
    let answer = served.encode(257, &payload, 1024, &mut line);
    answer == Err(Refusal::UnusedBit)
}

// A whole payload of 1,799 bytes, into the room there is.
fn whole_payload(served: Served, line: &mut [u8]) -> Result<(), Refusal> {
    let payload = [255u8; 1799];
    served.encode(fibre::PAYLOAD_MOST, &payload, 0, line)
}

fn room_enough(served: Served) -> bool {
    let mut line = [0u8; fibre::LINE_BYTES];
    whole_payload(served, &mut line).is_ok()
}

fn room_too_short(served: Served) -> bool {
    let mut line = [0u8; 2120];
    whole_payload(served, &mut line) == Err(Refusal::Room)
}

// What a stream becomes by a piece.
fn fed(served: Served, mut stream: Stream, count: usize, piece: &[u8]) -> Stream {
    let _ = served.piece(&mut stream, count, piece);
    stream
}

// What a stream with 14,392 bits held answers to a piece.
fn full_then(served: Served, count: usize, piece: &[u8]) -> Result<(), Refusal> {
    let payload = [255u8; 1799];
    let mut full = fed(served, served.code.begin(), fibre::PAYLOAD_MOST, &payload);
    served.piece(&mut full, count, piece)
}

// What the finish of a stream answers.
fn finish(served: Served, mut stream: Stream, delimiter: usize) -> Result<(), Refusal> {
    let mut tail = [0u8; fibre::TAIL_BYTES];
    served.finish(&mut stream, delimiter, &mut tail)
}

// The places.
fn places(tally: &mut Tally, served: Served) {
    let first = [176, 919, 1655, 2304, 2607, 3019];
    tally.lesson(payload_place(served, 0, &first), b"place 0");
    let last_of_block = [175, 918, 1654, 2559, 2606, 3018];
    tally.lesson(payload_place(served, 255, &last_of_block), b"place 255");
    let next_block = [256, 677, 1110, 1490, 1930, 2096];
    tally.lesson(payload_place(served, 256, &next_block), b"place 256");
    let last = [311, 1214, 2677];
    tally.lesson(payload_place(served, 14391, &last), b"place 14391");
    let parity = [551, 1024, 1633];
    tally.lesson(
        places::parity_place(served, 257, 0, &parity),
        b"place 14592",
    );
}

// Full words.
fn words(tally: &mut Tally, served: Served) {
    tally.lesson(all_zero(served), b"all 0, K 257");
    let first = check_only(served, 0, 257);
    tally.lesson(first == fails(176, 6), b"only bit 0, K 257");
    let past = check_only(served, 257, 257);
    tally.lesson(past == shortened(257), b"only bit 257, K 257");
    let past_most = check_only(served, 14392, 14392);
    tally.lesson(past_most == shortened(14392), b"only bit 14392, K 14392");
    let parity = check_only(served, 14592, 257);
    tally.lesson(parity == fails(551, 3), b"only bit 14592, K 257");
}

// Line words and refusals.
fn lines(tally: &mut Tally, served: Served) {
    tally.lesson(least_payload(served), b"K 257, bytes 00, delimiter 1023");
    tally.lesson(bad_count(served, 0, Refusal::Count), b"K 0");
    tally.lesson(bad_count(served, 14393, Refusal::Count), b"K 14393");
    tally.lesson(bad_count(served, 1, Refusal::Block), b"K 1");
    tally.lesson(unused_bit(served), b"K 257, last 02, delimiter 1024");
    tally.lesson(room_enough(served), b"K 14392, room 2121");
    tally.lesson(room_too_short(served), b"K 14392, room 2120");
    tally.lesson(no_lists(), b"lists of 0 bytes");
}

fn streams(tally: &mut Tally, served: Served) {
    let none = full_then(served, 0, b"");
    tally.lesson(none.is_ok(), b"14392 held, piece of 0");
    let one = full_then(served, 1, b"\0");
    tally.lesson(one == Err(Refusal::TooMany), b"14392 held, piece of 1");
    let fresh = served.code.begin();
    tally.lesson(
        finish(served, fresh, 1024) == Err(Refusal::Count),
        b"fresh finish, delimiter 1024",
    );
    let held = fed(served, fresh, 1, b"\0");
    tally.lesson(
        finish(served, held, 1024) == Err(Refusal::Block),
        b"1 held, finish, delimiter 1024",
    );
    let coax = Code::Coax(CoaxCode::Long).begin();
    tally.lesson(
        finish(served, coax, 1024) == Err(Refusal::OtherCode),
        b"coax stream, finish as fibre",
    );
}

// All lessons, a line each.
pub fn run() -> Tally {
    let mut room = [0u8; pair::BYTES];
    let size = pair::fill_plain(&mut room);
    let served = fibre_by(&room[..size]);
    let mut tally = tally::new();
    places(&mut tally, served);
    words(&mut tally, served);
    lines(&mut tally, served);
    streams(&mut tally, served);
    tally
}
