// Whether a place is in the checks expected, and in no other, of any code: by a piece, or by the finish of a stream.
// The places are inner ones. By the pair that changes nothing, which the fibre code is lent here, they are outer ones
// too.
use crate::expected::{set, set_all};
use codes::Served;
use rules::{Stream, fibre};

// A payload place is in these checks: they are the running checks of a payload of so many bits with that bit alone.
pub fn payload_place(served: Served, bits: usize, place: usize, rows: &[usize]) -> bool {
    let mut payload = [0u8; fibre::PAYLOAD_BYTES];
    set(&mut payload, place);
    let mut stream = served.code.begin();
    let answer = served.piece(&mut stream, bits, codes::bytes_of(bits, &payload));
    let mut expected = [0u8; rules::STREAM_BYTES];
    set_all(&mut expected, rows);
    answer.is_ok() && stream.checks == expected
}

// A sent parity place is in these checks: of running checks with these rows alone, it is the sent parity. A stream that
// holds so many bits can be finished.
pub fn parity_place(served: Served, bits: usize, place: usize, rows: &[usize]) -> bool {
    let mut checks = [0u8; rules::STREAM_BYTES];
    set_all(&mut checks, rows);
    let mut stream = Stream {
        held: bits,
        checks,
        ..served.code.begin()
    };
    let mut tail = [255u8; fibre::TAIL_BYTES];
    let answer = served.finish(&mut stream, 0, &mut tail);
    let mut expected = [255u8; fibre::TAIL_BYTES];
    bits::clear(&mut expected, served.code.finished(&tail).len());
    set(&mut expected, place);
    answer.is_ok() && tail == expected
}
