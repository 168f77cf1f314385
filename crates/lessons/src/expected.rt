// What the lessons share: the verdicts that they expect, and bits that are set in bytes.
ghost use Rattle.std.specs.Prelude.{◌≡◌, Ok};

use rules::{Cause, Refusal, Verdict};

// A word's lowest shortened place that is 1.
pub fn shortened(place: usize) -> Result<Verdict, Refusal>
    ensures { result ≡ Ok (Verdict.Rejected (Cause.Shortened place)) }
{
    Ok(Verdict::Rejected(Cause::Shortened(place)))
}

// A word's lowest failing row, and how many rows fail.
pub fn fails(row: usize, count: usize) -> Result<Verdict, Refusal>
    ensures { result ≡ Ok (Verdict.Rejected (Cause.Check row count)) }
{
    Ok(Verdict::Rejected(Cause::Check { row, count }))
}

// Sets the bit at a place that the bytes have: a run of one bit is added, so that a place outside of what was cleared,
// or one that is named twice, is no bit that is set.
pub fn set(bytes: &mut [u8], place: usize) {
    if place / 8 < bytes.len() {
        bits::add_run(bytes, place, b"\x01", 0, 1);
    }
}

pub fn set_all(bytes: &mut [u8], places: &[usize]) {
    for &place in places {
        set(bytes, place);
    }
}
