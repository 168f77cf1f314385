// Paper 01, 'Refusal numbers', and W2, W4 and W9 of paper 02, of streams: the tests of a stream's state, and the orders
// of a piece and of a finish. Those of the coax codes have a module.
#![tactic(auto)]

pub mod coax;

ghost use Rattle.std.specs.Prelude.{◌≡◌, ◌⊎◌, [], ◌∷◌, ◌+◌, ◌*◌, ◌≤◌, ◌<◌};
ghost use Rattle.rules.specs.Bits.{UnusedSet};
ghost use Rattle.rules.specs.Formats.{Format, fibre_format};
ghost use Rattle.rules.specs.Answers.{told};
ghost use Rattle.rules.specs.Refusals.{refusal, tells, of_piece, piece_order, finish_order};
ghost use Rattle.rules.specs.Streams.{stream_bytes};
ghost use Rattle.rules.specs.Terms as terms;

use rules::{Limits, Refusal, Stream, fibre};

// 6: with b bits more, a stream would hold more than the most.
fn above_with(held: usize, count: usize, most: usize) -> Result<(), Refusal>
    ensures { tells (refusal 6 (most < held + count) ∷ []) (told result) }
{
    if most < held || most - held < count {
        return Err(Refusal::TooMany);
    }
    Ok(())
}

// 7: a stream claims more bits than the most, or a 1 stands past the checks in use.
fn bad_state(stream: &Stream, limits: Limits) -> Result<(), Refusal>
    requires { limits.used ≤ 8 * stream_bytes }
    ensures { tells (refusal 7 ((limits.most < stream.now.held) ⊎ UnusedSet stream.now.checks limits.used) ∷ [])
        (told result) }
{
    if limits.most < stream.held {
        return Err(Refusal::State);
    }
    match bits::first_set(&stream.checks, limits.used, rules::STREAM_BITS) {
        Some(_) => Err(Refusal::State),
        None => Ok(()),
    }
}

// What a piece asks of any code, by its limits: 12, 7, 2, 3, 6.
pub fn piece_alone(
    stream: &Stream,
    limits: Limits,
    count: usize,
    bytes: &[u8],
) -> Result<(), Refusal>
    requires { limits.used ≤ 8 * stream_bytes }
    ensures { (f : Format) → limits ≡ terms.limits f → tells (of_piece f stream.now count bytes.now) (told result) }
{
    refusals::differs(stream.number, limits.number, Refusal::OtherCode)?;
    bad_state(stream, limits)?;
    refusals::differs(bytes.len(), bits::needed(count), Refusal::Bytes)?;
    refusals::unused_set(bytes, count)?;
    above_with(stream.held, count, limits.most)
}

// Piece: 16, 12, 7, 2, 3, 6.
pub fn piece(
    stream: &Stream,
    count: usize,
    bytes: &[u8],
    first: &[u8],
    second: &[u8],
) -> Result<(), Refusal>
    ensures { tells (piece_order (fibre_format first.now second.now) stream.now count bytes.now) (told result) }
{
    refusals::bad_lists(first, second)?;
    piece_alone(stream, fibre::limits(), count, bytes)
}

// Finish: 16, 12, 7, 1, 10, 4, 5.
pub fn finish(
    stream: &Stream,
    delimiter: usize,
    first: &[u8],
    second: &[u8],
    room: usize,
) -> Result<(), Refusal>
    ensures { tells (finish_order (fibre_format first.now second.now) stream.now delimiter room) (told result) }
{
    let held = stream.held;
    refusals::bad_lists(first, second)?;
    refusals::differs(stream.number, fibre::NUMBER, Refusal::OtherCode)?;
    bad_state(stream, fibre::limits())?;
    refusals::outside(held, fibre::PAYLOAD_LEAST, fibre::PAYLOAD_MOST)?;
    refusals::differs(held % fibre::DATA_BLOCK, 0, Refusal::Block)?;
    refusals::above(delimiter, fibre::DELIMITER_MOST, Refusal::Delimiter)?;
    refusals::above(fibre::TAIL_BYTES, room, Refusal::Room)
}
