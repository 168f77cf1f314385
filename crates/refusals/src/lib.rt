// Paper 01, 'Refusal numbers', and W2 and W4 of paper 02.
// A test for each kind of refusal, and each operation's order of tests: the first that fails is the refusal, and the
// rest are not made. A test is given its limits.
// The orders here are the fibre code's; those of the coax codes have a module, and those of streams a crate.
#![tactic(auto)]

pub mod coax;

ghost use Rattle.std.specs.Prelude.{◌≡◌, ◌⊎◌, [], ◌∷◌, ◌-◌, ◌≤◌, ◌<◌, length};
ghost use Rattle.rules.specs.Bits.{need};
ghost use Rattle.rules.specs.Lists.{Listed};
ghost use Rattle.rules.specs.Matrix.{places, checks, places_of_payload};
ghost use Rattle.rules.specs.Table.{fibre};
ghost use Rattle.rules.specs.Formats.{fibre_format};
ghost use Rattle.rules.specs.Refusals.{refusal, tells, with_unused_set, some_shortened, of_lists};
ghost use Rattle.rules.specs.Refusals.{encode_order, complete_order, word_order, line_order};
ghost use Rattle.rules.specs.Answers.{told};
ghost use Rattle.rules.specs.Terms.{by_first};
ghost use Rattle.lists.specs.Picked.{Tested};
ghost use Rattle.refusals.specs.Tests.{Refuses};

use rules::{Refusal, fibre};

// A value that is above a limit: refusals 4 and 5.
pub fn above<E: Copy>(value: usize, limit: usize, why: E) -> Result<(), E>
    ensures { Refuses (limit < value) why result }
{
    if limit < value {
        return Err(why);
    }
    Ok(())
}

// A value that is another than it has to be: refusals 2, 10 and 12.
pub fn differs<E: Copy>(value: usize, other: usize, why: E) -> Result<(), E>
    ensures { Refuses (value ≡ other → ⊥) why result }
{
    if value != other {
        return Err(why);
    }
    Ok(())
}

// 1: a count that is below the least, or above the most.
pub fn outside(count: usize, least: usize, most: usize) -> Result<(), Refusal>
    ensures { tells (refusal 1 ((count < least) ⊎ (most < count)) ∷ []) (told result) }
{
    if count < least || most < count {
        return Err(Refusal::Count);
    }
    Ok(())
}

// 3: an unused high bit is 1. Where the bytes are as many as needed, all unused bits are in the last one, if it is not
// filled.
pub fn unused_set(s: &[u8], count: usize) -> Result<(), Refusal>
    ensures { length s.now ≡ need count → tells (with_unused_set s.now count ∷ []) (told result) }
{
    let last = count / 8;
    if s.len() <= last {
        return Ok(());
    }
    match bits::first_set(&s[last..last + 1], count % 8, 8) {
        Some(_) => Err(Refusal::UnusedBit),
        None => Ok(()),
    }
}

// 8: a shortened place is 1. The word's bytes have all the places, and the first list is one.
fn shortened_set(count: usize, word: &[u8], first: &[u8]) -> Result<(), Refusal>
    requires { (count ≤ places_of_payload fibre) × (length word.now ≡ need (places fibre))
        × Listed (places_of_payload fibre) first.now }
    ensures { tells (some_shortened (by_first first.now) count word.now ∷ []) (told result) }
{
    match lists::first_shortened(count, word, first) {
        Some(_) => Err(Refusal::Shortened),
        None => Ok(()),
    }
}

// A mark for each place that a list names, and one more.
const FIRST_MARKS: usize = fibre::PAYLOAD_PLACES + 1;

const SECOND_MARKS: usize = fibre::CHECKS + 1;

// Whether a list is one of the places that have these marks.
fn is_list<const MARKS: usize>(list: &[u8]) -> bool
    requires { (0 < MARKS) × (MARKS ≤ 65537) }
    ensures { Tested (MARKS - 1) list.now result }
{
    let mut marks = [0u8; MARKS];
    lists::reorders(list, MARKS - 1, &mut marks)
}

// 16: a list has another length, or is no reordering of its places. The program asks it of lists alone.
pub fn bad_lists(first: &[u8], second: &[u8]) -> Result<(), Refusal>
    ensures { tells (of_lists (fibre_format first.now second.now)) (told result) }
{
    if is_list::<FIRST_MARKS>(first) && is_list::<SECOND_MARKS>(second) {
        return Ok(());
    }
    Err(Refusal::Lists)
}

// Encode: 16, 1, 10, 2, 3, 4, 5.
pub fn encode(
    count: usize,
    payload: &[u8],
    delimiter: usize,
    first: &[u8],
    second: &[u8],
    room: usize,
) -> Result<(), Refusal>
    ensures { tells (encode_order (fibre_format first.now second.now) count payload.now
        delimiter room) (told result) }
{
    bad_lists(first, second)?;
    outside(count, fibre::PAYLOAD_LEAST, fibre::PAYLOAD_MOST)?;
    differs(count % fibre::DATA_BLOCK, 0, Refusal::Block)?;
    differs(payload.len(), bits::needed(count), Refusal::Bytes)?;
    unused_set(payload, count)?;
    above(delimiter, fibre::DELIMITER_MOST, Refusal::Delimiter)?;
    above(bits::needed(count + fibre::TAIL_BITS), room, Refusal::Room)
}

// Full-word check: 16, 1, 10, 2.
pub fn check_word(count: usize, word: &[u8], first: &[u8], second: &[u8]) -> Result<(), Refusal>
    ensures { tells (word_order (fibre_format first.now second.now) count word.now) (told result) }
{
    bad_lists(first, second)?;
    outside(count, fibre::PAYLOAD_LEAST, fibre::PAYLOAD_MOST)?;
    differs(count % fibre::DATA_BLOCK, 0, Refusal::Block)?;
    differs(word.len(), bits::needed(fibre::PLACES), Refusal::Bytes)
}

// Complete: 16, 1, 10, 2, as the full-word check; then 8.
pub fn complete(count: usize, word: &[u8], first: &[u8], second: &[u8]) -> Result<(), Refusal>
    ensures { tells (complete_order (fibre_format first.now second.now) count word.now) (told result) }
{
    check_word(count, word, first, second)?;
    shortened_set(count, word, first)
}

// Line check: 16, 1, 10, 2, 3, 4.
pub fn check_line(
    count: usize,
    line: &[u8],
    delimiter: usize,
    first: &[u8],
    second: &[u8],
) -> Result<(), Refusal>
    ensures { tells (line_order (fibre_format first.now second.now) count line.now delimiter) (told result) }
{
    bad_lists(first, second)?;
    outside(count, fibre::PAYLOAD_LEAST, fibre::PAYLOAD_MOST)?;
    differs(count % fibre::DATA_BLOCK, 0, Refusal::Block)?;
    differs(
        line.len(),
        bits::needed(count + fibre::TAIL_BITS),
        Refusal::Bytes,
    )?;
    unused_set(line, count + fibre::TAIL_BITS)?;
    above(delimiter, fibre::DELIMITER_MOST, Refusal::Delimiter)
}
