// Line words of the fibre code: encode a payload, and check a line word.
#![tactic(auto)]

ghost use Rattle.std.specs.Prelude.{◌+◌, ◌*◌, ◌≤◌, ◌≡◌, length};
ghost use Rattle.rules.specs.Bits.{bit, need};
ghost use Rattle.rules.specs.Lists.{Listed};
ghost use Rattle.rules.specs.Matrix.{checks, places_of_payload};
ghost use Rattle.rules.specs.Table.{fibre};
ghost use Rattle.rules.specs.Formats.{fibre_kept, fibre_format};
ghost use Rattle.rules.specs.Words.{padded, reordered, Parity, line_bits};
ghost use Rattle.rules.specs.Verdicts.{TailVerdict, LineVerdict};
ghost use Rattle.rules.specs.Asked.{EncodeAsks, LineAsks};
ghost use Rattle.rules.specs.Answers.{answer};
ghost use Rattle.rules.specs.Judgements.{judgement};
ghost use Rattle.rules.specs.Promises.{LineWritten, Encoded, LineChecked};
ghost use Rattle.rules.specs.Terms.{by_first, by_second};

use rules::{Cause, Refusal, Verdict, fibre};

// Finds the parity of a payload, so many first bits of some bytes, whatever stands after them there.
fn find_parity(count: usize, payload: &[u8], first: &[u8]) -> [u8; fibre::PARITY_BYTES]
    requires { (count ≤ fibre_kept.most) × (count ≤ 8 * length payload.now)
        × Listed (places_of_payload fibre) first.now }
    ensures { Parity fibre (reordered (by_first first.now) (padded count (bit payload.now))) result }
{
    let mut sums = [0u8; fibre::PARITY_BYTES];
    running::fibre::add_piece(&mut sums, 0, count, payload, first);
    let mut parity = [0u8; fibre::PARITY_BYTES];
    parity::solve(&sums, &mut parity);
    parity
}

// Writes a line word.
fn write(
    count: usize,
    payload: &[u8],
    delimiter: usize,
    first: &[u8],
    second: &[u8],
    line: &mut [u8],
)
    requires { EncodeAsks (fibre_format first.now second.now) count payload.now delimiter (length line.old) }
    ensures { LineWritten (fibre_format first.now second.now) count payload.now delimiter
        line.old line.new }
{
    let parity = find_parity(count, payload, first);
    writing::write_payload(line, count + fibre::TAIL_BITS, count, payload);
    writing::add_tail(line, count, &parity, delimiter, second);
}

// Encodes a payload of so many bits.
pub fn encode(
    count: usize,
    payload: &[u8],
    delimiter: usize,
    first: &[u8],
    second: &[u8],
    line: &mut [u8],
) -> Result<(), Refusal>
    ensures { Encoded (fibre_format first.now second.now) count payload.now delimiter
        line.old (answer result) line.new }
{
    refusals::encode(count, payload, delimiter, first, second, line.len())?;
    write(count, payload, delimiter, first, second, line);
    Ok(())
}

// Compares a line word's tail with the parity and the delimiter: the parity comes first.
fn compare(
    count: usize,
    line: &[u8],
    parity: &[u8; fibre::PARITY_BYTES],
    delimiter: usize,
    second: &[u8],
) -> Verdict
    requires { (count ≤ fibre_kept.most) × (line_bits fibre_kept count ≤ 8 * length line.now)
        × Listed (checks fibre) second.now }
    ensures { TailVerdict (by_second second.now) count line.now delimiter parity.now result }
{
    let sent = writing::pick_sent(parity, second);
    if let Some(place) = bits::first_difference(line, count, &sent, 0, fibre::SENT_PLACES) {
        return Verdict::Rejected(Cause::Parity(place));
    }
    let digits = writing::digits_of(delimiter);
    let from = count + fibre::SENT_PLACES;
    match bits::first_difference(line, from, &digits, 0, fibre::DELIMITER_PLACES) {
        Some(digit) => Verdict::Rejected(Cause::Delimiter(digit)),
        None => Verdict::Accepted,
    }
}

// The verdict on a line word.
fn judge(count: usize, line: &[u8], delimiter: usize, first: &[u8], second: &[u8]) -> Verdict
    requires { LineAsks (fibre_format first.now second.now) count line.now delimiter }
    ensures { LineVerdict (fibre_format first.now second.now) count line.now delimiter result }
{
    let parity = find_parity(count, line, first);
    compare(count, line, &parity, delimiter, second)
}

// Checks a line word with so many payload bits.
pub fn check(
    count: usize,
    line: &[u8],
    delimiter: usize,
    first: &[u8],
    second: &[u8],
) -> Result<Verdict, Refusal>
    ensures { LineChecked (fibre_format first.now second.now) count line.now delimiter (judgement result) }
{
    refusals::check_line(count, line, delimiter, first, second)?;
    Ok(judge(count, line, delimiter, first, second))
}
