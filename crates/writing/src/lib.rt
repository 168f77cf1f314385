// Writes a line word: the payload's bits, then its tail, the sent parity and the delimiter, one run after another with
// no padding. A stream's finish writes the tail alone.
// Its functions serve the crates above, which show what they require; no user calls them.
#![tactic(auto)]

ghost use Rattle.std.specs.Prelude.{◌≡◌, ℕ, ◌+◌, ◌*◌, ◌≤◌, ◌<◌, length};
ghost use Rattle.rules.specs.Bits.{bit, need, placed, Written, Adds};
ghost use Rattle.rules.specs.Lists.{Listed};
ghost use Rattle.rules.specs.Matrix.{checks};
ghost use Rattle.rules.specs.Table.{fibre};
ghost use Rattle.rules.specs.Formats.{fibre_kept};
ghost use Rattle.rules.specs.Words.{padded, outgoing, tail, tail_bits};
ghost use Rattle.rules.specs.Terms.{by_second};
ghost use Rattle.writing.specs.Digits.{digit_bytes};

use rules::fibre;

// Begins a word of `all` bits: the payload's bits, and zeros where its tail will be. For any code.
pub fn write_payload(line: &mut [u8], all: usize, count: usize, payload: &[u8])
    requires { (count ≤ all) × (count ≤ 8 * length payload.now) × (need all ≤ length line.old) }
    ensures { Written all (padded count (bit payload.now)) line.old line.new }
{
    line[..bits::needed(all)].fill(0);
    bits::put_first(line, payload, count);
}

// The delimiter's bits, the lowest first.
pub fn digits_of(delimiter: usize) -> [u8; 2]
    ensures { result ≡ digit_bytes delimiter }
{
    let [low, high, ..] = delimiter.to_le_bytes();
    [low, high]
}

// The sent parity: the first of the bits that go out, picked by the second list.
pub fn pick_sent(parity: &[u8], second: &[u8]) -> [u8; fibre::SENT_BYTES]
    requires { (length parity.now ≡ need (checks fibre)) × Listed (checks fibre) second.now }
    ensures { (n : ℕ) → n < fibre_kept.sent → bit result n ≡ outgoing (by_second second.now) parity.now n }
{
    let mut sent = [0u8; fibre::SENT_BYTES];
    lists::pick(&mut sent, second, parity);
    sent
}

// Adds the fibre code's tail, the sent parity and then the delimiter, to the bits from `at` on.
pub fn add_tail(line: &mut [u8], at: usize, parity: &[u8], delimiter: usize, second: &[u8])
    requires { (at ≤ fibre_kept.most) × (at + tail_bits fibre_kept ≤ 8 * length line.old)
        × (length parity.now ≡ need (checks fibre)) × Listed (checks fibre) second.now }
    ensures { Adds line.old line.new
        (placed at (tail_bits fibre_kept) (tail (by_second second.now) parity.now delimiter)) }
{
    let sent = pick_sent(parity, second);
    bits::add_run(line, at, &sent, 0, fibre::SENT_PLACES);
    let digits = digits_of(delimiter);
    bits::add_run(
        line,
        at + fibre::SENT_PLACES,
        &digits,
        0,
        fibre::DELIMITER_PLACES,
    );
}

// Writes the tail alone.
pub fn write_tail(to: &mut [u8], parity: &[u8], delimiter: usize, second: &[u8])
    requires { (need (tail_bits fibre_kept) ≤ length to.old) × (length parity.now ≡ need (checks fibre))
        × Listed (checks fibre) second.now }
    ensures { Written (tail_bits fibre_kept) (tail (by_second second.now) parity.now delimiter)
        to.old to.new }
{
    to[..fibre::TAIL_BYTES].fill(0);
    add_tail(to, 0, parity, delimiter, second);
}
