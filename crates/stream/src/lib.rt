// The stream of the fibre code: a payload that arrives in pieces, cut anywhere. Its running checks are complete after
// every piece.
#![tactic(auto)]

ghost use Rattle.std.specs.Prelude.{◌≡◌, ◌+◌, ◌≤◌, length};
ghost use Rattle.rules.specs.Bits.{bit, need, placed, Packed, Adds};
ghost use Rattle.rules.specs.Lists.{Listed};
ghost use Rattle.rules.specs.Matrix.{checks, places_of_payload, check};
ghost use Rattle.rules.specs.Table.{fibre};
ghost use Rattle.rules.specs.Formats.{fibre_kept, fibre_format};
ghost use Rattle.rules.specs.Words.{reordered, tail_bits};
ghost use Rattle.rules.specs.Terms.{by_first, by_second};
ghost use Rattle.rules.specs.Streams.{fresh};
ghost use Rattle.rules.specs.Answers.{outcome};
ghost use Rattle.rules.specs.Promises.{TailWritten, PieceTaken, Finished};

use rules::{Refusal, Stream, fibre};

// A fresh stream of the code that has this number: 0 bits held, and 384 zero bytes of running checks.
pub fn fresh(number: usize) -> Stream
    ensures { result ≡ fresh number }
{
    Stream {
        number: number,
        held: 0,
        checks: [0u8; rules::STREAM_BYTES],
    }
}

// A fresh stream of the fibre code.
pub fn begin() -> Stream
    ensures { result ≡ fresh fibre_kept.number }
{
    fresh(fibre::NUMBER)
}

// Takes a piece of so many bits.
pub fn piece(
    stream: &mut Stream,
    count: usize,
    bytes: &[u8],
    first: &[u8],
    second: &[u8],
) -> Result<(), Refusal>
    ensures { PieceTaken (fibre_format first.now second.now) count bytes.now stream.old
        (outcome result stream.new) }
{
    stream_refusals::piece(stream, count, bytes, first, second)?;
    running::fibre::add_piece(&mut stream.checks, stream.held, count, bytes, first);
    stream.held += count;
    Ok(())
}

// Writes the tail of the parity whose own checks are the running checks.
fn write_tail(sums: &[u8; rules::STREAM_BYTES], delimiter: usize, second: &[u8], tail: &mut [u8])
    requires { Listed (checks fibre) second.now × (need (tail_bits fibre_kept) ≤ length tail.old) }
    ensures { TailWritten (by_second second.now) sums.now delimiter tail.old
        tail.new }
{
    let mut parity = [0u8; fibre::PARITY_BYTES];
    parity::solve(sums, &mut parity);
    writing::write_tail(tail, &parity, delimiter, second);
}

// Finishes: writes the tail, the sent parity and the delimiter, and leaves a fresh stream.
pub fn finish(
    stream: &mut Stream,
    delimiter: usize,
    first: &[u8],
    second: &[u8],
    tail: &mut [u8],
) -> Result<(), Refusal>
    ensures { Finished (fibre_format first.now second.now) delimiter stream.old tail.old
        (outcome result stream.new) tail.new }
{
    stream_refusals::finish(stream, delimiter, first, second, tail.len())?;
    write_tail(&stream.checks, delimiter, second, tail);
    *stream = fresh(fibre::NUMBER);
    Ok(())
}
