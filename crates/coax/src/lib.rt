// The two coax codes of W8 of paper 02: encode a payload, complete a word in place, check a word; take a piece of a
// stream, and finish it. Each operation is told which of the codes it serves.
#![tactic(auto)]

ghost use Rattle.std.specs.Prelude.{◌≡◌, ℕ, ◌+◌, ◌*◌, ◌≤◌, length};
ghost use Rattle.rules.specs.Bits.{bit, need, zeros, run, placed, Packed, Adds};
ghost use Rattle.rules.specs.Matrix.{places, checks, places_of_payload, check};
ghost use Rattle.rules.specs.Verdicts.{WordVerdict};
ghost use Rattle.rules.specs.Streams.{fresh};
ghost use Rattle.rules.specs.Answers.{answer, outcome};
ghost use Rattle.rules.specs.Judgements.{judgement};
ghost use Rattle.rules.specs.Promises.{Completion, LineWritten, TailWritten, PieceTaken};
ghost use Rattle.rules.specs.Coax.{coax_code, coax_number, coax_format, CoaxEncodeAsks, CoaxWordAsks};
ghost use Rattle.rules.specs.Coax.{CoaxEncoded, CoaxCompleted, CoaxChecked, CoaxFinished};

use rules::{Cause, CoaxCode, Refusal, Stream, Verdict, coax};

// The checks of a payload alone.
fn payload_checks(code: CoaxCode, payload: &[u8]) -> [u8; coax::PARITY_BYTES]
    requires { places_of_payload (coax_code code) ≤ 8 * length payload.now }
    ensures { (n : ℕ) → bit result n
        ≡ check (coax_code code) n (run (places_of_payload (coax_code code)) (bit payload.now) zeros) }
{
    let mut sums = [0u8; coax::PARITY_BYTES];
    running::coax::add_blocks(
        code,
        &mut sums,
        payload,
        0,
        coax::columns(code) - coax::ROWS,
    );
    sums
}

// Writes a word: the payload, and then its parity, which starts with a byte.
fn write(code: CoaxCode, count: usize, payload: &[u8], word: &mut [u8])
    requires { CoaxEncodeAsks (coax_format code) count payload.now (length word.old) }
    ensures { LineWritten (coax_format code) count payload.now 0 word.old word.new }
{
    let front = payload.len();
    let end = bits::needed(coax::places(code));
    bits::copy(&mut word[..front], payload);
    let sums = payload_checks(code, payload);
    parity::coax::solve(code, &sums, &mut word[front..end]);
}

// Encodes a payload of so many bits.
pub fn encode(code: CoaxCode, count: usize, payload: &[u8], word: &mut [u8]) -> Result<(), Refusal>
    ensures { CoaxEncoded code count payload.now word.old (answer result) word.new }
{
    refusals::coax::encode(code, count, payload, word.len())?;
    write(code, count, payload, word);
    Ok(())
}

// Writes the parity of a word: only the part after the payload's bytes is lent to be written.
fn write_parity(code: CoaxCode, word: &mut [u8])
    requires { length word.old ≡ need (places (coax_code code)) }
    ensures { Completion (coax_code code) word.old word.new }
{
    let sums = payload_checks(code, word);
    let front = coax::payload_places(code) / 8;
    parity::coax::solve(code, &sums, &mut word[front..]);
}

// Completes a word with so many payload bits.
pub fn complete(code: CoaxCode, count: usize, word: &mut [u8]) -> Result<(), Refusal>
    ensures { CoaxCompleted code count word.old (answer result) word.new }
{
    refusals::coax::word(code, count, word)?;
    write_parity(code, word);
    Ok(())
}

// The verdict on a word. The running checks of all blocks are the checks themselves: their ones are the failing rows.
fn judge(code: CoaxCode, payload: usize, word: &[u8]) -> Verdict
    requires { CoaxWordAsks (coax_format code) payload word.now }
    ensures { WordVerdict (coax_format code) payload (bit word.now) result }
{
    let mut sums = [0u8; coax::PARITY_BYTES];
    running::coax::add_blocks(code, &mut sums, word, 0, coax::columns(code));
    let Some(row) = bits::first_set(&sums, 0, coax::checks(code)) else {
        return Verdict::Accepted;
    };
    let count = bits::count_ones(&sums);
    Verdict::Rejected(Cause::Check { row, count })
}

// Checks a word with so many payload bits.
pub fn check(code: CoaxCode, count: usize, word: &[u8]) -> Result<Verdict, Refusal>
    ensures { CoaxChecked code count word.now (judgement result) }
{
    refusals::coax::word(code, count, word)?;
    Ok(judge(code, count, word))
}

// A fresh stream of a code.
pub fn begin(code: CoaxCode) -> Stream
    ensures { result ≡ fresh (coax_number code) }
{
    stream::fresh(coax::number(code))
}

// Takes a piece of so many bits.
pub fn piece(code: CoaxCode, stream: &mut Stream, count: usize, bytes: &[u8]) -> Result<(), Refusal>
    ensures { PieceTaken (coax_format code) count bytes.now stream.old (outcome result stream.new) }
{
    stream_refusals::piece_alone(stream, coax::limits(code), count, bytes)?;
    running::coax::add_piece(code, &mut stream.checks, stream.held, count, bytes);
    stream.held += count;
    Ok(())
}

// Writes the parity whose own checks are the running checks, and nothing after it.
fn write_tail(code: CoaxCode, sums: &[u8], tail: &mut [u8])
    requires { (need (checks (coax_code code)) ≤ length sums.now) × (need (checks (coax_code code)) ≤ length tail.old) }
    ensures { TailWritten (coax_format code) sums.now 0 tail.old tail.new }
{
    let end = bits::needed(coax::checks(code));
    parity::coax::solve(code, sums, &mut tail[..end]);
}

// Finishes: writes the parity, and leaves a fresh stream.
pub fn finish(code: CoaxCode, stream: &mut Stream, tail: &mut [u8]) -> Result<(), Refusal>
    ensures { CoaxFinished code stream.old tail.old (outcome result stream.new) tail.new }
{
    stream_refusals::coax::finish(code, stream, tail.len())?;
    write_tail(code, &stream.checks, tail);
    *stream = begin(code);
    Ok(())
}
