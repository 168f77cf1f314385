// The C boundary: the bench host calls the encoder and both checks with numbers and byte slices only. The header
// include/birdovesta.h says what the host answers for. The coax codes' calls have a module, and those of streams.
#![tactic(auto)]

pub mod coax_calls;
pub mod stream_calls;

ghost use Rattle.std.specs.Prelude.{◌≡◌};
ghost use Rattle.host.specs.Numbers.{number_of_cause, number_of_verdict, number_of_judgement};
ghost use Rattle.host.specs.Numbers.{CauseFits, VerdictFits, JudgementFits, NumberedBy};
ghost use Rattle.host.specs.Numbers.{HostEncoded, HostWord, HostLine};
ghost use Rattle.rules.specs.Answers.{answer};
ghost use Rattle.rules.specs.Promises.{refusal_of};
ghost use Rattle.rules.specs.Judgements.{judgement};

use rules::{Cause, Refusal, Verdict};

// The number of an answer, of the paper's refusals or of any that become numbers. The benchmark's calls, in `measured`,
// tell theirs by it too.
pub fn answer_number<E: Into<u64>>(answered: Result<(), E>) -> u64
    ensures { NumberedBy E.converts answered result }
{
    match answered {
        Ok(()) => 0,
        Err(refusal) => refusal.into(),
    }
}

fn cause_number(cause: Cause) -> u64
    requires { CauseFits cause }
    ensures { result ≡ number_of_cause cause }
{
    match cause {
        Cause::Shortened(place) => 0x1_0000_0000 + place as u64,
        Cause::Check { row, count } => 0x2_0000_0000 + count as u64 * 0x1_0000 + row as u64,
        Cause::Parity(place) => 0x3_0000_0000 + place as u64,
        Cause::Delimiter(bit) => 0x4_0000_0000 + bit as u64,
    }
}

fn verdict_number(verdict: Verdict) -> u64
    requires { VerdictFits verdict }
    ensures { result ≡ number_of_verdict verdict }
{
    match verdict {
        Verdict::Accepted => 0,
        Verdict::Rejected(cause) => cause_number(cause),
    }
}

fn judgement_number(answered: Result<Verdict, Refusal>) -> u64
    requires { JudgementFits (judgement answered) }
    ensures { result ≡ number_of_judgement (judgement answered) }
{
    match answered {
        Ok(verdict) => verdict_number(verdict),
        Err(why) => why.number() as u64,
    }
}

// Encodes a payload.
pub fn birdovesta_encode(
    bits: usize,
    payload: &[u8],
    delimiter: usize,
    first: &[u8],
    second: &[u8],
    line: &mut [u8],
) -> u64
    ensures { HostEncoded first.now second.now bits payload.now delimiter
        line.old result line.new }
{
    answer_number(line::encode(bits, payload, delimiter, first, second, line))
}

// Checks a full word.
pub fn birdovesta_check_word(bits: usize, word: &[u8], first: &[u8], second: &[u8]) -> u64
    ensures { HostWord first.now second.now bits word.now result }
{
    judgement_number(word::check(bits, word, first, second))
}

// Checks a line word.
pub fn birdovesta_check_line(
    bits: usize,
    line: &[u8],
    delimiter: usize,
    first: &[u8],
    second: &[u8],
) -> u64
    ensures { HostLine first.now second.now bits line.now delimiter result }
{
    judgement_number(line::check(bits, line, delimiter, first, second))
}
