// Full words of the fibre code, in inner order: check one, from any decoder, and complete one's parity in place.
#![tactic(auto)]

ghost use Rattle.std.specs.Prelude.{◌≡◌, ◌≤◌, length};
ghost use Rattle.rules.specs.Bits.{bit, need};
ghost use Rattle.rules.specs.Lists.{Listed};
ghost use Rattle.rules.specs.Matrix.{places, places_of_payload};
ghost use Rattle.rules.specs.Table.{fibre};
ghost use Rattle.rules.specs.Formats.{fibre_format};
ghost use Rattle.rules.specs.Verdicts.{WordVerdict};
ghost use Rattle.rules.specs.Answers.{answer};
ghost use Rattle.rules.specs.Judgements.{judgement};
ghost use Rattle.rules.specs.Promises.{Completion, Completed, WordChecked};
ghost use Rattle.rules.specs.Terms.{by_first};

use rules::{Cause, Refusal, Verdict, fibre};

// The verdict on a full word: shortened places come first, then the checks. The running checks of all blocks are the
// checks themselves: where none is 1 the word is accepted with no scan, and else their ones are the failing rows.
fn judge(payload: usize, word: &[u8], first: &[u8]) -> Verdict
    requires { (payload ≤ places_of_payload fibre) × (length word.now ≡ need (places fibre))
        × Listed (places_of_payload fibre) first.now }
    ensures { WordVerdict (by_first first.now) payload (bit word.now) result }
{
    if let Some(place) = lists::first_shortened(payload, word, first) {
        return Verdict::Rejected(Cause::Shortened(place));
    }
    let mut checks = [0u8; fibre::PARITY_BYTES];
    running::fibre::add_blocks(&mut checks, word, 0, fibre::COLUMNS);
    let count = bits::count_ones(&checks);
    if count == 0 {
        return Verdict::Accepted;
    }
    let row = rows::lowest_failing(word).unwrap();
    Verdict::Rejected(Cause::Check { row, count })
}

// Checks a full word with so many payload bits.
pub fn check(count: usize, word: &[u8], first: &[u8], second: &[u8]) -> Result<Verdict, Refusal>
    ensures { WordChecked (fibre_format first.now second.now) count word.now (judgement result) }
{
    refusals::check_word(count, word, first, second)?;
    Ok(judge(count, word, first))
}

// Writes the parity of a full word: only the part from byte 1,824 on, its parity, is lent to be written.
fn write_parity(word: &mut [u8])
    requires { length word.old ≡ need (places fibre) }
    ensures { Completion fibre word.old word.new }
{
    let mut checks = [0u8; fibre::PARITY_BYTES];
    running::fibre::add_blocks(&mut checks, word, 0, fibre::PAYLOAD_COLUMNS);
    parity::solve(&checks, &mut word[fibre::PAYLOAD_BYTES..]);
}

// Completes a full word with so many payload bits.
pub fn complete(count: usize, word: &mut [u8], first: &[u8], second: &[u8]) -> Result<(), Refusal>
    ensures { Completed (fibre_format first.now second.now) count word.old (answer result)
        word.new }
{
    refusals::complete(count, word, first, second)?;
    write_parity(word);
    Ok(())
}
