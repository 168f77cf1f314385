// The refusals of the coax codes, W8 of paper 02: each operation's order of tests.
ghost use Rattle.rules.specs.Coax.{coax_format, coax_encode_order, coax_word_order};
ghost use Rattle.rules.specs.Answers.{told};
ghost use Rattle.rules.specs.Refusals.{tells};

use rules::{CoaxCode, Refusal, coax};

// Encode: 1, 2, 5.
pub fn encode(code: CoaxCode, count: usize, payload: &[u8], room: usize) -> Result<(), Refusal>
    ensures { tells (coax_encode_order (coax_format code) count payload.now room) (told result) }
{
    let exact = coax::payload_places(code);
    super::outside(count, exact, exact)?;
    super::differs(payload.len(), bits::needed(count), Refusal::Bytes)?;
    super::above(bits::needed(coax::places(code)), room, Refusal::Room)
}

// Complete, and check: 1, 2, 3.
pub fn word(code: CoaxCode, count: usize, word: &[u8]) -> Result<(), Refusal>
    ensures { tells (coax_word_order (coax_format code) count word.now) (told result) }
{
    let payload = coax::payload_places(code);
    let all = coax::places(code);
    super::outside(count, payload, payload)?;
    super::differs(word.len(), bits::needed(all), Refusal::Bytes)?;
    super::unused_set(word, all)
}
