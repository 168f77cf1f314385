// The finish of a coax stream, W8 and W9 of paper 02: its order of tests. A piece has the order of any code.
ghost use Rattle.rules.specs.Coax.{coax_format, coax_finish_order};
ghost use Rattle.rules.specs.Answers.{told};
ghost use Rattle.rules.specs.Refusals.{tells};

use rules::{CoaxCode, Refusal, Stream, coax};

// Finish: 12, 7, 1, 5.
pub fn finish(code: CoaxCode, stream: &Stream, room: usize) -> Result<(), Refusal>
    ensures { tells (coax_finish_order (coax_format code) stream.now room) (told result) }
{
    let exact = coax::payload_places(code);
    let held = stream.held;
    refusals::differs(stream.number, coax::number(code), Refusal::OtherCode)?;
    super::bad_state(stream, coax::limits(code))?;
    refusals::outside(held, exact, exact)?;
    refusals::above(bits::needed(coax::checks(code)), room, Refusal::Room)
}
