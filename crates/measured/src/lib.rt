// What the tests call beyond the C boundary: complete, with numbers and byte slices only. These are no public
// operations: the benchmark and the outside tests alone call them, and the archive of `host` does not have them. Each
// function only calls the operation, and answers 0 or the refusal's number. The coax codes' calls have a module.
#![tactic(auto)]

pub mod coax_calls;

ghost use Rattle.rules.specs.Formats.{fibre_format};
ghost use Rattle.measured.specs.Measured.{Complete};

// Completes a full word.
#[unsafe(no_mangle)]
pub extern "C" fn measured_complete(
    count: usize,
    word: &mut [u8],
    first: &[u8],
    second: &[u8],
) -> u64
    ensures { Complete (fibre_format first.now second.now) count word.old result word.new }
{
    host::answer_number(word::complete(count, word, first, second))
}
