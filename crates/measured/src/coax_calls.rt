// What the tests call of the coax codes: each call names its code, as those of the C boundary do.
ghost use Rattle.measured.specs.Measured.{CoaxComplete};

use rules::CoaxCode;

// Completes a word of the longer code.
#[unsafe(no_mangle)]
pub extern "C" fn measured_complete_16200(count: usize, word: &mut [u8]) -> u64
    ensures { CoaxComplete CoaxCode.Long count word.old result word.new }
{
    host::answer_number(coax::complete(CoaxCode::Long, count, word))
}

// Completes a word of the shorter code.
#[unsafe(no_mangle)]
pub extern "C" fn measured_complete_5940(count: usize, word: &mut [u8]) -> u64
    ensures { CoaxComplete CoaxCode.Short count word.old result word.new }
{
    host::answer_number(coax::complete(CoaxCode::Short, count, word))
}
