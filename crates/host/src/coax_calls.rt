// The C boundary of the coax codes: a call for each code, as C has no enum that the checker would know.
ghost use Rattle.host.specs.Numbers.{HostCoaxEncoded, HostCoaxChecked};

use rules::CoaxCode;

// Encodes a payload of the longer code.
pub fn birdovesta_encode_16200(bits: usize, payload: &[u8], word: &mut [u8]) -> u64
    ensures { HostCoaxEncoded CoaxCode.Long bits payload.now word.old result word.new }
{
    super::answer_number(coax::encode(CoaxCode::Long, bits, payload, word))
}

// Encodes a payload of the shorter code.
pub fn birdovesta_encode_5940(bits: usize, payload: &[u8], word: &mut [u8]) -> u64
    ensures { HostCoaxEncoded CoaxCode.Short bits payload.now word.old result word.new }
{
    super::answer_number(coax::encode(CoaxCode::Short, bits, payload, word))
}

// Checks a word of either code.
fn check(code: CoaxCode, bits: usize, word: &[u8]) -> u64
    ensures { HostCoaxChecked code bits word.now result }
{
    super::judgement_number(coax::check(code, bits, word))
}

// Checks a word of the longer code.
pub fn birdovesta_check_16200(bits: usize, word: &[u8]) -> u64
    ensures { HostCoaxChecked CoaxCode.Long bits word.now result }
{
    check(CoaxCode::Long, bits, word)
}

// Checks a word of the shorter code.
pub fn birdovesta_check_5940(bits: usize, word: &[u8]) -> u64
    ensures { HostCoaxChecked CoaxCode.Short bits word.now result }
{
    check(CoaxCode::Short, bits, word)
}
