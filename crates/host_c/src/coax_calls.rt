// The calls of the coax codes.
ghost use Rattle.rules.specs.declared.CoaxCode.{CoaxCode};
ghost use Rattle.host.specs.Numbers.{HostCoaxEncoded, HostCoaxChecked};

// Encodes a payload of the longer code.
#[unsafe(no_mangle)]
pub extern "C" fn birdovesta_encode_16200(bits: usize, payload: &[u8], word: &mut [u8]) -> u64
    ensures { HostCoaxEncoded CoaxCode.Long bits payload.now word.old result word.new }
{
    host::coax_calls::birdovesta_encode_16200(bits, payload, word)
}

// Encodes a payload of the shorter code.
#[unsafe(no_mangle)]
pub extern "C" fn birdovesta_encode_5940(bits: usize, payload: &[u8], word: &mut [u8]) -> u64
    ensures { HostCoaxEncoded CoaxCode.Short bits payload.now word.old result word.new }
{
    host::coax_calls::birdovesta_encode_5940(bits, payload, word)
}

// Checks a word of the longer code.
#[unsafe(no_mangle)]
pub extern "C" fn birdovesta_check_16200(bits: usize, word: &[u8]) -> u64
    ensures { HostCoaxChecked CoaxCode.Long bits word.now result }
{
    host::coax_calls::birdovesta_check_16200(bits, word)
}

// Checks a word of the shorter code.
#[unsafe(no_mangle)]
pub extern "C" fn birdovesta_check_5940(bits: usize, word: &[u8]) -> u64
    ensures { HostCoaxChecked CoaxCode.Short bits word.now result }
{
    host::coax_calls::birdovesta_check_5940(bits, word)
}
