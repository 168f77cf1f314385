// The archive that a C host links: each call of the C boundary under the name that C has for it, with the promise that
// `host` makes for it, and nothing of its own. A crate is a library or an archive, and theorems stand on `host`.
#![tactic(auto)]

pub mod coax_calls;
pub mod stream_calls;

ghost use Rattle.host.specs.Numbers.{HostEncoded, HostWord, HostLine};

// Encodes a payload.
#[unsafe(no_mangle)]
pub extern "C" fn birdovesta_encode(
    bits: usize,
    payload: &[u8],
    delimiter: usize,
    first: &[u8],
    second: &[u8],
    line: &mut [u8],
) -> u64
    ensures { HostEncoded first.now second.now bits payload.now delimiter
        line.old result line.new }
{
    host::birdovesta_encode(bits, payload, delimiter, first, second, line)
}

// Checks a full word.
#[unsafe(no_mangle)]
pub extern "C" fn birdovesta_check_word(
    bits: usize,
    word: &[u8],
    first: &[u8],
    second: &[u8],
) -> u64
    ensures { HostWord first.now second.now bits word.now result }
{
    host::birdovesta_check_word(bits, word, first, second)
}

// Checks a line word.
#[unsafe(no_mangle)]
pub extern "C" fn birdovesta_check_line(
    bits: usize,
    line: &[u8],
    delimiter: usize,
    first: &[u8],
    second: &[u8],
) -> u64
    ensures { HostLine first.now second.now bits line.now delimiter result }
{
    host::birdovesta_check_line(bits, line, delimiter, first, second)
}
