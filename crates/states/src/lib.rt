// A stream as the 400 bytes that a C host keeps, W9 of paper 02: its code's number, the bits held, the running checks.
#![tactic(auto)]

ghost use Rattle.std.specs.Prelude.{◌≡◌, length};
ghost use Rattle.states.specs.States.{state_bytes, stream_in};

use rules::Stream;

// The bytes of a state, and where the bits held and the running checks start in it.
pub const BYTES: usize = 400;

const HELD_FROM: usize = 8;

const CHECKS_FROM: usize = 16;

// The stream that a state is.
pub fn read(state: &[u8]) -> Stream
    requires { length state.now ≡ state_bytes }
    ensures { result ≡ stream_in state.now }
{
    let mut checks = [0u8; rules::STREAM_BYTES];
    bits::copy(&mut checks, &state[CHECKS_FROM..]);
    Stream {
        number: numbers::load(state, 0) as usize,
        held: numbers::load(state, HELD_FROM) as usize,
        checks: checks,
    }
}

// Makes a state that of a stream.
pub fn write(state: &mut [u8], stream: &Stream)
    requires { length state.old ≡ state_bytes }
    ensures { (length state.new ≡ state_bytes) × (stream_in state.new ≡ stream.now) }
{
    numbers::store(state, 0, stream.number as u64);
    numbers::store(state, HELD_FROM, stream.held as u64);
    bits::copy(&mut state[CHECKS_FROM..], &stream.checks);
}
