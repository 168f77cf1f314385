// The C boundary of streams, W9 of paper 02: the host keeps a stream's state, 400 bytes, and lends it to each call.
ghost use Rattle.std.specs.Prelude.{◌≡◌, length};
ghost use Rattle.rules.specs.Answers.{answer};
ghost use Rattle.rules.specs.Promises.{refusal_of};
ghost use Rattle.states.specs.States.{state_bytes};
ghost use Rattle.host.specs.Streams.{HostPiece, HostFinish, HostCoaxPiece, HostCoaxFinish};
ghost use Rattle.host.specs.HandedBack.{Back};

use rules::{CoaxCode, Refusal, Stream};

// The refusal of a state of other than 400 bytes. It is the boundary's own, so no case of `Refusal`.
const WRONG_STATE: u64 = 17;

// Tells an answer by number. Only what is done writes to the state.
fn hand_back(answered: Result<(), Refusal>, stream: &Stream, state: &mut [u8]) -> u64
    requires { length state.old ≡ state_bytes }
    ensures { (result ≡ refusal_of (answer answered)) × Back (answer answered) state.old state.new stream.now }
{
    if answered.is_ok() {
        states::write(state, stream);
    }
    super::answer_number(answered)
}

// Takes a piece of a fibre stream.
pub fn birdovesta_stream_piece(
    state: &mut [u8],
    bits: usize,
    piece: &[u8],
    first: &[u8],
    second: &[u8],
) -> u64
    ensures { HostPiece first.now second.now bits piece.now state.old result
        state.new }
{
    if state.len() != states::BYTES {
        return WRONG_STATE;
    }
    let mut stream = states::read(state);
    let answered = stream::piece(&mut stream, bits, piece, first, second);
    hand_back(answered, &stream, state)
}

// Finishes a fibre stream.
pub fn birdovesta_stream_finish(
    state: &mut [u8],
    delimiter: usize,
    first: &[u8],
    second: &[u8],
    tail: &mut [u8],
) -> u64
    ensures { HostFinish first.now second.now delimiter state.old tail.old result
        state.new tail.new }
{
    if state.len() != states::BYTES {
        return WRONG_STATE;
    }
    let mut stream = states::read(state);
    let answered = stream::finish(&mut stream, delimiter, first, second, tail);
    hand_back(answered, &stream, state)
}

// Takes a piece of a stream of either coax code.
fn piece_by(code: CoaxCode, state: &mut [u8], bits: usize, piece: &[u8]) -> u64
    ensures { HostCoaxPiece code bits piece.now state.old result state.new }
{
    if state.len() != states::BYTES {
        return WRONG_STATE;
    }
    let mut stream = states::read(state);
    let answered = coax::piece(code, &mut stream, bits, piece);
    hand_back(answered, &stream, state)
}

// Finishes a stream of either coax code.
fn finish_by(code: CoaxCode, state: &mut [u8], parity: &mut [u8]) -> u64
    ensures { HostCoaxFinish code state.old parity.old result state.new parity.new }
{
    if state.len() != states::BYTES {
        return WRONG_STATE;
    }
    let mut stream = states::read(state);
    let answered = coax::finish(code, &mut stream, parity);
    hand_back(answered, &stream, state)
}

// The two of the longer coax code: C has a call for each code.
pub fn birdovesta_stream_piece_16200(state: &mut [u8], bits: usize, piece: &[u8]) -> u64
    ensures { HostCoaxPiece CoaxCode.Long bits piece.now state.old result state.new }
{
    piece_by(CoaxCode::Long, state, bits, piece)
}

pub fn birdovesta_stream_finish_16200(state: &mut [u8], parity: &mut [u8]) -> u64
    ensures { HostCoaxFinish CoaxCode.Long state.old parity.old result state.new
        parity.new }
{
    finish_by(CoaxCode::Long, state, parity)
}

// The two of the shorter coax code.
pub fn birdovesta_stream_piece_5940(state: &mut [u8], bits: usize, piece: &[u8]) -> u64
    ensures { HostCoaxPiece CoaxCode.Short bits piece.now state.old result state.new }
{
    piece_by(CoaxCode::Short, state, bits, piece)
}

pub fn birdovesta_stream_finish_5940(state: &mut [u8], parity: &mut [u8]) -> u64
    ensures { HostCoaxFinish CoaxCode.Short state.old parity.old result state.new
        parity.new }
{
    finish_by(CoaxCode::Short, state, parity)
}
