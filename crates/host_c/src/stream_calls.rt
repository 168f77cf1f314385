// The calls of streams.
ghost use Rattle.rules.specs.declared.CoaxCode.{CoaxCode};
ghost use Rattle.host.specs.Streams.{HostPiece, HostFinish, HostCoaxPiece, HostCoaxFinish};

// Takes a piece of a fibre stream.
#[unsafe(no_mangle)]
pub extern "C" fn birdovesta_stream_piece(
    state: &mut [u8],
    bits: usize,
    piece: &[u8],
    first: &[u8],
    second: &[u8],
) -> u64
    ensures { HostPiece first.now second.now bits piece.now state.old result
        state.new }
{
    host::stream_calls::birdovesta_stream_piece(state, bits, piece, first, second)
}

// Finishes a fibre stream.
#[unsafe(no_mangle)]
pub extern "C" fn birdovesta_stream_finish(
    state: &mut [u8],
    delimiter: usize,
    first: &[u8],
    second: &[u8],
    tail: &mut [u8],
) -> u64
    ensures { HostFinish first.now second.now delimiter state.old tail.old result
        state.new tail.new }
{
    host::stream_calls::birdovesta_stream_finish(state, delimiter, first, second, tail)
}

// The two of the longer coax code.
#[unsafe(no_mangle)]
pub extern "C" fn birdovesta_stream_piece_16200(state: &mut [u8], bits: usize, piece: &[u8]) -> u64
    ensures { HostCoaxPiece CoaxCode.Long bits piece.now state.old result state.new }
{
    host::stream_calls::birdovesta_stream_piece_16200(state, bits, piece)
}

#[unsafe(no_mangle)]
pub extern "C" fn birdovesta_stream_finish_16200(state: &mut [u8], parity: &mut [u8]) -> u64
    ensures { HostCoaxFinish CoaxCode.Long state.old parity.old result state.new
        parity.new }
{
    host::stream_calls::birdovesta_stream_finish_16200(state, parity)
}

// The two of the shorter coax code.
#[unsafe(no_mangle)]
pub extern "C" fn birdovesta_stream_piece_5940(state: &mut [u8], bits: usize, piece: &[u8]) -> u64
    ensures { HostCoaxPiece CoaxCode.Short bits piece.now state.old result state.new }
{
    host::stream_calls::birdovesta_stream_piece_5940(state, bits, piece)
}

#[unsafe(no_mangle)]
pub extern "C" fn birdovesta_stream_finish_5940(state: &mut [u8], parity: &mut [u8]) -> u64
    ensures { HostCoaxFinish CoaxCode.Short state.old parity.old result state.new
        parity.new }
{
    host::stream_calls::birdovesta_stream_finish_5940(state, parity)
}
