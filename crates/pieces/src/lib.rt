// The commands over a payload in pieces: a stream is fed them one by one, and finished. Each answer names its piece; a
// refused one is left out, and the last line counts those. The fibre code and the coax codes go the same way, but for
// LISTS, which is read once, before any piece.
#![tactic(auto)]

ghost use Rattle.std.specs.Prelude.{◌+◌, ◌^◌, ◌<◌};

use answers::{Said, Status};
use codes::{Code, Served, pair};
use console::{arguments, decimals, files, say};
use kinds::System;
use lessons::tally;
use outputs::Output;
use rules::{CoaxCode, Refusal, Stream};

// OUT is this argument of both commands.
const OUT: usize = 4;

// The pieces are the arguments from here on.
const PIECES: usize = 5;

// A stream, how many pieces it was fed, how many of them it refused, and the worst exit status so far.
#[derive(Clone, Copy)]
struct Feeding {
    stream: Stream,
    fed: usize,
    refused: usize,
    status: Status,
}

// A piece is two arguments, BITS and PIECE, from argument i on: whether the one is a number and the other a file.
fn is_piece(rt: &impl System, code: Code, i: usize) -> bool
    requires { i + 1 < 2 ^ 64 }
{
    code.piece_bits(rt, i).is_some() && files::is_there(rt, i + 1)
}

// Whether all the pieces of so many arguments are there.
fn are_pieces(rt: &impl System, code: Code, count: usize) -> bool {
    (PIECES..count).step_by(2).all(|i| is_piece(rt, code, i))
}

// Why a piece is refused. A file that fills the buffer may go on: it is too long, whatever the operation says of its
// first bytes; only the refusal of the lists comes before that.
fn refusal_of(size: usize, told: Refusal) -> Refusal {
    if size == 65536 && told != Refusal::Lists {
        return Refusal::Bytes;
    }
    told
}

impl Feeding {
    // Says what a piece was answered, and counts it.
    fn say(&mut self, answer: Result<(), Refusal>) {
        self.fed = tally::more(self.fed);
        let piece = self.fed;
        let said = match answer {
            Ok(()) => Said::Held {
                piece,
                bits: self.stream.held,
            },
            Err(why) => {
                self.refused = tally::more(self.refused);
                Said::PieceRefused { piece, why }
            }
        };
        self.status = self.status.max(say::answer(said));
    }

    // Feeds the bytes of a piece to the stream, and says what it answers. No piece that fills the buffer is accepted.
    fn take(&mut self, served: Served, bits: usize, bytes: &[u8]) {
        let answer = served.piece(&mut self.stream, bits, bytes);
        self.say(answer.map_err(|told| refusal_of(bytes.len(), told)));
    }
}

// Feeds a piece, whose BITS is argument i. Where it could not be read, that was said, and feeding stops.
fn feed(rt: &impl System, served: Served, feeding: &mut Feeding, i: usize) -> Option<()>
    requires { i + 1 < 2 ^ 64 }
{
    let bits = served.code.piece_bits(rt, i)?;
    let mut bytes = io::large_buffer();
    let bytes = files::read(rt, i + 1, &mut bytes)?;
    feeding.take(served, bits, bytes);
    Some(())
}

// Feeds all the pieces of so many arguments to a fresh stream.
fn feed_all(rt: &impl System, served: Served, count: usize) -> Option<Feeding> {
    let mut feeding = Feeding {
        stream: served.code.begin(),
        fed: 0,
        refused: 0,
        status: Status::Fine,
    };
    for i in (PIECES..count).step_by(2) {
        feed(rt, served, &mut feeding, i)?;
    }
    Some(feeding)
}

// Finishes the stream into OUT.
fn finish(
    rt: &impl System,
    served: Served,
    mut stream: Stream,
    delimiter: usize,
    output: Output,
) -> Status {
    let mut tail = [0u8; rules::fibre::TAIL_BYTES];
    match served.finish(&mut stream, delimiter, &mut tail) {
        Ok(()) => output.write(rt, served.code.finished(&tail)),
        Err(why) => say::answer(Said::Refused(why)),
    }
}

// How many pieces were refused, where any was. Whoever reads the last line alone sees it.
fn say_refused(count: usize) -> Status {
    if count == 0 {
        return Status::Fine;
    }
    say::answer(Said::PiecesRefused(count))
}

// Feeds all the pieces and finishes into OUT.
fn feed_into(
    rt: &impl System,
    served: Served,
    delimiter: usize,
    output: Output,
    count: usize,
) -> Option<Status> {
    let feeding = feed_all(rt, served, count)?;
    let last = finish(rt, served, feeding.stream, delimiter, output);
    let refused = say_refused(feeding.refused);
    Some(feeding.status.max(last).max(refused))
}

// Finds OUT and reads LISTS, and feeds the pieces of so many arguments if all are there.
fn feed_and_finish(rt: &impl System, code: Code, delimiter: usize, count: usize) -> Option<Status> {
    let mut path = io::buffer();
    let output = outputs::find(rt, OUT, &mut path)?;
    let mut lists = io::large_buffer();
    let served = pair::read(rt, code, &mut lists)?;
    if !are_pieces(rt, code, count) {
        return None;
    }
    feed_into(rt, served, delimiter, output, count)
}

// stream LISTS DELIMITER OUT [BITS PIECE]...
pub fn feed_fibre(rt: &impl System) -> Status {
    let count = arguments::count(rt);
    if count < PIECES {
        return say::fault(b"stream needs\nLISTS DELIMITER OUT [BITS PIECE]...");
    }
    if (count - PIECES) % 2 != 0 {
        return say::fault(
            b"a piece has two parts; type BITS PIECE\nbefore them: LISTS DELIMITER OUT",
        );
    }
    decimals::argument(rt, 3, b"DELIMITER", b"0 to 1023")
        .and_then(|delimiter| feed_and_finish(rt, Code::Fibre, delimiter, count))
        .unwrap_or(Status::Trouble)
}

// coax CODE stream OUT [BITS PIECE]...
pub fn feed_coax(rt: &impl System, coax: CoaxCode) -> Status {
    let count = arguments::count(rt);
    if count < PIECES {
        return say::fault(b"stream needs OUT [BITS PIECE]");
    }
    if (count - PIECES) % 2 != 0 {
        return say::fault(b"a piece has two parts; type BITS PIECE");
    }
    feed_and_finish(rt, Code::Coax(coax), codes::NO_DELIMITER, count).unwrap_or(Status::Trouble)
}
