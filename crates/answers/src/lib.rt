// What the program answers: each answer is a line of text, made in a buffer, and an exit status. The promises give
// both, of every answer. So a line is no `Display`, whose text is promised only where its writer took it.
#![tactic(auto)]

ghost use Rattle.std.specs.Prelude.{◌≡◌, ◌≤◌, cond, eqb, length, min};
ghost use Rattle.rules.specs.Judgements.{Judged, judgement};
ghost use Rattle.rules.specs.declared.Verdict.TheVariants.{Rejected};
ghost use Rattle.answers.specs.declared.Said.TheVariants.{RefusedBy, PieceRefusedBy};
ghost use Rattle.answers.specs.Answers.{judgement_line, line_of, status_of_judgement, status_of, lesson_line};
ghost use Rattle.answers.specs.Answers.{trouble, lost};
ghost use Rattle.answers.specs.Statuses.{number_of};

use lines::Line;
use rules::{Cause, Refusal, Verdict};

// What a check answers; a file was written; an operation was refused; both lists of a pair reorder their places; what
// a stream holds after a piece, or why the piece was refused; how many were refused; what became of a vector; a line of
// vectors that is not as expected; totals.
// An operation, or a piece, is refused by a `Refusal`, or else by any number: who refuses may have numbers of its own,
// as the C boundary has 17. By the number of a `Refusal` the answer is the same (`refused_by`, `piece_refused_by`).
#[derive(Clone, Copy)]
pub enum Said {
    Judged(Result<Verdict, Refusal>),
    Written(usize),
    Refused(Refusal),
    RefusedBy(usize),
    Reordering,
    Held { piece: usize, bits: usize },
    PieceRefused { piece: usize, why: Refusal },
    PieceRefusedBy { piece: usize, number: usize },
    PiecesRefused(usize),
    RightVector(usize),
    WrongVector(usize),
    WrongLine(usize),
    NoVectors,
    Right(usize),
    Wrong(usize),
}

// How the program ends: its exit statuses. Of two the greater is the worse. Fine, Wrong and Refused are the answers'
// own. Trouble: something was wrong, and that was said. Lost: an answer could not be written.
#[derive(Clone, Copy, PartialEq, Eq, PartialOrd, Ord)]
pub enum Status {
    Fine,
    Wrong,
    Refused,
    Trouble,
    Lost,
}

// Why a word is not accepted.
fn cause(cause: Cause) -> Line
    ensures { result ≡ judgement_line (Judged (Rejected cause)) }
{
    match cause {
        Cause::Shortened(place) => lines::one(b"shortened ", place),
        Cause::Check { row, count } => lines::two(b"check ", row, b" fails ", count),
        Cause::Parity(place) => lines::one(b"parity ", place),
        Cause::Delimiter(bit) => lines::one(b"delimiter ", bit),
    }
}

fn verdict(told: Verdict) -> Line
    ensures { result ≡ judgement_line (Judged told) }
{
    match told {
        Verdict::Accepted => lines::plain(b"accepted", b""),
        Verdict::Rejected(why) => cause(why),
    }
}

fn refusal(number: usize) -> Line
    ensures { result ≡ line_of (RefusedBy number) }
{
    lines::one(b"refusal ", number)
}

fn piece_refusal(piece: usize, number: usize) -> Line
    ensures { result ≡ line_of (PieceRefusedBy piece number) }
{
    lines::two(b"piece ", piece, b" refusal ", number)
}

// The line of an answer.
pub fn line(said: Said) -> Line
    ensures { result ≡ line_of said }
{
    match said {
        Said::Judged(Ok(told)) => verdict(told),
        Said::Judged(Err(why)) => refusal(why.number()),
        Said::Written(bytes) => lines::one(b"written ", bytes),
        Said::Refused(why) => refusal(why.number()),
        Said::RefusedBy(number) => refusal(number),
        Said::Reordering => lines::plain(b"reordering", b""),
        Said::Held { piece, bits } => lines::two(b"piece ", piece, b" held ", bits),
        Said::PieceRefused { piece, why } => piece_refusal(piece, why.number()),
        Said::PieceRefusedBy { piece, number } => piece_refusal(piece, number),
        Said::PiecesRefused(count) => lines::one(b"refused pieces ", count),
        Said::RightVector(number) => lines::one(b"right vector ", number),
        Said::WrongVector(number) => lines::one(b"wrong vector ", number),
        Said::WrongLine(number) => lines::one(b"wrong vectors, line ", number),
        Said::NoVectors => lines::plain(b"vectors: none", b""),
        Said::Right(count) => lines::counted(count, b" right"),
        Said::Wrong(count) => lines::counted(count, b" wrong"),
    }
}

fn judgement_status(told: Result<Verdict, Refusal>) -> Status
    ensures { number_of result ≡ status_of_judgement (judgement told) }
{
    match told {
        Ok(Verdict::Accepted) => Status::Fine,
        Ok(Verdict::Rejected(_)) => Status::Wrong,
        Err(_) => Status::Refused,
    }
}

// The exit status of an answer.
impl From<Said> for Status {
    ghost from_gives = { λ said status. number_of status ≡ status_of said };

    fn from(said: Said) -> Status {
        match said {
            Said::Judged(told) => judgement_status(told),
            Said::Written(_) | Said::Reordering | Said::Held { .. } => Status::Fine,
            Said::RightVector(_) | Said::NoVectors => Status::Fine,
            Said::Right(_) | Said::Wrong(0) => Status::Fine,
            Said::WrongVector(_) | Said::WrongLine(_) | Said::Wrong(_) => Status::Wrong,
            Said::Refused(_) | Said::RefusedBy(_) | Said::PiecesRefused(_) => Status::Refused,
            Said::PieceRefused { .. } | Said::PieceRefusedBy { .. } => Status::Refused,
        }
    }
}

// The exit status of a number. One that is no status's counts as trouble, so that it never passes for fine.
impl From<u8> for Status {
    ghost from_gives = { λ number status. number_of status ≡ cond (eqb number lost) lost (min number trouble) };

    fn from(number: u8) -> Status {
        match number {
            0 => Status::Fine,
            1 => Status::Wrong,
            2 => Status::Refused,
            4 => Status::Lost,
            _ => Status::Trouble,
        }
    }
}

// The line of a lesson.
pub fn lesson(right: bool, name: &[u8]) -> Line
    requires { length name.now ≤ 50 }
    ensures { result ≡ lesson_line right name.now }
{
    if right {
        return lines::plain(b"right ", name);
    }
    lines::plain(b"wrong ", name)
}
