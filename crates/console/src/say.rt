// What the program says: answers on standard output, each by one write; what is wrong on standard error, first what it
// is and then, on a line of its own, the name of the file. Every function tells an exit status.
ghost use Rattle.std.specs.Prelude.{◌≡◌, ◌+◌, ◌≤◌, length, min};
ghost use Rattle.answers.specs.Answers.{status_of, trouble, Told};
ghost use Rattle.answers.specs.Statuses.{number_of};

use answers::{Said, Status};

const STDOUT_FILENO: i32 = 1;

const STDERR_FILENO: i32 = 2;

// Where the program's exit status is written: the script that starts it reads it there. A program that was stopped has
// written none.
const STATUS_FILENO: i32 = 9;

fn written(words: &[u8], status: Status) -> Status
    ensures { Told (number_of status) (number_of result) }
{
    if io::write_all(STDOUT_FILENO, words) {
        return status;
    }
    Status::Lost
}

// An answer.
pub fn answer(answer: Said) -> Status
    ensures { Told (status_of answer) (number_of result) }
{
    written(answers::line(answer).as_bytes(), Status::from(answer))
}

// The line of a lesson. That it is wrong is told by the totals.
pub fn lesson(right: bool, name: &[u8]) -> Status
    requires { length name.now ≤ 50 }
    ensures { Told 0 (number_of result) }
{
    written(answers::lesson(right, name).as_bytes(), Status::Fine)
}

// A text as it is given.
pub fn text(words: &[u8]) -> Status
    ensures { Told 0 (number_of result) }
{
    written(words, Status::Fine)
}

// What is wrong.
pub fn fault(words: &[u8]) -> Status
    ensures { number_of result ≡ trouble }
{
    io::write_all(STDERR_FILENO, words);
    io::write_all(STDERR_FILENO, b"\n");
    Status::Trouble
}

// What is wrong with a number, and what to type: its name, what is wrong and its range.
pub fn wrong(name: &[u8], words: &[u8], range: &[u8]) -> Status
    ensures { number_of result ≡ trouble }
{
    io::write_all(STDERR_FILENO, name);
    io::write_all(STDERR_FILENO, words);
    fault(range)
}

// What is told beside an answer, on standard error: words and a number.
pub fn beside(words: &[u8], number: usize)
    requires { length words.now ≤ 20 }
{
    io::write_all(STDERR_FILENO, lines::one(words, number).as_bytes());
}

// A byte of a name.
fn byte(byte: u8) {
    io::write_all(STDERR_FILENO, lines::byte(byte).as_bytes());
}

// What is wrong with a file, and its name. Bytes that are no printable characters are shown by their numbers.
pub fn file(words: &[u8], name: &[u8]) -> Status
    ensures { number_of result ≡ trouble }
{
    fault(words);
    for &shown in name {
        byte(shown);
    }
    fault(b"")
}

// The digit that the script is told. A lost answer counts as trouble.
fn digit(status: Status) -> u8
    ensures { result ≡ 48 + min (number_of status) trouble }
{
    match status {
        Status::Fine => b'0',
        Status::Wrong => b'1',
        Status::Refused => b'2',
        Status::Trouble | Status::Lost => b'3',
    }
}

// Tells the exit status to the script. That answers were lost is said now, once.
pub fn exit(status: impl Into<Status>) {
    let status = status.into();
    if status == Status::Lost {
        fault(b"answers lost: they could not be written");
    }
    io::write_all(STATUS_FILENO, &[digit(status)]);
}
