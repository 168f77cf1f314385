// How many of what was tried is right, and how many wrong.
ghost use Rattle.std.specs.Prelude.{◌≡◌, ◌≤◌, length};
ghost use Rattle.answers.specs.Answers.{Told};
ghost use Rattle.answers.specs.Statuses.{number_of};
ghost use Rattle.lessons.specs.Tallies.{none, one_more, counted};

use answers::{Said, Status};
use console::say;

// status: the worst exit status of the lines said so far.
#[derive(Clone, Copy)]
pub struct Tally {
    pub right: usize,
    pub wrong: usize,
    pub status: Status,
}

pub fn new() -> Tally
    ensures { result ≡ none }
{
    Tally {
        right: 0,
        wrong: 0,
        status: Status::Fine,
    }
}

// One more, as far as can be counted.
pub fn more(count: usize) -> usize
    ensures { result ≡ one_more count }
{
    count.saturating_add(1)
}

// Counts what was right or wrong, and was said with this status. By value: the reading of a file of vectors holds a
// tally that it hands on.
pub fn count<S: Into<Status>>(tally: Tally, right: bool, status: S) -> Tally
    ensures { (said : Status) × S.converts status said × (result ≡ counted tally right said) }
{
    let mut later = tally;
    if right {
        later.right = more(tally.right);
    } else {
        later.wrong = more(tally.wrong);
    }
    later.status = tally.status.max(status.into());
    later
}

impl Tally {
    // Says the line of a lesson, and counts it.
    pub fn lesson(&mut self, is_right: bool, name: &[u8])
        requires { length name.now ≤ 50 }
        ensures { (status : Status) × Told 0 (number_of status) × (self.new ≡ counted self.old is_right status) }
    {
        *self = count(*self, is_right, say::lesson(is_right, name));
    }
}

// Says the totals. The status is Wrong or worse where anything was wrong.
pub fn total(tally: Tally) -> Status {
    let right = say::answer(Said::Right(tally.right));
    let wrong = say::answer(Said::Wrong(tally.wrong));
    tally.status.max(right).max(wrong)
}
