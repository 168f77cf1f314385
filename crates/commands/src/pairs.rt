// The commands over lists: the pair that changes nothing is written, and a pair is tested. What is at fault in it is
// told beside the answer, on standard error.
ghost use Rattle.std.specs.Prelude.{◌≡◌, ℕ, ◌+◌, ◌*◌, ◌≤◌, length, get_or};

use answers::Status;
use codes::pair;
use console::{arguments, files, say};
use kinds::System;
use rules::fibre;

// lists OUT
fn write(rt: &impl System) -> Option<Status> {
    let mut path = io::buffer();
    let output = outputs::find(rt, 2, &mut path)?;
    let mut lists = io::large_buffer();
    let size = pair::fill_plain(&mut lists);
    Some(output.write(rt, &lists[..size]))
}

// Tells the first entry of a list that is at fault, where one is.
fn tell_fault(list: &[u8], places: usize, marks: &mut [u8], words: &[u8])
    requires { (length list.now ≡ 2 * places)
        × (length marks.old ≡ places + 1)
        × ((p : ℕ) → get_or marks.old p 0 ≡ 0)
        × (length words.now ≤ 20) }
{
    if let Some(entry) = lists::first_fault(list, places, marks) {
        say::beside(words, entry);
    }
}

// Tells what is at fault in a pair: its length, or else the first entry of each list that is.
fn tell_faults(pair: &[u8]) {
    if pair.len() != pair::BYTES {
        say::fault(b"needs 35328 bytes: 29184, then 6144");
        return;
    }
    let mut marks = [0u8; fibre::PAYLOAD_PLACES + 1];
    tell_fault(
        &pair[0..fibre::FIRST_BYTES],
        fibre::PAYLOAD_PLACES,
        &mut marks,
        b"first list, entry ",
    );
    let mut marks = [0u8; fibre::CHECKS + 1];
    tell_fault(
        &pair[fibre::FIRST_BYTES..pair::BYTES],
        fibre::CHECKS,
        &mut marks,
        b"second list, entry ",
    );
}

// lists check FILE
fn test(rt: &impl System) -> Option<Status> {
    let mut lists = io::large_buffer();
    let lists = files::read(rt, 3, &mut lists)?;
    let status = say::answer(pair::answer(lists));
    tell_faults(lists);
    Some(status)
}

// lists OUT, lists check FILE. A file of the name check is written as ./check, so that a FILE left out writes none.
pub fn run(rt: &impl System) -> Status {
    let mut word = [0u8; 16];
    let is_check = matches!(arguments::word(rt, 2, &mut word), b"check");
    match arguments::count(rt) {
        3 if !is_check => write(rt).unwrap_or(Status::Trouble),
        4 if is_check => test(rt).unwrap_or(Status::Trouble),
        _ => say::fault(b"lists needs OUT, or check FILE"),
    }
}
