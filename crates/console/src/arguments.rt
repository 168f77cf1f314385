// The program's arguments, its own name first.
ghost use Rattle.std.specs.Prelude.{◌≤◌, length};

use std::env::FillError;
use std::rt::Env;

fn is_given(rt: &impl Env, i: usize) -> bool {
    !matches!(rt.arg(i, &mut []), Err(FillError::NotPresent))
}

// How many there are.
pub fn count(rt: &impl Env) -> usize {
    (0..usize::MAX)
        .position(|i| !is_given(rt, i))
        .unwrap_or(usize::MAX)
}

// An argument, which is put into a room; empty where it is not given, or longer than the room. No caller tells these
// from an empty one.
pub fn word<'a>(rt: &impl Env, i: usize, room: &'a mut [u8]) -> &'a [u8]
    ensures { length result.now ≤ length room.old }
{
    let size = rt.arg(i, room).unwrap_or(0);
    &room[..size]
}
