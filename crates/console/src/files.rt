// Files of bytes to read. One is read as far as there is room, so that whoever reads a byte too many sees it.
ghost use Rattle.std.specs.Prelude.{◌≡◌, length, ◌≤◌, IfOk, IfSome};
ghost use Rattle.answers.specs.Answers.{trouble};
ghost use Rattle.answers.specs.Statuses.{number_of};

use crate::say;
use answers::Status;
use kinds::linux::Trouble;
use kinds::{Kind, Known, System};
use std::env::FillError;
use std::fs::File;
use std::io::Read;
use std::rt::Env;

// One read.
fn read_some(file: &mut impl Read, room: &mut [u8]) -> Result<usize, Trouble>
    ensures { IfOk result (λ size. size ≤ length room.old) }
{
    Ok(file.read(room)?)
}

// Reads to the end of the file, or until there is no room. std's read_to_end takes a Vec; what is read here fills a
// room of fixed memory.
fn fill<'a>(file: &mut impl Read, room: &'a mut [u8]) -> Result<&'a mut [u8], Trouble>
    ensures { IfOk result (λ bytes. length bytes.now ≤ length room.old) }
{
    let mut size: usize = 0;
    while size < room.len() {
        let more = read_some(file, &mut room[size..])?;
        if more == 0 {
            break;
        }
        size += more;
    }
    Ok(&mut room[..size])
}

// Says why a file cannot be read or written, by what is wrong or by Linux's number of it. What is missing, what is not
// allowed and what else there may be differ from the one to the other.
pub fn trouble(
    why: impl Into<Trouble>,
    missing: &[u8],
    denied: &[u8],
    other: &[u8],
    name: &[u8],
) -> Status
    ensures { number_of result ≡ trouble }
{
    let words = match why.into() {
        Trouble::Missing | Trouble::NoFolder => missing,
        Trouble::Denied => denied,
        Trouble::Folder => b"is a folder",
        Trouble::NotPermitted => b"not permitted",
        Trouble::InTheWay => b"in the way; remove it",
        Trouble::NoRoom => b"no room",
        Trouble::TooManyLinks => b"too many links",
        Trouble::LongName => b"the name is too long",
        Trouble::NoText | Trouble::Other => other,
    };
    say::file(words, name)
}

fn unreadable(why: Trouble, name: &[u8]) -> Status {
    trouble(
        why,
        b"no such file",
        b"not readable",
        b"cannot be read",
        name,
    )
}

// Reads the file at a path.
fn read_path<'a>(rt: &impl System, path: &[u8], room: &'a mut [u8]) -> Result<&'a mut [u8], Trouble>
    ensures { IfOk result (λ bytes. length bytes.now ≤ length room.old) }
{
    let mut file = File::open(rt, kinds::text(rt, path)?)?;
    fill(&mut file, room)
}

// Reads the file at a path, or says why it cannot.
pub fn read_at<'a>(rt: &impl System, path: &[u8], room: &'a mut [u8]) -> Option<&'a mut [u8]>
    ensures { IfSome result (λ bytes. length bytes.now ≤ length room.old) }
{
    match read_path(rt, path, room) {
        Ok(bytes) => Some(bytes),
        Err(why) => {
            unreadable(why, path);
            None
        }
    }
}

// The path that an argument names. Where it has no name, says so.
pub fn path<'a>(rt: &impl Env, i: usize, room: &'a mut [u8]) -> Option<&'a mut [u8]>
    ensures { IfSome result (λ path. length path.now ≤ length room.old) }
{
    match rt.arg(i, room) {
        Ok(0) | Err(FillError::NotPresent) => {
            say::fault(b"a file name is empty");
            None
        }
        Ok(n) => Some(&mut room[..n]),
        Err(FillError::TooLong) => {
            say::fault(b"a file name is too long");
            None
        }
    }
}

// Reads the file that an argument names, or says why it cannot.
pub fn read<'a>(rt: &impl System, i: usize, room: &'a mut [u8]) -> Option<&'a mut [u8]>
    ensures { IfSome result (λ bytes. length bytes.now ≤ length room.old) }
{
    let mut name = io::buffer();
    read_at(rt, path(rt, i, &mut name)?, room)
}

// What is known of the file of this name, or why it is not.
pub fn known(rt: &impl System, name: &[u8]) -> Result<Known, Trouble> {
    kinds::at(rt, name)
}

// Whether the file that an argument names is there to be read, as far as can be told without opening it, which could be
// done only once where it is a pipe. Else says why not.
pub fn is_there(rt: &impl System, i: usize) -> bool {
    let mut name = io::buffer();
    let Some(name) = path(rt, i, &mut name) else {
        return false;
    };
    let why = match known(rt, name) {
        Ok(found) if found.kind == Kind::Folder => Trouble::Folder,
        Ok(_) => return true,
        Err(why) => why,
    };
    unreadable(why, name);
    false
}
