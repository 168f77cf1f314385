// Files of bytes to write. A link is followed to where it leads. A file is written whole or not at all: to a new one
// beside it, NAME.new, which then takes its name, and the mode and the owner of the one that had it.
#![tactic(auto)]

ghost use Rattle.std.specs.Prelude.{◌≤◌, length, IfSome};
ghost use Rattle.io.specs.Counts.{IsPrefixLen};

use answers::{Said, Status};
use console::{files, say};
use kinds::linux::Trouble;
use kinds::{Kind, Known, System};
use std::fs::{File, OpenOptions, Permissions};
use std::io::Write;
use std::os::unix::fs::{PermissionsExt, fchown};
use std::path::PathBuf;
use std::{fs, str};

// The path that a name led to, which leaves room for .new, and what is known of the file that has it, if there is one.
#[derive(Clone, Copy)]
pub struct Output<'a> {
    pub path: &'a [u8],
    pub known: Option<Known>,
    ghost fits: { length path.now ≤ 4091 },
}

// The links that are followed one after the other, as Linux does.
const LINKS: usize = 40;

// The longest path that .new can be put after.
const LONGEST: usize = 4091;

fn unwritable(why: Trouble, name: &[u8]) -> Status {
    files::trouble(
        why,
        b"no such folder",
        b"not writable",
        b"cannot be written",
        name,
    )
}

// Whether this is a plain file. Where it is none, says what it is.
fn is_plain(kind: Kind, name: &[u8]) -> bool {
    let words: &[u8] = match kind {
        Kind::File => return true,
        Kind::Folder => b"is a folder",
        Kind::Pipe => b"is a pipe",
        Kind::Socket => b"is a socket",
        Kind::Device => b"is a device",
    };
    say::file(words, name);
    false
}

// How long the folder in a path is, with the stroke after it.
fn folder(path: &[u8]) -> usize
    ensures { result ≤ length path.now }
{
    match path.iter().rposition(|byte| *byte == b'/') {
        Some(at) => at + 1,
        None => 0,
    }
}

// Where the link at a path leads, where its text is UTF-8.
fn read_link<R: System>(rt: &R, path: &[u8]) -> Result<PathBuf<R::A>, Trouble> {
    Ok(fs::read_link(rt, kinds::text(rt, path)?)?)
}

// Where the link at a path leads, as text that is put into a room; none where it is no link.
fn link<'a>(rt: &impl System, path: &[u8], room: &'a mut [u8]) -> Option<&'a [u8]>
    ensures { IfSome result (λ text. length text.now ≤ length room.old) }
{
    let led = read_link(rt, path).ok()?;
    let words = led.as_str().as_bytes();
    if words.is_empty() || room.len() < words.len() {
        return None;
    }
    let size = lines::put(room, 0, words);
    Some(&room[..size])
}

// How much of a link's path stays where its text begins with this byte: the folder, unless that is the root's.
fn kept(path: &[u8], first: u8) -> usize
    ensures { result ≤ length path.now }
{
    if first == b'/' {
        return 0;
    }
    folder(path)
}

// Puts where a link leads in place of its path. Answers the length; none where that is too long.
fn lead(path: &mut [u8], n: usize, text: &[u8]) -> Option<usize>
    requires { IsPrefixLen n path.old }
    ensures { IfSome result (λ size. IsPrefixLen size path.new) }
{
    let kept = kept(&path[..n], *text.first()?);
    if path.len() - kept < text.len() {
        return None;
    }
    Some(lines::put(path, kept, text))
}

// Follows the links at a path. Answers the length of the path that they lead to; none where there are too many. It is
// no slice: each link is put into the same room.
fn follow(rt: &impl System, path: &mut [u8], n: usize) -> Option<usize>
    requires { IsPrefixLen n path.old }
    ensures { IfSome result (λ size. IsPrefixLen size path.new) }
{
    let mut size = n;
    for _ in 0..LINKS {
        let mut text = io::buffer();
        let Some(text) = link(rt, &path[..size], &mut text) else {
            return Some(size);
        };
        size = lead(path, size, text)?;
    }
    None
}

// Whether links were followed to their end: the path is text, and is that of no link, whose text would be none.
fn is_followed(rt: &impl System, path: &[u8]) -> bool {
    let Ok(path) = str::from_utf8(path) else {
        return false;
    };
    !fs::symlink_metadata(rt, path).is_ok_and(|found| found.is_symlink())
}

// Whether the file of an output is the one that the answers go to: they would be lost with it.
fn is_standard(rt: &impl System, known: Known) -> bool {
    files::known(rt, b"/proc/self/fd/1").is_ok_and(|standard| standard.is_same(known))
}

// Opens a file that is there as one that may be read and written.
fn open_update(rt: &impl System, path: &[u8]) -> Result<File, Trouble> {
    Ok(
        OpenOptions::new()
            .read(true)
            .write(true)
            .open(rt, kinds::text(rt, path)?)?,
    )
}

// Whether a file that is there may be replaced. Where it may not, says why.
fn is_free(rt: &impl System, known: Known, path: &[u8]) -> bool {
    if !files::known(rt, path).is_ok_and(|found| found.is_same(known)) {
        say::file(b"leads to no file", path);
        return false;
    }
    if is_standard(rt, known) {
        say::file(b"the answers go there", path);
        return false;
    }
    if let Err(why) = open_update(rt, path) {
        unwritable(why, path);
        return false;
    }
    true
}

// Whether an output may have this name: a plain file has it, or no file. Else says why not.
fn is_name(found: Result<Known, Trouble>, name: &[u8]) -> bool {
    match found {
        Ok(known) => is_plain(known.kind, name),
        Err(Trouble::Missing) => true,
        Err(why) => {
            unwritable(why, name);
            false
        }
    }
}

// The file that an argument names, before anything is computed for it. Where it can't be written, says why.
pub fn find<'a>(rt: &impl System, i: usize, room: &'a mut [u8]) -> Option<Output<'a>>
    ensures prefix_len { IfSome result (λ output. IsPrefixLen (length output.path.now) room.old) }
    ensures size_bound { IfSome result (λ output. length output.path.now ≤ 4091) }
{
    let n = files::path(rt, i, room)?.len();
    let found = files::known(rt, &room[..n]);
    if !is_name(found, &room[..n]) {
        return None;
    }
    let Some(size) = follow(rt, room, n) else {
        say::fault(b"the output's links lead too far");
        return None;
    };
    if LONGEST < size {
        say::fault(b"the output's name is too long");
        return None;
    }
    let path = &room[..size];
    if !is_followed(rt, path) {
        unwritable(Trouble::NoText, path);
        return None;
    }
    let known = found.ok();
    if known.is_some_and(|known| !is_free(rt, known, path)) {
        return None;
    }
    Some(Output { path, known })
}

// Gives the mode and the owner of the file that had the name to the open one.
fn keep(file: &File, known: Known) -> Result<(), Trouble> {
    fchown(file, Some(known.owner), Some(known.group))?;
    Ok(file.set_permissions(Permissions::from_mode(known.mode % 0o10000))?)
}

// Writes all of the bytes to an open file, down to its device.
fn fill(file: &mut File, bytes: &[u8]) -> Result<(), Trouble> {
    file.write_all(bytes)?;
    Ok(file.sync_all()?)
}

// Makes a file of a name that no file has.
fn create(rt: &impl System, new: &[u8]) -> Result<File, Trouble> {
    Ok(
        OpenOptions::new()
            .write(true)
            .create_new(true)
            .open(rt, kinds::text(rt, new)?)?,
    )
}

// Makes the new file whole: its mode, its owner and its bytes.
fn fill_new(mut file: File, known: Option<Known>, bytes: &[u8]) -> Result<(), Trouble> {
    if let Some(known) = known {
        keep(&file, known)?;
    }
    fill(&mut file, bytes)
}

fn unlink(rt: &impl System, new: &[u8]) -> Result<(), Trouble> {
    Ok(fs::remove_file(rt, kinds::text(rt, new)?)?)
}

fn rename(rt: &impl System, new: &[u8], path: &[u8]) -> Result<(), Trouble> {
    Ok(fs::rename(rt, kinds::text(rt, new)?, kinds::text(rt, path)?)?)
}

impl Output<'_> {
    // Makes the new file. Where that fails, the new file is gone.
    fn make(self, rt: &impl System, new: &[u8], bytes: &[u8]) -> Result<(), Trouble> {
        let made = fill_new(create(rt, new)?, self.known, bytes);
        if made.is_err() {
            let _ = unlink(rt, new);
        }
        made
    }

    // Gives its name to the new file. Where that fails, the new file is gone.
    fn replace(self, rt: &impl System, new: &[u8]) -> Result<(), Trouble> {
        let renamed = rename(rt, new, self.path);
        if renamed.is_err() {
            let _ = unlink(rt, new);
        }
        renamed
    }

    // Writes the output, and says of how many bytes; or says what is wrong, and no file has changed.
    pub fn write(self, rt: &impl System, bytes: &[u8]) -> Status {
        let mut new = io::buffer();
        let n = lines::put(&mut new, 0, self.path);
        let m = lines::put(&mut new, n, b".new");
        let new = &new[..m];
        if let Err(why) = self.make(rt, new, bytes) {
            let name = if why == Trouble::InTheWay {
                new
            } else {
                self.path
            };
            return unwritable(why, name);
        }
        if let Err(why) = self.replace(rt, new) {
            return unwritable(why, self.path);
        }
        say::answer(Said::Written(bytes.len()))
    }
}
