// What is known of the file at a path: which file it is, its kind and mode, and whose it is; or why the system does not
// tell.
#![tactic(auto)]

pub mod linux;

ghost use Rattle.std.specs.Prelude.{◌≡◌, ◌≤◌, ◌↔◌, length, IfOk, IsTrue};
ghost use Rattle.std.specs.Fs.{file_type, metadata_mode};
ghost use Rattle.kinds.specs.Types.{HasKind};

use linux::Trouble;
use std::fs::{File, FileType, Metadata};
use std::os::unix::fs::{FileTypeExt, MetadataExt};
use std::rt::{Env, Files};
use std::{fs, str};

#[derive(Clone, Copy, PartialEq, Eq)]
pub enum Kind {
    File,
    Folder,
    Pipe,
    Socket,
    Device,
}

impl From<FileType> for Kind {
    ghost from_gives = { HasKind };

    fn from(told: FileType) -> Kind {
        if told.is_file() {
            Kind::File
        } else if told.is_dir() {
            Kind::Folder
        } else if told.is_fifo() {
            Kind::Pipe
        } else if told.is_socket() {
            Kind::Socket
        } else {
            Kind::Device
        }
    }
}

#[derive(Clone, Copy)]
pub struct Known {
    pub device: u64,
    pub file: u64,
    pub kind: Kind,
    pub mode: u32,
    pub owner: u32,
    pub group: u32,
}

impl Known {
    // Whether this is the other file too, whatever the names that led to them.
    pub fn is_same(self, other: Known) -> bool
        ensures { IsTrue result ↔ (self.device ≡ other.device) × (self.file ≡ other.file) }
    {
        self.device == other.device && self.file == other.file
    }
}

impl From<Metadata> for Known {
    ghost from_gives = { λ answer known. HasKind (file_type answer) known.kind × (known.mode ≡ metadata_mode answer) };

    fn from(answer: Metadata) -> Known {
        Known {
            device: answer.dev(),
            file: answer.ino(),
            kind: Kind::from(answer.file_type()),
            mode: answer.mode(),
            owner: answer.uid(),
            group: answer.gid(),
        }
    }
}

// What the program asks of the system that it runs on.
pub trait System: Files<File = File> + Env + Alloc + Clone + Drop {}

impl<R: Files<File = File> + Env + Alloc + Clone + Drop> System for R {}

// The longest path that the system takes. It puts a 0 after it.
const LONGEST: usize = 4095;

// A path as the system is handed it. One that is too long for it is that of no file.
fn fitting(path: &[u8]) -> Result<&[u8], Trouble>
    ensures { IfOk result (λ fitted. length fitted.now ≤ 4095) }
{
    if LONGEST < path.len() {
        return Err(Trouble::Missing);
    }
    Ok(path)
}

// The path of the folder that has the file at a path.
fn folder(path: &[u8]) -> &[u8] {
    match path.iter().rposition(|byte| *byte == b'/') {
        Some(at) => &path[..=at],
        None => b".",
    }
}

// Whether each name in a folder is text, or there is no folder. Other names are not told.
fn has_texts(rt: &impl System, folder: &str) -> bool {
    match fs::read_dir(rt, folder) {
        Ok(mut entries) => entries.all(|entry| entry.is_ok()),
        Err(error) => Trouble::from(error).is_absence(),
    }
}

// Whether there can be no file at a path that is no text.
fn is_missing(rt: &impl System, path: &[u8]) -> bool {
    str::from_utf8(folder(path)).is_ok_and(|folder| has_texts(rt, folder))
}

// A path as text, which alone the system's calls take here. One that is none can be told to be missing, or else is of
// no use.
pub fn text<'a>(rt: &impl System, path: &'a [u8]) -> Result<&'a str, Trouble> {
    str::from_utf8(path).map_err(|_| {
        if is_missing(rt, path) {
            Trouble::Missing
        } else {
            Trouble::NoText
        }
    })
}

// What the system answers.
fn ask(rt: &impl System, path: &[u8]) -> Result<Metadata, Trouble>
    requires { length path.now ≤ 4095 }
{
    Ok(fs::metadata(rt, text(rt, path)?)?)
}

// Follows links.
pub fn at(rt: &impl System, path: &[u8]) -> Result<Known, Trouble> {
    ask(rt, fitting(path)?).map(Known::from)
}
