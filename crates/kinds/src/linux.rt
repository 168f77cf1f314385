// What may be wrong with a file, by Linux's numbers. std's ErrorKind has one kind for EPERM and EACCES, of which the
// program says different words.
ghost use Rattle.std.specs.Prelude.{◌≡◌, ◌↔◌, ◌⊎◌, IsTrue};
ghost use Rattle.kinds.specs.Troubles.{trouble_of, trouble_in};

use std::io::Error;

const EPERM: i32 = 1;

const ENOENT: i32 = 2;

const EACCES: i32 = 13;

const EEXIST: i32 = 17;

const ENOTDIR: i32 = 20;

const EISDIR: i32 = 21;

const EFBIG: i32 = 27;

const ENOSPC: i32 = 28;

const EROFS: i32 = 30;

const ENAMETOOLONG: i32 = 36;

const ELOOP: i32 = 40;

// Missing: nothing has the name. NoFolder: what has to be a folder in the path is none. NoText: the name is no text in
// UTF-8.
#[derive(Clone, Copy, PartialEq, Eq)]
pub enum Trouble {
    Missing,
    NoFolder,
    Denied,
    Folder,
    NotPermitted,
    InTheWay,
    NoRoom,
    TooManyLinks,
    LongName,
    NoText,
    Other,
}

impl Trouble {
    // Whether it is that there is no such file.
    pub fn is_absence(self) -> bool
        ensures { IsTrue result ↔ (self ≡ Trouble.Missing) ⊎ (self ≡ Trouble.NoFolder) }
    {
        matches!(self, Trouble::Missing | Trouble::NoFolder)
    }
}

// What a number means.
impl From<i32> for Trouble {
    ghost from_gives = { λ number why. why ≡ trouble_of number };

    fn from(number: i32) -> Trouble {
        match number {
            ENOENT => Trouble::Missing,
            ENOTDIR => Trouble::NoFolder,
            EACCES | EROFS => Trouble::Denied,
            EISDIR => Trouble::Folder,
            EPERM => Trouble::NotPermitted,
            EEXIST => Trouble::InTheWay,
            ENOSPC | EFBIG => Trouble::NoRoom,
            ELOOP => Trouble::TooManyLinks,
            ENAMETOOLONG => Trouble::LongName,
            _ => Trouble::Other,
        }
    }
}

impl From<Error> for Trouble {
    ghost from_gives = { λ error why. why ≡ trouble_in error };

    fn from(error: Error) -> Trouble {
        error.raw_os_error().map_or(Trouble::Other, Trouble::from)
    }
}
