//! The troubles that a step of starting the server can meet, in words that an operator can act on.

ghost use Rattle.std.specs.Prelude.{◌≡◌};
ghost use Rattle.kd_trouble.specs.Troubles.{file_trouble_words, store_trouble_words, socket_trouble_words};

use std::fmt;

/// Why a file cannot be read.
#[derive(Clone, Copy, PartialEq, Eq)]
pub enum FileTrouble {
    /// No file has the path.
    Absent,
    /// The account is not allowed to read the file or to enter a directory of its path.
    Denied,
    /// The path is that of a directory.
    IsFolder,
    /// The file is larger than 16 MiB.
    TooLarge,
    /// Another cause.
    Other,
}

impl fmt::Debug for FileTrouble {
    fn fmt<W: fmt::Write>(&self, f: &mut fmt::Formatter<W>) -> fmt::Result {
        fmt::Display::fmt(self, f)
    }
}

impl FileTrouble {
    /// Returns the trouble in words, in ASCII.
    pub fn words(self) -> &'static str
        ensures { result.now ≡ file_trouble_words self }
    {
        match self {
            FileTrouble::Absent => "there is no such file",
            FileTrouble::Denied => "this account may not read it",
            FileTrouble::IsFolder => "it is a folder",
            FileTrouble::TooLarge => "it has more than 16777216 bytes",
            FileTrouble::Other => "it can't be read",
        }
    }
}

impl fmt::Display for FileTrouble {
    ghost use Rattle.std.specs.Prelude.{Some};
    ghost use Rattle.kd_trouble.specs.Troubles.{file_trouble_words};

    ghost output = { λ trouble. Some (file_trouble_words trouble) };

    fn fmt<W: fmt::Write>(&self, f: &mut fmt::Formatter<W>) -> fmt::Result {
        let words = self.words();
        write!(f, "{words}")
    }
}

/// Why a database cannot be opened.
#[derive(Clone, Copy, PartialEq, Eq)]
pub enum StoreTrouble {
    /// Another process has it open.
    Locked,
    /// It has a table `lease` with other columns.
    Schema,
    /// Its files are not a database, or are damaged.
    Damaged,
    /// The account is not allowed to read, write or create its files.
    Denied,
    /// The directory that would contain it does not exist.
    NoFolder,
    /// Another cause.
    Other,
}

impl fmt::Debug for StoreTrouble {
    fn fmt<W: fmt::Write>(&self, f: &mut fmt::Formatter<W>) -> fmt::Result {
        fmt::Display::fmt(self, f)
    }
}

impl StoreTrouble {
    /// Returns the trouble in words, in ASCII.
    pub fn words(self) -> &'static str
        ensures { result.now ≡ store_trouble_words self }
    {
        match self {
            StoreTrouble::Locked => "another process has it open",
            StoreTrouble::Schema => "its table lease is not the one that kdhcp makes",
            StoreTrouble::Damaged => "it is damaged",
            StoreTrouble::Denied => "this account may not read and write it",
            StoreTrouble::NoFolder => "there is no such folder",
            StoreTrouble::Other => "it can't be opened",
        }
    }
}

impl fmt::Display for StoreTrouble {
    ghost use Rattle.std.specs.Prelude.{Some};
    ghost use Rattle.kd_trouble.specs.Troubles.{store_trouble_words};

    ghost output = { λ trouble. Some (store_trouble_words trouble) };

    fn fmt<W: fmt::Write>(&self, f: &mut fmt::Formatter<W>) -> fmt::Result {
        let words = self.words();
        write!(f, "{words}")
    }
}

/// Why a socket cannot be opened.
#[derive(Clone, Copy, PartialEq, Eq)]
pub enum SocketTrouble {
    /// Another process uses the port at this address.
    Taken,
    /// The account is not allowed to use the port.
    Denied,
    /// No interface of the machine has this address.
    NoSuchAddress,
    /// Another cause.
    Other,
}

impl fmt::Debug for SocketTrouble {
    fn fmt<W: fmt::Write>(&self, f: &mut fmt::Formatter<W>) -> fmt::Result {
        fmt::Display::fmt(self, f)
    }
}

impl SocketTrouble {
    /// Returns the trouble in words, in ASCII.
    pub fn words(self) -> &'static str
        ensures { result.now ≡ socket_trouble_words self }
    {
        match self {
            SocketTrouble::Taken => "another process has this port",
            SocketTrouble::Denied => "this account may not take this port",
            SocketTrouble::NoSuchAddress => "this machine has no such address",
            SocketTrouble::Other => "it can't be opened",
        }
    }
}

impl fmt::Display for SocketTrouble {
    ghost use Rattle.std.specs.Prelude.{Some};
    ghost use Rattle.kd_trouble.specs.Troubles.{socket_trouble_words};

    ghost output = { λ trouble. Some (socket_trouble_words trouble) };

    fn fmt<W: fmt::Write>(&self, f: &mut fmt::Formatter<W>) -> fmt::Result {
        let words = self.words();
        write!(f, "{words}")
    }
}
