ghost use Rattle.std.specs.Prelude.{◌≡◌, Err, IfErr, IfSome, Some};
ghost use Rattle.std.specs.IoError.{error_kind};
ghost use Rattle.libc.specs.Io.{Ended};
ghost use Rattle.kd_start.specs.Trials.{IsOutside, IsSocketTrial, IsStoreTrial, names_no_file, socket_trouble_of, store_trouble_of};

use kd_io::System;
use kd_trouble::{SocketTrouble, StoreTrouble};
use libc::PATH_MAX;
use os::RangeLock;
use std::fs::File;
use std::io::{ErrorKind, Read};
use std::os::fd::AsRawFd;
use std::os::unix::fs::MetadataExt;
use std::{fs, io};

// The bytes of a database that a process that opens it locks, as SQLite does: the first, and how
// many.
const LOCKED: (u64, u64) = (0x4000_0000, 512);

/// Reports whether the database at a path exists. What a server does to open it is tried, with the
/// rights of this account: the database and its log are opened, or their folder is checked for
/// whether they may be created in it. Nothing is created, and nothing is changed.
///
/// # Errors
///
/// Another process has it open; this account may not read and write it or its log, create those
/// that are missing, or read their folder; the folder does not exist; something that a server does
/// not open has one of their names; or there is a rollback journal, which only SQLite plays back.
pub fn try_database(rt: &HostRuntime, path: &str) -> Result<bool, StoreTrouble>
    ensures { IsStoreTrial path.now result }
{
    if is_no_file(path) {
        return Err(StoreTrouble::Other);
    }
    try_path(rt, path)
}

// Reports whether SQLite does not take a path as that of a file.
fn is_no_file(path: &str) -> bool
    ensures { result ≡ names_no_file path.now }
{
    path.is_empty() || path == ":memory:" || path.as_bytes().starts_with(b"file:")
}

// Reports whether there is a database at the path of a file.
fn try_path(rt: &HostRuntime, path: &str) -> Result<bool, StoreTrouble>
    ensures { IfErr result IsOutside }
{
    match fs::canonicalize(rt, path) {
        Ok(real) => {
            try_file(rt, real.as_str())?;
            try_beside(rt, real.as_str())?;
            Ok(true)
        }
        Err(error) if error.kind() == ErrorKind::NotFound => {
            try_new(rt, path)?;
            try_beside(rt, path)?;
            Ok(false)
        }
        Err(error) => Err(store_trouble(&error)),
    }
}

// Returns the trouble with a store that a system error means.
fn store_trouble(error: &io::Error) -> StoreTrouble
    ensures exact { result ≡ store_trouble_of (error_kind error.now) }
    ensures outside { IsOutside result }
{
    match error.kind() {
        ErrorKind::PermissionDenied => StoreTrouble::Denied,
        _ => StoreTrouble::Other,
    }
}

// Checks that a path is that of a plain file with only one name that this account may read and
// write, and that no other process has it open.
fn try_file(rt: &HostRuntime, path: &str) -> Result<(), StoreTrouble>
    ensures { IfErr result IsOutside }
{
    match fs::symlink_metadata(rt, path) {
        Ok(found) if found.is_file() && found.nlink() == 1 => {}
        Ok(_) => return Err(StoreTrouble::Other),
        Err(error) => return Err(store_trouble(&error)),
    }
    match fs::OpenOptions::new().read(true).write(true).open(rt, path) {
        Ok(file) if is_locked(&file) => Err(StoreTrouble::Locked),
        Ok(_) => Ok(()),
        Err(error) => Err(store_trouble(&error)),
    }
}

// Reports whether another process has a database open.
fn is_locked(file: &File) -> bool {
    let (from, count) = LOCKED;
    // Tried as a server takes the lock: a reader of SQLite has a shared one.
    if os::try_lock_range(file.as_raw_fd(), RangeLock::Exclusive, from, count) == 0 {
        return false;
    }
    io::Error::from_raw_os_error(os::errno()).kind() == ErrorKind::WouldBlock
}

// Checks that a database may be created at a path where there is none: the path is not a dangling
// link, and its folder exists and this account may create files in it.
fn try_new(rt: &HostRuntime, path: &str) -> Result<(), StoreTrouble>
    ensures { IfErr result IsOutside }
{
    if fs::symlink_metadata(rt, path).is_ok() {
        return Err(StoreTrouble::Other);
    }
    let folder = folder_of(path);
    match fs::metadata(rt, folder) {
        Ok(found) if found.is_dir() => try_making(folder),
        Ok(_) => Err(StoreTrouble::NoFolder),
        Err(error) if error.kind() == ErrorKind::PermissionDenied => Err(StoreTrouble::Denied),
        Err(_) => Err(StoreTrouble::NoFolder),
    }
}

// Returns the folder of the file at a path.
fn folder_of(path: &str) -> &str {
    match path.rfind('/') {
        Some(0) => "/",
        Some(at) => &path[..at],
        None => ".",
    }
}

// Checks that the files next to a database let a server open it: no rollback journal that SQLite
// left, a log that can be opened or created, and a folder that can be opened, because a server
// syncs it to disk.
fn try_beside(rt: &HostRuntime, path: &str) -> Result<(), StoreTrouble>
    ensures { IfErr result IsOutside }
{
    let folder = folder_of(path);
    match format!(in rt.alloc(); "{path}-journal") {
        Ok(journal) => try_journal(rt, journal.as_str())?,
        Err(_) => return Err(StoreTrouble::Other),
    }
    match format!(in rt.alloc(); "{path}-wal") {
        Ok(log) => try_log(rt, folder, log.as_str())?,
        Err(_) => return Err(StoreTrouble::Other),
    }
    match File::open(rt, folder) {
        Ok(_) => Ok(()),
        Err(error) => Err(store_trouble(&error)),
    }
}

// Checks that no rollback journal at a path has changes to play back. One that is empty or begins
// with a zero byte has none (SQLite's file format, section 3).
fn try_journal(rt: &HostRuntime, path: &str) -> Result<(), StoreTrouble>
    ensures { IfErr result IsOutside }
{
    match fs::symlink_metadata(rt, path) {
        Ok(found) if found.is_file() => {}
        Ok(_) => return Err(StoreTrouble::Other),
        Err(error) if error.kind() == ErrorKind::NotFound => return Ok(()),
        Err(error) => return Err(store_trouble(&error)),
    }
    match first_of(rt, path) {
        Ok(0) => Ok(()),
        Ok(_) => Err(StoreTrouble::Other),
        Err(error) => Err(store_trouble(&error)),
    }
}

// Returns the first byte of the file at a path, or 0 if it is empty.
fn first_of(rt: &HostRuntime, path: &str) -> io::Result<u8> {
    let mut file = File::open(rt, path)?;
    let mut first = [0];
    let _count = file.read(&mut first)?;
    Ok(first[0])
}

// Checks that the log at a path can be opened, or may be created in its folder.
fn try_log(rt: &HostRuntime, folder: &str, path: &str) -> Result<(), StoreTrouble>
    ensures { IfErr result IsOutside }
{
    match fs::symlink_metadata(rt, path) {
        Ok(_) => try_file(rt, path),
        Err(error) if error.kind() == ErrorKind::NotFound => try_making(folder),
        Err(error) => Err(store_trouble(&error)),
    }
}

// Checks that this account may create a file in a folder. The `unsafe` is here because C reads the
// path up to its zero byte, which it has.
fn try_making(folder: &str) -> Result<(), StoreTrouble>
    ensures { IfErr result IsOutside }
{
    let Some(path) = c_path(folder) else {
        return Err(StoreTrouble::Other);
    };
    if unsafe { libc::access(&path, libc::W_OK | libc::X_OK) } == 0 {
        return Ok(());
    }
    Err(store_trouble(&io::Error::from_raw_os_error(os::errno())))
}

// Returns a path as C reads it, followed by zero bytes, if it fits.
fn c_path(path: &str) -> Option<[u8; PATH_MAX]>
    ensures { IfSome result Ended }
{
    let bytes = path.as_bytes();
    if bytes.len() >= PATH_MAX {
        return None;
    }
    let mut text = [0; PATH_MAX];
    text[..bytes.len()].copy_from_slice(bytes);
    text[PATH_MAX - 1] = 0;
    Some(text)
}

/// Reports whether a socket of a system at an address, a number in host order, and a port could
/// send to all hosts of its link: whether there is a route to 255.255.255.255. Nothing is sent.
///
/// # Errors
///
/// The socket cannot be opened.
pub fn try_socket<S: System>(system: &S, address: u32, port: u16) -> Result<bool, SocketTrouble>
    ensures { IsSocketTrial S.System system.now address port result }
{
    match system.open(address, port) {
        Ok(socket) => Ok(system.has_route(&socket)),
        Err(error) => Err(socket_trouble(error.kind())),
    }
}

// Returns the trouble with a socket that a system error means.
fn socket_trouble(kind: ErrorKind) -> SocketTrouble
    ensures { result ≡ socket_trouble_of kind }
{
    match kind {
        ErrorKind::AddrInUse => SocketTrouble::Taken,
        ErrorKind::PermissionDenied => SocketTrouble::Denied,
        ErrorKind::AddrNotAvailable => SocketTrouble::NoSuchAddress,
        _ => SocketTrouble::Other,
    }
}
