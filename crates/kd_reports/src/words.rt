ghost use Rattle.std.specs.Prelude.{◌≡◌, ◌≤◌, IfOk, IfSome, Some, length, string_bytes};
ghost use Rattle.std.specs.Option.{option_copied};
ghost use Rattle.kd_trouble.specs.Troubles.{file_trouble_words};
ghost use Rattle.kd_reports.specs.Words.{AreStartWords, IsConfigReport, IsFileReason, IsFolderReason, IsUnreadLine, file_trouble_of, line_about_subject};

use kd_check::config_report;
use kd_io::{InputFault, MOST_BYTES, read_file};
use kd_json::ConfigFault;
use kd_names::signs_of;
use kd_start::token_files;
use kd_trouble::{FileTrouble, StartFault};
use std::alloc::{AllocError, Global};
use std::fs;
use std::fs::File;
use std::io::ErrorKind;

/// Returns, in words, why there is no configuration: a few lines, each with its line feed. The
/// folder of the token files and the file are tried again.
///
/// # Errors
///
/// Out of memory.
pub fn start_words(
    rt: &HostRuntime,
    file: Option<&str>,
    folder: Option<&str>,
    fault: &StartFault,
) -> Result<String, AllocError>
    ensures { IfOk result (λ words. AreStartWords (option_copied file.entry)
        (option_copied folder.entry) fault.now (string_bytes words)) }
{
    let alloc = rt.alloc();
    match fault {
        StartFault::Input(InputFault::Memory) => line_of(
            alloc,
            "the configuration",
            "out of memory",
        ),
        StartFault::Input(InputFault::Read) => unread_words(rt, file, folder),
        StartFault::Config(fault) => config_words(rt, file, fault),
    }
}

// Returns what is wrong with the text of a configuration, which is read again.
fn config_words(
    rt: &HostRuntime,
    file: Option<&str>,
    fault: &ConfigFault,
) -> Result<String, AllocError>
    ensures { IfOk result
        (λ words. IsConfigReport (option_copied file.entry) fault.now (string_bytes words)) }
{
    match file {
        Some(path) => text_report(rt, path, fault),
        None => line_of(rt.alloc(), "the built-in configuration", "out of memory"),
    }
}

// Returns what is wrong with the text of the file at a path, which is read again.
fn text_report(rt: &HostRuntime, path: &str, fault: &ConfigFault) -> Result<String, AllocError>
    ensures { IfOk result
        (λ words. IsConfigReport (Some path.now) fault.now (string_bytes words)) }
{
    let alloc = rt.alloc();
    let name = signs_of(alloc, path.as_bytes())?;
    let text = text_again(rt, path);
    config_report(alloc, &name, text.as_slice(), fault)
}

// Returns the text of the file at a path, or an empty one if it cannot be read.
pub(crate) fn text_again(rt: &HostRuntime, path: &str) -> Vec<u8>
    ensures { length result.items ≤ 16777216 }
{
    match read_file(rt, path, MOST_BYTES) {
        Ok(text) => text,
        Err(_) => Vec::new(rt.alloc()),
    }
}

// Returns why the folder or the file cannot be read.
fn unread_words(
    rt: &HostRuntime,
    file: Option<&str>,
    folder: Option<&str>,
) -> Result<String, AllocError>
    ensures { IfOk result (λ words. IsUnreadLine (option_copied file.entry)
        (option_copied folder.entry) (string_bytes words)) }
{
    let alloc = rt.alloc();
    if let Some(folder) = folder {
        if let Some(why) = folder_reason(rt, folder) {
            return line_of(alloc, folder, why);
        }
    }
    match file {
        Some(path) => line_of(alloc, path, file_reason(rt, path)),
        None => line_of(alloc, "the configuration", "it can't be read"),
    }
}

// Returns why the folder of the token files cannot be read, in words, if so.
fn folder_reason(rt: &HostRuntime, folder: &str) -> Option<&'static str>
    ensures { IfSome result (λ why. IsFolderReason why.now) }
{
    match fs::metadata(rt, folder) {
        Ok(found) if !found.is_dir() => return Some("it is no folder"),
        Err(error) if error.kind() == ErrorKind::NotFound => {
            return Some("there is no such folder");
        }
        _ => {}
    }
    match fs::read_dir(rt, folder) {
        Ok(_) => files_reason(rt, folder),
        Err(error) => Some(reason_of(error.kind())),
    }
}

// Returns that a token file of a folder cannot be read, if so.
fn files_reason(rt: &HostRuntime, folder: &str) -> Option<&'static str>
    ensures { IfSome result (λ why. IsFolderReason why.now) }
{
    match token_files(rt, folder) {
        Ok(_) => None,
        Err(_) => Some("one of its token files can't be read"),
    }
}

// Returns what a system error says of a file, in words.
fn reason_of(kind: ErrorKind) -> &'static str
    ensures exact { result.now ≡ file_trouble_words (file_trouble_of kind) }
    ensures folder { IsFolderReason result.now }
{
    trouble_of(kind).words()
}

// Returns why a file cannot be read, in words. It may be that it can be read now.
fn file_reason(rt: &HostRuntime, path: &str) -> &'static str
    ensures { IsFileReason result.now }
{
    file_trouble(rt, path).unwrap_or(FileTrouble::Other).words()
}

// Returns why a file cannot be read, if so. A file of more than 16 MiB is too large.
fn file_trouble(rt: &HostRuntime, path: &str) -> Option<FileTrouble> {
    match fs::metadata(rt, path) {
        Ok(found) if found.is_dir() => return Some(FileTrouble::IsFolder),
        Ok(found) if found.len() > u64::from(MOST_BYTES) => return Some(FileTrouble::TooLarge),
        Ok(_) => {}
        Err(error) => return Some(trouble_of(error.kind())),
    }
    match File::open(rt, path) {
        Ok(_) => None,
        Err(error) => Some(trouble_of(error.kind())),
    }
}

// Returns the trouble with a file that a system error means.
fn trouble_of(kind: ErrorKind) -> FileTrouble
    ensures { result ≡ file_trouble_of kind }
{
    match kind {
        ErrorKind::NotFound => FileTrouble::Absent,
        ErrorKind::PermissionDenied => FileTrouble::Denied,
        ErrorKind::IsADirectory => FileTrouble::IsFolder,
        _ => FileTrouble::Other,
    }
}

// `SUBJECT: WORDS`, as a line.
fn line_of(alloc: Global, subject: &str, words: &str) -> Result<String, AllocError>
    ensures { IfOk result
        (λ line. string_bytes line ≡ line_about_subject subject.now words.now) }
{
    let mut line = signs_of(alloc, subject.as_bytes())?;
    line.push_str(": ")?;
    line.push_str(words)?;
    line.push_str("\n")?;
    Ok(line)
}
