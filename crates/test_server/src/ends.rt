use crate::support::expect;
use kd_io::{InputFault, MOST_BYTES, read_file};
use kd_json::TokenFile;
use kd_start::token_files;
use std::alloc::Global;
use std::os::unix::fs::symlink;
use std::test::Fail;
use std::{env, fs, process};

// Makes a new folder for this test.
fn folder(rt: &HostRuntime, test: &str) -> Result<String, Fail> {
    let path = folder_path(rt, test)?;
    make_anew(rt, path.as_str())?;
    Ok(path)
}

// Returns the path of the folder for a test.
fn folder_path(rt: &HostRuntime, test: &str) -> Result<String, Fail> {
    let id = process::id(rt.process());
    let temp = env::temp_dir(rt)?;
    let within = temp.as_path().to_string_lossy();
    Ok(format!(in rt.alloc(); "{within}/test_server_{test}_{id}")?)
}

// Makes an empty folder at a path.
fn make_anew(rt: &HostRuntime, path: &str) -> Result<(), Fail> {
    if fs::exists(rt, path)? {
        fs::remove_dir_all(rt, path)?;
    }
    Ok(fs::create_dir(rt, path)?)
}

// Returns the path of a name in a folder.
fn within(rt: &HostRuntime, folder: &str, name: &str) -> Result<String, Fail> {
    Ok(format!(in rt.alloc(); "{folder}/{name}")?)
}

// Lengths of files, limits, and whether the file is read.
const LIMITS: [(usize, u32, bool); 7] = [
    (0, 0, true),
    (1, 0, false),
    (5, 5, true),
    (6, 5, false),
    (7, 5, false),
    (100_000, 100_000, true),
    (100_001, 100_000, false),
];

// Reports whether a file of `length` bytes is read whole; it must not be if it is longer than the
// limit.
fn is_read(rt: &HostRuntime, path: &str, length: usize, most: u32) -> Result<bool, Fail> {
    let mut bytes: Vec<u8> = Vec::new(rt.alloc());
    bytes.resize(length, 7)?;
    is_read_back(rt, path, bytes.as_slice(), most)
}

// Does the same for a file of these bytes.
fn is_read_back(rt: &HostRuntime, path: &str, bytes: &[u8], most: u32) -> Result<bool, Fail> {
    fs::write(rt, path, bytes)?;
    match read_file(rt, path, most) {
        Ok(read) => Ok(read.as_slice() == bytes),
        Err(InputFault::Read) => Ok(false),
        Err(InputFault::Memory) => Err("Memory".into()),
    }
}

#[test]
fn a_file_has_at_most_its_bytes(rt: HostRuntime) -> Result<(), Fail> {
    let folder = folder(&rt, "file")?;
    expect_limits(&rt, folder.as_str())
}

// Checks the limits of files in a folder, and removes it.
fn expect_limits(rt: &HostRuntime, folder: &str) -> Result<(), Fail> {
    expect_lengths(rt, folder)?;
    Ok(fs::remove_dir_all(rt, folder)?)
}

// Checks the limits of files in a folder.
fn expect_lengths(rt: &HostRuntime, folder: &str) -> Result<(), Fail> {
    let path = within(rt, folder, "a")?;
    expect_rows(rt, path.as_str())
}

// Checks the limits of the file at a path.
fn expect_rows(rt: &HostRuntime, path: &str) -> Result<(), Fail> {
    for (length, most, fits) in &LIMITS {
        let is_so = is_read(rt, path, *length, *most)? == *fits;
        expect(is_so, "whether a file of that length is read")?;
    }
    Ok(())
}

#[test]
fn want_of_memory_is_fault_91(rt: HostRuntime) -> Result<(), Fail> {
    assert!(rt; InputFault::Memory.number() == 91);
    let text = format!(in rt.alloc(); "{}", InputFault::Memory)?;
    assert!(rt; text.as_str() == "Memory");
    Ok(())
}

// Returns a token file as `name=bytes;`.
fn row(alloc: Global, file: &TokenFile) -> Result<String, Fail> {
    let name = str::from_utf8(file.name.as_slice())?;
    let bytes = str::from_utf8(file.bytes.as_slice())?;
    Ok(format!(in alloc; "{name}={bytes};")?)
}

// Returns the names and the bytes of a folder's token files, as a text of sorted rows.
fn listed(rt: &HostRuntime, folder: &str) -> Result<String, Fail> {
    let files = token_files(rt, folder)?;
    sorted(rt.alloc(), &files)
}

// Returns token files as such a text.
fn sorted(alloc: Global, files: &[TokenFile]) -> Result<String, Fail> {
    let mut rows = rows_of(alloc, files)?;
    joined(alloc, &mut rows)
}

// Returns rows as one text, sorted.
fn joined(alloc: Global, rows: &mut Vec<String>) -> Result<String, Fail> {
    rows.sort()?;
    Ok(rows.join(alloc, "")?)
}

// Returns the rows of token files.
fn rows_of(alloc: Global, files: &[TokenFile]) -> Result<Vec<String>, Fail> {
    let mut rows = Vec::new(alloc);
    put_rows(alloc, &mut rows, files)?;
    Ok(rows)
}

// Adds the rows of token files.
fn put_rows(alloc: Global, rows: &mut Vec<String>, files: &[TokenFile]) -> Result<(), Fail> {
    for file in files {
        rows.push(row(alloc, file)?)?;
    }
    Ok(())
}

// The names of files, and their texts.
const NAMED: &[(&str, &str)] = &[
    ("b.k4tk", "two"),
    ("a.k4tk", "one"),
    ("empty.k4tk", ""),
    (".k4tk", "hidden"),
    ("a.K4TK", "capital"),
    ("k4tk", "no dot"),
    ("a.k4tk.old", "old"),
    ("plain", "other"),
];

// The targets of links, and their names.
const LINKS: &[(&str, &str)] = &[
    ("plain", "link.k4tk"),
    ("folder.k4tk", "to-folder.k4tk"),
    ("nothing", "to-nothing.k4tk"),
];

// Makes a file with a name in a folder.
fn put_file(rt: &HostRuntime, folder: &str, name: &str, text: &str) -> Result<(), Fail> {
    let path = within(rt, folder, name)?;
    Ok(fs::write(rt, path.as_str(), text.as_bytes())?)
}

// Makes a link with a name in a folder.
fn put_link(rt: &HostRuntime, folder: &str, target: &str, name: &str) -> Result<(), Fail> {
    let path = within(rt, folder, name)?;
    Ok(symlink(rt, target, path.as_str())?)
}

// Makes those files and links, and a folder with a name like that of a token file.
fn fill(rt: &HostRuntime, folder: &str) -> Result<(), Fail> {
    for (name, text) in NAMED {
        put_file(rt, folder, name, text)?;
    }
    fs::create_dir(rt, within(rt, folder, "folder.k4tk")?.as_str())?;
    for (target, name) in LINKS {
        put_link(rt, folder, target, name)?;
    }
    Ok(())
}

#[test]
fn token_files_are_those_of_the_name(rt: HostRuntime) -> Result<(), Fail> {
    let folder = folder(&rt, "tokens")?;
    expect_tokens(&rt, folder.as_str())
}

// Checks the token files of an empty folder, and of the folder when it has those files; and removes
// it.
fn expect_tokens(rt: &HostRuntime, folder: &str) -> Result<(), Fail> {
    expect(listed(rt, folder)?.is_empty(), "no token file")?;
    fill(rt, folder)?;
    let want = ".k4tk=hidden;a.k4tk=one;b.k4tk=two;empty.k4tk=;link.k4tk=other;";
    expect(listed(rt, folder)?.as_str() == want, "the token files")?;
    Ok(fs::remove_dir_all(rt, folder)?)
}

// Returns how many token files a folder has when one has `length` bytes, or none if that is too
// long.
fn files_of(rt: &HostRuntime, folder: &str, length: u32) -> Result<Option<usize>, Fail> {
    put_large(rt, folder, length)?;
    match token_files(rt, folder) {
        Ok(files) => Ok(Some(files.len())),
        Err(InputFault::Read) => Ok(None),
        Err(InputFault::Memory) => Err("Memory".into()),
    }
}

// Makes a token file of `length` bytes in a folder.
fn put_large(rt: &HostRuntime, folder: &str, length: u32) -> Result<(), Fail> {
    let path = within(rt, folder, "large.k4tk")?;
    Ok(fs::create(rt, path.as_str())?.set_len(u64::from(length))?)
}

#[test]
fn a_token_file_over_the_limit_is_a_fault(rt: HostRuntime) -> Result<(), Fail> {
    let folder = folder(&rt, "large")?;
    expect_large(&rt, folder.as_str())
}

// Checks a token file of the most bytes and one of more in a folder, and removes it.
fn expect_large(rt: &HostRuntime, folder: &str) -> Result<(), Fail> {
    let fits = files_of(rt, folder, MOST_BYTES)? == Some(1);
    expect(fits, "a token file of the most bytes")?;
    let is_refused = files_of(rt, folder, MOST_BYTES + 1)?.is_none();
    expect(is_refused, "a token file of more")?;
    Ok(fs::remove_dir_all(rt, folder)?)
}
