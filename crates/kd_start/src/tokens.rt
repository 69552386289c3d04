use kd_io::{InputFault, MOST_BYTES, read_file};
use kd_json::TokenFile;
use kd_wire::Bytes;
use std::fs;
use std::io::ErrorKind;
use std::rt::Files;

/// Reads the token files of a folder: its plain files, and links to plain files, with names that
/// are UTF-8 and end in `.k4tk`. Each file is known by its whole name.
///
/// # Errors
///
/// `Read` if the folder or one of these files cannot be read or a file is longer than 16 MiB, and
/// `Memory` if memory runs out.
pub fn token_files<R: Files + AllocGlobal + Clone + Drop>(
    rt: &R,
    folder: &str,
) -> Result<Vec<TokenFile>, InputFault> {
    let mut files = Vec::new(rt.alloc());
    for entry in fs::read_dir(rt, folder)? {
        match entry {
            Ok(entry) if entry.file_name().ends_with(".k4tk") => {
                if is_plain(rt, entry.path().as_str())? {
                    files.push(token_file(rt, entry.file_name(), entry.path().as_str())?)?;
                }
            }
            Ok(_) => {}
            Err(error) if error.kind() == ErrorKind::InvalidFilename => {}
            Err(error) => return Err(InputFault::from(error)),
        }
    }
    Ok(files)
}

// Reports whether a path is that of a plain file, or of a link to one.
fn is_plain<R: Files>(rt: &R, path: &str) -> Result<bool, InputFault> {
    match fs::metadata(rt, path) {
        Ok(metadata) => Ok(metadata.is_file()),
        Err(error) if error.kind() == ErrorKind::NotFound => Ok(false),
        Err(error) => Err(InputFault::from(error)),
    }
}

// Reads the token file of a name at a path.
fn token_file<R: Files + AllocGlobal>(
    rt: &R,
    name: &str,
    path: &str,
) -> Result<TokenFile, InputFault> {
    let name = Bytes::own(Vec::from_slice(rt.alloc(), name.as_bytes())?);
    let bytes = Bytes::own(read_file(rt, path, MOST_BYTES)?);
    Ok(TokenFile { name, bytes })
}
