// The record of received datagrams, in a file.
use crate::files::remove;
use kd_io::journal;
use kd_loops::write_all;
use std::fs;
use std::os::unix::fs::PermissionsExt;
use std::test::Fail;

const PATH: &str = "record.txt";

// Opens the record and writes a text to it.
fn write(rt: &HostRuntime, text: &[u8]) -> Result<(), Fail> {
    let mut record = journal(rt, PATH, &[])?;
    write_all(&mut record.sink, text)?;
    Ok(())
}

// A record is created so that only its owner can use it, and later text is appended.
#[test]
fn a_record_is_appended_to_and_is_its_owners(rt: HostRuntime) -> Result<(), Fail> {
    remove(&rt, &[PATH]);
    write(&rt, b"100 00\n")?;
    write(&rt, b"110 0a\n")?;
    let text = fs::read_to_string(&rt, PATH)?;
    let mode = fs::metadata(&rt, PATH)?.permissions().mode();
    remove(&rt, &[PATH]);
    assert!(rt; text.as_str() == "100 00\n110 0a\n");
    assert!(rt; mode & 0o777 == 0o600);
    Ok(())
}

// If there is no folder with that name there is no record.
#[test]
fn a_record_in_no_folder_is_refused(rt: HostRuntime) -> Result<(), Fail> {
    assert!(rt; journal(&rt, "no-such-folder/record.txt", &[]).is_err());
    Ok(())
}
