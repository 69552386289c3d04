// A look at a database whose log is restarted in the meantime.
use kd_io::{InputFault, LookFault, Watched, settled_copy};
use kd_wire::Bytes;
use std::alloc::{AllocError, Global};
use std::test::Fail;

// A database and its log. The log's header changes `changes` times, each time after the log is
// read. The calls are noted: `h` for the header, `d` for the database, `l` for the log.
#[derive(Drop)]
struct Restless {
    alloc: Global,
    changes: u32,
    header: u8,
    calls: String,
}

impl Restless {
    fn note(&mut self, call: &str, bytes: &[u8]) -> Result<Bytes, AllocError> {
        self.calls.push_str(call)?;
        Ok(Bytes::own(Vec::from_slice(self.alloc, bytes)?))
    }
}

impl Watched for Restless {
    ghost use Rattle.std.specs.Prelude.{None};

    ghost trace = { λ _. None };

    fn header(&mut self) -> Result<Bytes, InputFault> {
        let bytes = [self.header];
        Ok(self.note("h", &bytes)?)
    }

    fn database(&mut self) -> Result<Bytes, InputFault> {
        Ok(self.note("d", b"database")?)
    }

    fn log(&mut self) -> Result<Bytes, InputFault> {
        if self.changes > 0 {
            self.changes -= 1;
            self.header = self.header.wrapping_add(1);
        }
        Ok(self.note("l", b"log")?)
    }
}

// Reports whether bytes are those of a text.
fn is(bytes: &Bytes, text: &str) -> bool {
    bytes.as_slice() == text.as_bytes()
}

// Looks at a database whose header changes this many times, and returns the calls that were made.
fn looked(alloc: Global, changes: u32) -> (Result<(), LookFault>, String) {
    let mut files = Restless {
        alloc,
        changes,
        header: 0,
        calls: String::new(alloc),
    };
    let found = match settled_copy(&mut files) {
        Ok(copy) if is(&copy.db, "database") && is(&copy.log, "log") => Ok(()),
        Ok(_) => Err(LookFault::Input(InputFault::Read)),
        Err(fault) => Err(fault),
    };
    (found, files.calls)
}

#[test]
fn a_copy_is_tried_until_the_header_stays(rt: HostRuntime) -> Result<(), Fail> {
    let (found, calls) = looked(rt.alloc(), 0);
    assert!(rt; found == Ok(()) && calls.as_str() == "hdlh");
    let (found, calls) = looked(rt.alloc(), 2);
    assert!(rt; found == Ok(()) && calls.as_str() == "hdlhhdlhhdlh");
    let (found, calls) = looked(rt.alloc(), 99);
    assert!(rt; found == Ok(()) && calls.len() == 400);
    Ok(())
}

#[test]
fn a_header_that_never_stays_is_unsettled(rt: HostRuntime) -> Result<(), Fail> {
    let (found, calls) = looked(rt.alloc(), 100);
    assert!(rt; found == Err(LookFault::Unsettled) && calls.len() == 400);
    Ok(())
}
