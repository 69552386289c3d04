use kd_loops::{EndFailed, Sink, Source};
use std::io::{Read, Write};

/// A reader as the source of a replay.
#[derive(Drop)]
pub struct Input<R: Read> {
    reader: R,
    failed: bool,
}

impl<R: Read + Drop> Input<R> {
    ghost use Rattle.std.specs.Prelude.{◌≡◌, false};

    /// Makes a source over a reader. It has not failed.
    pub fn over(reader: R) -> Input<R>
        ensures reader { result.reader ≡ reader }
        ensures failed { result.failed ≡ false }
    {
        Input {
            reader,
            failed: false,
        }
    }
}

impl<R: Read + Drop> Source for Input<R> {
    ghost remaining = { λ s. R.remaining s.reader };

    ghost has_failed = { λ s. s.failed };

    fn read(&mut self, buf: &mut [u8]) -> Result<usize, EndFailed> {
        match self.reader.read(buf) {
            Ok(n) => Ok(n),
            Err(_) => {
                self.failed = true;
                Err(EndFailed)
            }
        }
    }
}

/// A writer as the sink of a replay. It is a failure if the writer takes none of a nonempty text.
#[derive(Drop)]
pub struct Output<W: Write> {
    writer: W,
    failed: bool,
}

impl<W: Write + Drop> Output<W> {
    ghost use Rattle.std.specs.Prelude.{◌≡◌, false};

    /// Makes a sink over a writer. It has not failed.
    pub fn over(writer: W) -> Output<W>
        ensures writer { result.writer ≡ writer }
        ensures failed { result.failed ≡ false }
    {
        Output {
            writer,
            failed: false,
        }
    }
}

impl<W: Write + Drop> Sink for Output<W> {
    ghost contents = { λ s. W.contents s.writer };

    ghost has_failed = { λ s. s.failed };

    fn write(&mut self, bytes: &[u8]) -> Result<usize, EndFailed> {
        match self.writer.write(bytes) {
            Ok(n) if n > 0 || bytes.is_empty() => Ok(n),
            _ => {
                self.failed = true;
                Err(EndFailed)
            }
        }
    }
}
