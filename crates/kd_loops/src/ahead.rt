ghost use Rattle.std.specs.Prelude.{◌≡◌, ◌↔◌, IsTrue, ◌+◌, ◌<◌, ◌≤◌, [], IfOk, OnOk, OnErr, length, slice_range, true, vec_capacity};
ghost use Rattle.std.specs.Io.KnownBytes.{Consumes, IsAtEnd, Keeps, prepend_known};
ghost use Rattle.kd_loops.specs.Lines.{line_limit};
ghost use Rattle.kd_loops.specs.Finding.{TakesPart};

use crate::ends::{EndFailed, Source};
use crate::lines::LINE_LIMIT;
use crate::room::put;
use memchr::memchr;
use std::alloc::{AllocError, Global};
use std::marker::Model;

const BUFFER: usize = 65_536;

// The bytes that were read from a source but not consumed yet.
#[derive(Drop)]
pub(crate) struct Ahead {
    buffer: Vec<u8>,
    from: usize,
    to: usize,
}

impl Model for Ahead {
    ghost use Rattle.std.specs.Prelude.{ℕ, List, ◌<◌, ◌≤◌, length, slice_range};

    ghost Value = { List ℕ };

    ghost view = { λ a. slice_range a.buffer.items a.from a.to };

    ghost invariant = { λ a. (a.from ≤ a.to) × (a.to ≤ length a.buffer.items)
        × (0 < length a.buffer.items) };
}

// What was consumed of the bytes that are ahead.
#[derive(Clone, Copy)]
pub(crate) enum Part {
    // The rest of a line, and its line feed.
    Last,
    // All the bytes; the line goes on.
    Open,
    // Nothing, because there are no bytes.
    None,
    // Nothing, because the line is too long.
    TooLong,
}

impl Ahead {
    pub(crate) fn new(alloc: Global) -> Result<Ahead, AllocError>
        ensures { IfOk result (λ ahead. ahead ≡ []) }
    {
        let mut buffer = Vec::with_capacity(alloc, BUFFER)?;
        buffer.resize(BUFFER, 0)?;
        Ok(Ahead {
            buffer,
            from: 0,
            to: 0,
        })
    }

    fn is_empty(&self) -> bool
        ensures { IsTrue result ↔ (self.now ≡ []) }
    {
        self.from == self.to
    }

    // Reads bytes and drops those that are there.
    fn fill<S: Source>(&mut self, source: &mut S) -> Result<(), EndFailed>
        ensures read { OnOk result
            (Consumes (S.remaining source.old) (S.remaining source.new) self.new) }
        ensures end { OnOk result (self.new ≡ [] → IsAtEnd (S.remaining source.new)) }
        ensures failed { OnErr result (S.has_failed source.new ≡ true) }
        ensures kept { OnErr result (Keeps (S.remaining source.old) (S.remaining source.new)) }
    {
        self.from = 0;
        self.to = 0;
        self.to = source.read(self.buffer.as_mut_slice())?;
        Ok(())
    }

    // Reads bytes if there are none.
    pub(crate) fn more<S: Source>(&mut self, source: &mut S) -> Result<(), EndFailed>
        ensures read { OnOk result (Consumes (prepend_known self.old (S.remaining source.old))
            (prepend_known self.new (S.remaining source.new)) []) }
        ensures end { OnOk result (self.new ≡ [] → IsAtEnd (S.remaining source.new)) }
        ensures failed { OnErr result (S.has_failed source.new ≡ true) }
        ensures none { OnErr result (self.old ≡ []) }
        ensures kept { OnErr result (Keeps (S.remaining source.old) (S.remaining source.new)) }
    {
        if !self.is_empty() {
            return Ok(());
        }
        self.fill(source)
    }

    // Moves the bytes that belong to a line that has begun into it.
    pub(crate) fn take_part(&mut self, line: &mut Vec<u8>) -> Part
        requires room { line_limit ≤ vec_capacity line.old }
        requires begun { length line.old.items ≤ line_limit }
        ensures takes { TakesPart result self.old line.old.items self.new line.new.items }
        ensures short { length line.new.items ≤ line_limit }
        ensures capacity { vec_capacity line.old ≤ vec_capacity line.new }
    {
        let chunk = &self.buffer[self.from..self.to];
        if chunk.is_empty() {
            return Part::None;
        }
        let room = LINE_LIMIT - line.len();
        match memchr(b'\n', chunk) {
            Some(at) => {
                if at > room {
                    return Part::TooLong;
                }
                put(line, &chunk[..at]);
                self.from += at + 1;
                Part::Last
            }
            None => {
                if chunk.len() > room {
                    return Part::TooLong;
                }
                put(line, chunk);
                self.from = self.to;
                Part::Open
            }
        }
    }
}
