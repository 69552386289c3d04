ghost use Rattle.std.specs.Prelude.{◌≡◌, ◌+◌, ◌≤◌, ℕ, List, Some, IfOk, OnErr, OnOk, length, true, vec_capacity};
ghost use Rattle.std.specs.Io.KnownBytes.{prepend_known};
ghost use Rattle.kd_loops.specs.Lines.{line_limit};
ghost use Rattle.kd_loops.specs.Finding.{FailsIn, FindsIn};

use crate::ahead::{Ahead, Part};
use crate::ends::{EndFailed, Source};

// The most bytes that a line has, without its line feed.
pub(crate) const LINE_LIMIT: usize = 131_072;

// The kind of the next line.
#[derive(Clone, Copy)]
pub(crate) enum Found {
    Line,
    TooLong,
    End,
}

// Reads the next line, without its line feed, into `line`. A line that is too long is reported
// before its end is reached.
pub(crate) fn next_line<S: Source>(
    ahead: &mut Ahead,
    source: &mut S,
    line: &mut Vec<u8>,
) -> Result<Found, EndFailed>
    requires { line_limit ≤ vec_capacity line.old }
    ensures found { IfOk result (λ found. (all : List ℕ)
        → prepend_known ahead.old (S.remaining source.old) ≡ Some all
        → FindsIn found all (prepend_known ahead.new (S.remaining source.new)) line.new.items) }
    ensures short { length line.new.items ≤ line_limit }
    ensures room { vec_capacity line.old ≤ vec_capacity line.new }
    ensures failed { OnErr result (S.has_failed source.new ≡ true) }
    ensures cut { OnErr result ((all : List ℕ)
        → prepend_known ahead.old (S.remaining source.old) ≡ Some all
        → FailsIn all (S.remaining source.new)) }
{
    line.clear();
    for _ in 0..=LINE_LIMIT {
        ahead.more(source)?;
        match ahead.take_part(line) {
            Part::Last => return Ok(Found::Line),
            Part::Open => {}
            Part::None if line.is_empty() => return Ok(Found::End),
            Part::None => return Ok(Found::Line),
            Part::TooLong => return Ok(Found::TooLong),
        }
    }
    unreachable!()
}
