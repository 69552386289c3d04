use crate::doubles::{Giving, Keeping};
use crate::support::{PORTS, Work, with_server};
use kd_loops::{ReplayFault, replay_bytes};
use kd_server::{Server, replay};
use std::alloc::{AllocError, Global};
use std::test::Fail;
use test_tables::Fused;

// How a replay reads and writes: the source returns at most this many bytes a call, and after them
// fails or ends; the sink takes as many a call, up to a limit at which it fails.
type Ends = (usize, bool, usize);

// Replays an input between such ends, and finds the result and the sink afterwards.
#[derive(Drop)]
struct Replays<'a> {
    input: &'a str,
    ends: Ends,
}

impl<'a> Work for Replays<'a> {
    type Found = (Result<u64, ReplayFault>, Keeping);

    fn done(
        self,
        alloc: Global,
        server: &mut Server<Fused>,
    ) -> Result<(Result<u64, ReplayFault>, Keeping), Fail> {
        let Replays { input, ends } = self;
        let (step, source_fails, sink_limit) = ends;
        let mut source = Giving::new(input.as_bytes(), step, source_fails);
        let mut sink = Keeping::new(alloc, step.max(1), sink_limit);
        let result = replay(alloc, &mut source, &mut sink, server);
        Ok((result, sink))
    }
}

// Returns the result of a replay of this input with the built-in configuration, and the sink
// afterwards.
fn replayed(
    alloc: Global,
    input: &str,
    ends: Ends,
) -> Result<(Result<u64, ReplayFault>, Keeping), Fail> {
    with_server(alloc, PORTS, Replays { input, ends })
}

// Returns how many events were handled, or the number and the text of the fault.
fn printed(alloc: Global, handled: Result<u64, ReplayFault>) -> Result<String, AllocError> {
    match handled {
        Ok(count) => format!(in alloc; "{count}"),
        Err(fault) => format!(in alloc; "{} {fault}", fault.number()),
    }
}

// Reports whether a replay has this result.
fn is_result(
    alloc: Global,
    handled: Result<u64, ReplayFault>,
    want: &str,
) -> Result<bool, AllocError> {
    let found = printed(alloc, handled)?;
    Ok(found.as_str() == want)
}

// Reports whether a replay has this result, and has written this.
fn is_end(
    alloc: Global,
    handled: Result<u64, ReplayFault>,
    written: &[u8],
    want: &str,
    output: &str,
) -> Result<bool, Fail> {
    Ok(is_result(alloc, handled, want)? && written == output.as_bytes())
}

// Reports whether a replay of an input has this result and writes this.
fn ends_as(alloc: Global, input: &str, ends: Ends, want: &str, output: &str) -> Result<bool, Fail> {
    let (result, sink) = replayed(alloc, input, ends)?;
    is_end(alloc, result, sink.as_slice(), want, output)
}

// An input and its ends, the result, and what is written.
const ENDED: &[(&str, Ends, &str, &str)] = &[
    (
        "5 \n6 00",
        (1, false, 1000),
        "2",
        "5 quiet 1 Unreadable\n6 quiet 1 Unreadable\n",
    ),
    (
        "5 \n6 ",
        (1000, true, 1000),
        "94 Read",
        "5 quiet 1 Unreadable\n",
    ),
    (
        "5 \n6 ",
        (1, true, 1000),
        "94 Read",
        "5 quiet 1 Unreadable\n",
    ),
    ("", (1000, true, 1000), "94 Read", ""),
    ("5 \n", (1000, false, 3), "95 Write", "5 q"),
    ("5 \n", (1, false, 3), "95 Write", "5 q"),
    (
        "5 \n6 \n",
        (1000, false, 21),
        "95 Write",
        "5 quiet 1 Unreadable\n",
    ),
];

// A source and a sink that fail in mid-stream.
#[test]
fn a_replay_ends_as_its_ends_do(rt: HostRuntime) -> Result<(), Fail> {
    for (input, ends, want, output) in ENDED {
        assert!(rt; ends_as(rt.alloc(), input, *ends, want, output)?, "{input}");
    }
    Ok(())
}

// Reports whether a replay of an input has this result if its source returns at most `step` bytes a
// call.
fn answers(alloc: Global, input: &str, step: usize, want: &str) -> Result<bool, Fail> {
    let (result, _) = replayed(alloc, input, (step, false, 1000))?;
    Ok(is_result(alloc, result, want)?)
}

// Inputs, and the result of a replay of each.
const CUT: [(&str, &str); 8] = [
    ("", "0"),
    ("\n", "97 BadLine 1"),
    ("5 ", "1"),
    ("5 \n", "1"),
    ("5 \n67 89ab", "2"),
    ("5 \n\n6 \n", "97 BadLine 2"),
    ("5 \n6 \r\n7 \n", "97 BadLine 2"),
    ("5 00\n6 01\n7 02\n8 03\n", "4"),
];

// Lines end at line feeds and at the end of the input, however many bytes each call returns.
#[test]
fn lines_are_found_in_pieces(rt: HostRuntime) -> Result<(), Fail> {
    for (input, want) in &CUT {
        for step in &[1, 2, 3, 1_000_000] {
            assert!(rt;
                answers(rt.alloc(), input, *step, want)?,
                "{input} by {step}"
            );
        }
    }
    Ok(())
}

// Reports whether a replay of a line with `count` digits has this result.
fn answers_long(alloc: Global, count: usize, step: usize, want: &str) -> Result<bool, Fail> {
    let input = long_line(alloc, count)?;
    answers(alloc, input.as_str(), step, want)
}

// Makes a line with this many digits.
fn long_line(alloc: Global, count: usize) -> Result<String, AllocError> {
    let zeros = "0".repeat(alloc, count)?;
    format!(in alloc; "5 {zeros}\n")
}

// Numbers of digits of a line's datagram, and the result of a replay of the line.
const LONG: [(usize, &str); 3] = [
    (131_070, "1"),
    (131_072, "97 BadLine 1"),
    (200_000, "97 BadLine 1"),
];

// A line has at most 131,072 bytes, however many each call returns.
#[test]
fn a_line_may_be_long(rt: HostRuntime) -> Result<(), Fail> {
    for (count, want) in &LONG {
        for step in &[50_000, 65_536, 1_000_000] {
            assert!(rt;
                answers_long(rt.alloc(), *count, *step, want)?,
                "{count} digits by {step}"
            );
        }
    }
    Ok(())
}

// Replays bytes that are held in memory, and finds the lines and the result.
#[derive(Drop)]
struct ReplaysHeld<'a>(&'a [u8]);

impl<'a> Work for ReplaysHeld<'a> {
    type Found = (Vec<u8>, Result<u64, ReplayFault>);

    fn done(
        self,
        alloc: Global,
        server: &mut Server<Fused>,
    ) -> Result<(Vec<u8>, Result<u64, ReplayFault>), Fail> {
        Ok(replay_bytes(alloc, self.0, server))
    }
}

// Bytes, the result of a replay of them, and its lines.
const HELD: [(&str, &str, &str); 4] = [
    (
        "5 \n6 00\n",
        "2",
        "5 quiet 1 Unreadable\n6 quiet 1 Unreadable\n",
    ),
    ("5 ", "1", "5 quiet 1 Unreadable\n"),
    ("5 \n5 0g\n", "97 BadLine 2", "5 quiet 1 Unreadable\n"),
    ("", "0", ""),
];

// Reports whether bytes replay with this result, to these lines.
fn is_held(alloc: Global, input: &str, want: &str, output: &str) -> Result<bool, Fail> {
    let (lines, result) = with_server(alloc, PORTS, ReplaysHeld(input.as_bytes()))?;
    is_end(alloc, result, lines.as_slice(), want, output)
}

#[test]
fn bytes_that_are_held_replay_to_their_lines(rt: HostRuntime) -> Result<(), Fail> {
    for (input, want, output) in &HELD {
        assert!(rt; is_held(rt.alloc(), input, want, output)?, "{input}");
    }
    Ok(())
}
