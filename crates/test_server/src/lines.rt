// The line of a handled event.

use kd_event::{Handled, Reason, Response};
use kd_loops::event_line;
use std::test::Fail;

// A server takes no event of a moment that has so many digits.
#[test]
fn the_line_of_the_last_moment_has_all_its_digits(rt: HostRuntime) -> Result<(), Fail> {
    // An event at the last moment, for which nothing is sent.
    let handled = Handled {
        now: u64::MAX,
        response: Response::Quiet(Reason::NoRecord),
    };
    let line = event_line(rt.alloc(), &handled)?;
    assert!(rt; line.as_slice() == b"18446744073709551615 quiet 9 NoRecord\n".as_slice());
    Ok(())
}
