use kd_io::{Sending, Socket};
use kd_loops::Link;
use std::net::UdpSocket;
use std::rt::Clock;
use std::test::Fail;

// The steady clock is the system's: it is read between two readings of the system's.
#[test]
fn the_steady_clock_counts_the_systems_seconds(rt: HostRuntime) -> Result<(), Fail> {
    let sending = Sending {
        mirror: false,
        broadcast_as: None,
    };
    let socket = UdpSocket::bind(&rt, ("127.0.0.1", 0))?;
    let mut link = Socket::over(&rt, socket, sending);
    let before = rt.monotonic()?.as_secs();
    let counted = link.steady();
    let after = rt.monotonic()?.as_secs();
    assert!(rt; 0 < before && before <= counted && counted <= after);
    Ok(())
}
