use kd_loops::EndFailed;
use os::FromRawFd;
use std::env::{VarError, var};
use std::net::UdpSocket;
use std::os::fd::IntoRawFd;

/// Returns the socket that a service manager bound for this process and handed over, as systemd
/// does for a service with a socket unit: `LISTEN_FDS` is 1 in the environment, and the socket is
/// descriptor 3 (`sd_listen_fds`). Returns `None` if `LISTEN_FDS` is not set or has another value.
/// A program calls this once, before it opens anything.
///
/// # Errors
///
/// Descriptor 3 is not a socket, or there is no memory to read the variable.
pub fn inherited_socket(rt: &HostRuntime) -> Option<Result<UdpSocket, EndFailed>> {
    match var(rt, "LISTEN_FDS") {
        Ok(count) if count.as_str() == "1" => Some(third()),
        Ok(_) => None,
        Err(VarError::OutOfMemory) => Some(Err(EndFailed)),
        Err(_) => None,
    }
}

// Takes descriptor 3 as a socket. The `unsafe` is here because a descriptor is a number, and anyone
// who has the number could close it twice. This one was open when the program began, so nothing
// that the program opens has it, and no other call takes it. If it is not a socket, it stays open:
// it is not ours.
fn third() -> Result<UdpSocket, EndFailed> {
    let socket = unsafe { UdpSocket::from_raw_fd(3) };
    match socket.local_addr() {
        Ok(_) => Ok(socket),
        Err(_) => {
            let _open = socket.into_raw_fd();
            Err(EndFailed)
        }
    }
}
