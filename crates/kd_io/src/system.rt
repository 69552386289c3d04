use crate::link::place_at;
use kd_event::Ports;
use std::io;
use std::net::UdpSocket;
use std::time::SystemTime;

// 255.255.255.255.
const ALL_HOSTS: u32 = 0xffff_ffff;

/// What a server asks an operating system for: sockets, a route, and the time. Which answer comes is
/// a relation of which no clause says more, so that contracts can say what is made of it.
pub trait System {
    ghost use Rattle.std.specs.Prelude.{ℕ, Bool, IfOk, Result};
    ghost use Rattle.std.specs.Time.{FitsClock, system_time_nanos};
    ghost use Rattle.std.specs.declared.io.Error.{Error};
    ghost use Rattle.std.specs.declared.net.udp.UdpSocket.{UdpSocket};
    ghost use Rattle.std.specs.declared.time.SystemTime.{SystemTime};

    /// A socket at an address and a port, or why there is none.
    ghost opens: { Self → ℕ → ℕ → Result UdpSocket Error → Type 0 };

    /// Whether a socket has a route to all hosts of its link.
    ghost routes: { Self → UdpSocket → Bool → Type 0 };

    /// The time of the clock, or why there is none.
    ghost tells: { Self → Result SystemTime Error → Type 0 };

    /// Opens a socket at an address, a number in host order, and a port.
    ///
    /// # Errors
    ///
    /// That of the system.
    fn open(&self, address: u32, port: u16) -> io::Result<UdpSocket>
        ensures { opens self.now address port result };

    /// Reports whether a socket has a route to all hosts of its link. Nothing is sent. The socket is
    /// of no other use afterwards.
    fn has_route(&self, socket: &UdpSocket) -> bool
        ensures { routes self.now socket.now result };

    /// Returns the time of the clock.
    ///
    /// # Errors
    ///
    /// That of the system, or a time that is out of range.
    fn time(&self) -> io::Result<SystemTime>
        ensures given { tells self.now result }
        ensures range { IfOk result (λ time. FitsClock (system_time_nanos time)) };
}

impl System for HostRuntime {
    ghost opens = { λ system address port given. Unit {0} };

    ghost routes = { λ system socket has_route. Unit {0} };

    ghost tells = { λ system given. Unit {0} };

    fn open(&self, address: u32, port: u16) -> io::Result<UdpSocket> {
        UdpSocket::bind(self, place_at(address, port))
    }

    fn has_route(&self, socket: &UdpSocket) -> bool {
        match socket.set_broadcast(true) {
            Ok(()) => socket
                .connect(place_at(ALL_HOSTS, Ports::STANDARD.client))
                .is_ok(),
            Err(_) => false,
        }
    }

    fn time(&self) -> io::Result<SystemTime> {
        SystemTime::now(self)
    }
}
