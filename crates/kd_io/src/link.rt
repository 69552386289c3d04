ghost use Rattle.std.specs.Prelude.{◌≡◌, ◌≤◌, ◌/◌, IfOk, IfSome, false, length};
ghost use Rattle.std.specs.Time.{system_time_nanos};
ghost use Rattle.kd_io.specs.Sending.{GoesTo, HasAddressAndPort, address_for};

use kd_event::{Destination, Mode};
use kd_loops::{EndFailed, Link};
use std::net::{IpAddr, Ipv4Addr, SocketAddr, UdpSocket};
use std::rt::Clock;
use std::time::{SystemTime, UNIX_EPOCH};

// 255.255.255.255.
const ALL_HOSTS: u32 = 0xffff_ffff;

/// How replies are sent.
#[derive(Clone, Copy)]
pub struct Sending {
    /// Each reply goes to the sender of its datagram, whatever the fields of the reply say.
    pub mirror: bool,
    /// The address to use in place of 255.255.255.255, as a number in host order.
    pub broadcast_as: Option<u32>,
}

impl Sending {
    /// Returns the address that a reply is sent to if it is not mirrored, as a number in host
    /// order. A reply to a hardware address goes to all hosts of the link (RFC 2131 section 4.1).
    pub fn address(self, to: Destination) -> u32
        ensures { result ≡ address_for self.broadcast_as to }
    {
        let address = match to.mode {
            Mode::Hardware => ALL_HOSTS,
            Mode::Relay => to.address,
            Mode::Unicast => to.address,
            Mode::Broadcast => to.address,
        };
        if address == ALL_HOSTS {
            self.broadcast_as.unwrap_or(ALL_HOSTS)
        } else {
            address
        }
    }
}

/// Returns where a reply to a datagram is sent: to its sender if replies are mirrored, and
/// otherwise to the address and port of its destination.
pub fn target(sending: Sending, sender: Option<SocketAddr>, to: Destination) -> SocketAddr
    ensures { GoesTo sending.mirror sending.broadcast_as sender to result }
{
    match sender {
        Some(sender) if sending.mirror => sender,
        _ => place_at(sending.address(to), to.port),
    }
}

/// Returns the socket address with this IPv4 address, a number in host order, and this port.
pub fn place_at(address: u32, port: u16) -> SocketAddr
    ensures { HasAddressAndPort address port result }
{
    SocketAddr::new(IpAddr::V4(Ipv4Addr::from(address)), port)
}

/// A UDP socket and the clocks of the host, as the link of a server. No proof knows what is
/// received and sent.
#[derive(Drop)]
pub struct Socket<'a> {
    rt: &'a HostRuntime,
    socket: UdpSocket,
    sending: Sending,
    sender: Option<SocketAddr>,
    // Whether the socket was last set to wait for a datagram.
    waits: bool,
    failed: bool,
}

impl<'a> Socket<'a> {
    /// Makes a link over a socket that was handed over. It has not failed, and may send to all
    /// hosts of its link.
    ///
    /// # Errors
    ///
    /// The socket is not bound to this address and port.
    pub fn of_inherited(
        rt: &'a HostRuntime,
        socket: UdpSocket,
        address: u32,
        port: u16,
        sending: Sending,
    ) -> Result<Socket<'a>, EndFailed>
        ensures failed { IfOk result (λ link. link.failed ≡ false) }
        ensures sending { IfOk result (λ link. link.sending ≡ sending) }
        ensures given { IfOk result (λ link. link.socket ≡ socket) }
    {
        match socket.local_addr() {
            Ok(place) if place == place_at(address, port) => Socket::to_all(rt, socket, sending),
            _ => Err(EndFailed),
        }
    }

    /// Makes a link over a socket, which may then send to all hosts of its link. It has not failed.
    ///
    /// # Errors
    ///
    /// The system does not let it send to all hosts.
    pub fn to_all(
        rt: &'a HostRuntime,
        socket: UdpSocket,
        sending: Sending,
    ) -> Result<Socket<'a>, EndFailed>
        ensures failed { IfOk result (λ link. link.failed ≡ false) }
        ensures sending { IfOk result (λ link. link.sending ≡ sending) }
        ensures given { IfOk result (λ link. link.socket ≡ socket) }
    {
        match socket.set_broadcast(true) {
            Ok(()) => Ok(Socket::over(rt, socket, sending)),
            Err(_) => Err(EndFailed),
        }
    }

    /// Makes a link over a socket. The link has not failed.
    pub fn over(rt: &'a HostRuntime, socket: UdpSocket, sending: Sending) -> Socket<'a>
        ensures failed { result.failed ≡ false }
        ensures sending { result.sending ≡ sending }
        ensures given { result.socket ≡ socket }
    {
        Socket {
            rt,
            socket,
            sending,
            sender: None,
            waits: true,
            failed: false,
        }
    }

    // Receives the next datagram, with or without waiting for it, and returns its length; `None` if
    // the socket fails.
    fn next(&mut self, buf: &mut [u8], waits: bool) -> Option<usize>
        ensures count { IfSome result (λ n. n ≤ length buf.new) }
        ensures failed { self.new.failed ≡ self.old.failed }
    {
        if self.waits != waits {
            self.socket.set_nonblocking(!waits).ok()?;
            self.waits = waits;
        }
        let (len, sender) = self.socket.recv_from(buf).ok()?;
        self.sender = Some(sender);
        Some(len)
    }
}

impl Link for Socket<'_> {
    ghost use Rattle.std.specs.Prelude.{None};

    ghost trace = { λ s. None };

    ghost has_failed = { λ s. s.failed };

    #[tactic(auto, using(kd_loops::proofs::Coming::came_unknown))]
    fn receive(&mut self, buf: &mut [u8]) -> Result<usize, EndFailed> {
        match self.next(buf, true) {
            Some(len) => Ok(len),
            None => {
                self.failed = true;
                Err(EndFailed)
            }
        }
    }

    #[tactic(auto, using(kd_loops::proofs::Coming::came_unknown))]
    fn receive_waiting(&mut self, buf: &mut [u8]) -> Option<usize> {
        self.next(buf, false)
    }

    fn now(&mut self) -> u64 {
        match SystemTime::now(self.rt) {
            Ok(time) => seconds_of(time),
            Err(_) => 0,
        }
    }

    fn steady(&mut self) -> u64 {
        match self.rt.monotonic() {
            Ok(counted) => counted.as_secs(),
            Err(_) => 0,
        }
    }

    fn send(&mut self, bytes: &[u8], to: Destination) -> Result<(), EndFailed> {
        match self
            .socket
            .send_to(bytes, target(self.sending, self.sender, to))
        {
            Ok(_) => Ok(()),
            Err(_) => Err(EndFailed),
        }
    }
}

/// Returns the whole seconds since 1970.
pub fn seconds_of(time: SystemTime) -> u64
    ensures { result ≡ system_time_nanos time / 1_000_000_000 }
{
    match time.duration_since(UNIX_EPOCH) {
        Ok(since) => since.as_secs(),
        Err(_) => 0,
    }
}
