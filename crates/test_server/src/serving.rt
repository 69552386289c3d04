// Datagrams that are served as they arrive: over a socket, and over links that fail.
ghost use Rattle.std.specs.Prelude.{◌≡◌, ◌<◌, ◌≤◌, IfOk, IfSome, false, length};

use crate::doubles::Keeping;
use crate::support::{PORTS, Work, datagram, with_server, with_server_of};
use kd_event::{Destination, Event};
use kd_io::{Sending, Socket};
use kd_json::read_config;
use kd_loops::{
    EndFailed, Happening, Limits, Link, LoopFault, ServeFault, ServedBytes, serve_bytes,
};
use kd_server::{Server, serve};
use kd_wire::Bytes;
use std::alloc::{AllocError, Global};
use std::fmt::Write;
use std::net::{SocketAddr, UdpSocket};
use std::process::Abort;
use std::test::Fail;
use std::time::Duration;
use test_tables::Fused;

// Replies go to their senders.
const MIRRORED: Sending = Sending {
    mirror: true,
    broadcast_as: None,
};

// Limits to `count` datagrams in batches of at most `most`, whatever the clock says.
fn limits(most: usize, count: u64) -> Limits
    ensures { result.most ≡ most }
{
    Limits {
        most,
        count,
        max_ahead: None,
    }
}

// Makes the DISCOVER of the client 0a00000000 with this last byte.
fn discover(alloc: Global, client: u8) -> Result<Vec<u8>, AllocError> {
    datagram(alloc, client, [0; 4], 1)
}

// Returns the line of a reply that offers the first address of the pool, if these bytes are one.
fn offer_line(alloc: Global, reply: &[u8]) -> Result<String, Fail> {
    let is_offer = reply.len() == 300
        && reply[0] == 2
        && reply[16..20] == [192, 0, 2, 10]
        && reply[240..243] == [53, 1, 2];
    if !is_offer {
        return Err("no OFFER of 192.0.2.10".into());
    }
    let text = hex::encode(alloc, reply)?;
    Ok(format!(in alloc; "100 reply hardware 192.0.2.10:68 {text}\n")?)
}

// Opens a socket on a free port of loopback that waits ten seconds for a datagram.
fn bound(rt: &HostRuntime) -> Result<(UdpSocket, SocketAddr), Fail> {
    let socket = UdpSocket::bind(rt, ("127.0.0.1", 0))?;
    let address = address_of(&socket)?;
    Ok((socket, address))
}

// Has a socket wait ten seconds for a datagram, and returns its address.
fn address_of(socket: &UdpSocket) -> Result<SocketAddr, Fail> {
    socket.set_read_timeout(Some(Duration::from_secs(10)))?;
    Ok(socket.local_addr()?)
}

// Reports whether these lines are for this OFFER and for a datagram that is not a message, at times
// of the clock, which have ten digits.
fn tells_both(alloc: Global, reply: &[u8], written: &[u8]) -> Result<bool, Fail> {
    let offer = offer_line(alloc, reply)?;
    match (written.get(10..), offer.as_bytes().get(3..)) {
        (Some(told), Some(line)) => {
            Ok(told.starts_with(line) && told.ends_with(b" quiet 1 Unreadable\n"))
        }
        _ => Ok(false),
    }
}

// Serves two datagrams of a socket, and finds what that writes.
#[derive(Drop)]
struct Two<'a> {
    rt: &'a HostRuntime,
    socket: UdpSocket,
}

impl<'a> Work for Two<'a> {
    type Found = Keeping;

    fn done(self, alloc: Global, server: &mut Server<Fused>) -> Result<Keeping, Fail> {
        let Two { rt, socket } = self;
        let mut link = Socket::over(rt, socket, MIRRORED);
        let mut sink = Keeping::new(alloc, 7, usize::MAX);
        match served_by(&mut link, &mut sink, server, alloc, limits(1, 2)) {
            Ok(()) => Ok(sink),
            Err(fault) => Err(fault.into()),
        }
    }
}

// Reports whether a client's socket has received a reply from this address that these lines are
// about.
fn is_told(
    alloc: Global,
    client: &UdpSocket,
    address: SocketAddr,
    written: &[u8],
) -> Result<bool, Fail> {
    let mut reply = [0; 1_500];
    let (len, sender) = client.recv_from(&mut reply)?;
    Ok(sender == address && tells_both(alloc, &reply[..len], written)?)
}

#[test]
fn two_datagrams_are_served_over_a_socket(rt: HostRuntime) -> Result<(), Fail> {
    let (client, _) = bound(&rt)?;
    assert!(rt; is_served(&rt, &client)?);
    Ok(())
}

// Reports whether a client's socket receives the reply that is told of.
fn is_served(rt: &HostRuntime, client: &UdpSocket) -> Result<bool, Fail> {
    let (socket, address) = waited_at(rt, client)?;
    let sink = with_server(rt.alloc(), PORTS, Two { rt, socket })?;
    is_told(rt.alloc(), client, address, sink.as_slice())
}

// Opens a socket at which a client's two datagrams are waiting.
fn waited_at(rt: &HostRuntime, client: &UdpSocket) -> Result<(UdpSocket, SocketAddr), Fail> {
    let (socket, address) = bound(rt)?;
    send(rt.alloc(), client, address)?;
    Ok((socket, address))
}

// Sends a DISCOVER and a datagram that is not a message.
fn send(alloc: Global, client: &UdpSocket, address: SocketAddr) -> Result<(), Fail> {
    let bytes = discover(alloc, 1)?;
    client.send_to(bytes.as_slice(), address)?;
    client.send_to(&[0], address)?;
    Ok(())
}

// A link that delivers a DISCOVER a number of times and then fails, and keeps the last reply. Its
// clock jumps with each datagram, and so does its steady clock.
#[derive(Drop)]
struct Wired {
    discover: Vec<u8>,
    left: u64,
    moment: u64,
    jump: u64,
    counted: u64,
    passes: u64,
    reply: Vec<u8>,
    failed: bool,
}

impl Wired {
    fn new(alloc: Global, left: u64) -> Result<Wired, AllocError>
        ensures { IfOk result (λ link. link.failed ≡ false) }
    {
        Ok(Wired {
            discover: discover(alloc, 1)?,
            left,
            moment: 100,
            jump: 0,
            counted: 0,
            passes: 0,
            reply: Vec::new(alloc),
            failed: false,
        })
    }

    // Returns the length of the next datagram.
    fn next(&mut self, buf: &mut [u8]) -> Option<usize>
        ensures count { IfSome result (λ n. n ≤ length buf.new) }
        ensures failed { self.new.failed ≡ self.old.failed }
    {
        let len = self.discover.len();
        if self.left == 0 || len > buf.len() {
            return None;
        }
        self.left -= 1;
        self.moment = self.moment.saturating_add(self.jump);
        self.counted = self.counted.saturating_add(self.passes);
        buf[..len].copy_from_slice(self.discover.as_slice());
        Some(len)
    }
}

impl Link for Wired {
    ghost use Rattle.std.specs.Prelude.{None};

    ghost trace = { λ _. None };

    ghost has_failed = { λ link. link.failed };

    #[tactic(auto, using(kd_loops::proofs::Coming::came_unknown))]
    fn receive(&mut self, buf: &mut [u8]) -> Result<usize, EndFailed> {
        match self.next(buf) {
            Some(len) => Ok(len),
            None => {
                self.failed = true;
                Err(EndFailed)
            }
        }
    }

    #[tactic(auto, using(kd_loops::proofs::Coming::came_unknown))]
    fn receive_waiting(&mut self, buf: &mut [u8]) -> Option<usize> {
        self.next(buf)
    }

    fn now(&mut self) -> u64 {
        self.moment
    }

    fn steady(&mut self) -> u64 {
        self.counted
    }

    fn send(&mut self, bytes: &[u8], _to: Destination) -> Result<(), EndFailed> {
        self.reply.clear();
        match self.reply.extend_from_slice(bytes) {
            Ok(()) => Ok(()),
            Err(_) => Err(EndFailed),
        }
    }
}

// Returns how serving `count` datagrams in batches of at most `most` ends, without a record.
fn served_by<L: Link>(
    link: &mut L,
    sink: &mut Keeping,
    server: &mut Server<Fused>,
    alloc: Global,
    limits: Limits,
) -> Result<(), LoopFault>
    requires link { L.has_failed link.old ≡ false }
    requires sink { sink.old.failed ≡ false }
    requires some { 0 < limits.most }
{
    serve(alloc, link, &mut None::<Keeping>, sink, server, limits)
}

// How serving ends, what was written, and the last reply.
type Shown = (Result<(), LoopFault>, Keeping, Vec<u8>);

// Serves two DISCOVERs, of whose lines 700 bytes are written, and finds how that ends, what was
// written, and the last reply.
#[derive(Drop)]
struct Cut;

impl Work for Cut {
    type Found = Shown;

    fn done(self, alloc: Global, server: &mut Server<Fused>) -> Result<Shown, Fail> {
        let mut link = Wired::new(alloc, 2)?;
        let mut sink = Keeping::new(alloc, usize::MAX, 700);
        let result = served_by(&mut link, &mut sink, server, alloc, limits(2, 3));
        let Wired { reply, .. } = link;
        Ok((result, sink, reply))
    }
}

// Reports whether 700 bytes were written, which are a line and the front of the same line.
fn is_cut(line: &[u8], written: &[u8]) -> bool {
    match written.get(line.len()..) {
        Some(rest) => {
            written.len() == 700 && written.starts_with(line) && line.starts_with(rest)
        }
        None => false,
    }
}

#[test]
fn serving_ends_where_a_line_is_not_written(rt: HostRuntime) -> Result<(), Fail> {
    let served = with_server(rt.alloc(), PORTS, Cut)?;
    expect_cut(&rt, rt.alloc(), &served)
}

// Checks that serving ends because a line is not written.
fn expect_cut(rt: &impl Abort, alloc: Global, served: &Shown) -> Result<(), Fail> {
    let (result, sink, reply) = served;
    assert!(rt; *result == Err(LoopFault::Write));
    let line = offer_line(alloc, reply.as_slice())?;
    assert!(rt; is_cut(line.as_bytes(), sink.as_slice()));
    Ok(())
}

// A pool of 190 addresses.
const WIDE: &[u8] =
    b"{\"Dhcp4\":{\"server-address\":\"192.0.2.1\",\"valid-lifetime\":3600,\"subnet4\":[\
    {\"subnet\":\"192.0.2.0/24\",\"pools\":[{\"pool\":\"192.0.2.10 - 192.0.2.199\"}]}]}}";

// Makes a socket at which the DISCOVERs of `clients` clients are waiting.
fn crowded(rt: &HostRuntime, clients: u8) -> Result<UdpSocket, Fail> {
    let (socket, address) = bound(rt)?;
    send_crowd(rt, address, clients)?;
    Ok(socket)
}

// Sends the DISCOVERs of `clients` clients to an address.
fn send_crowd(rt: &HostRuntime, address: SocketAddr, clients: u8) -> Result<(), Fail> {
    let (client, _) = bound(rt)?;
    send_each(rt.alloc(), &client, address, clients)
}

// Sends them from a socket.
fn send_each(
    alloc: Global,
    client: &UdpSocket,
    address: SocketAddr,
    clients: u8,
) -> Result<(), Fail> {
    for number in 0..clients {
        client.send_to(discover(alloc, number)?.as_slice(), address)?;
    }
    Ok(())
}

// Returns the number of lines.
fn lines_of(text: &[u8]) -> usize {
    let mut lines = 0usize;
    for byte in text {
        if *byte == b'\n' {
            lines = lines.saturating_add(1);
        }
    }
    lines
}

// Serves the DISCOVERs of `clients` clients that wait at a socket, up to 32 in a batch, and finds
// how that ends and how many lines are written.
#[derive(Drop)]
struct Crowd<'a> {
    rt: &'a HostRuntime,
    clients: u8,
}

impl<'a> Work for Crowd<'a> {
    type Found = (Result<(), LoopFault>, usize);

    fn done(
        self,
        alloc: Global,
        server: &mut Server<Fused>,
    ) -> Result<(Result<(), LoopFault>, usize), Fail> {
        let Crowd { rt, clients } = self;
        let mut link = Socket::over(rt, crowded(rt, clients)?, MIRRORED);
        let mut sink = Keeping::new(alloc, usize::MAX, usize::MAX);
        let limits = limits(32, u64::from(clients));
        let served = served_by(&mut link, &mut sink, server, alloc, limits);
        Ok((served, lines_of(sink.as_slice())))
    }
}

// Does the same over a store on which `calls` calls succeed.
fn waited(
    rt: &HostRuntime,
    clients: u8,
    calls: u64,
) -> Result<(Result<(), LoopFault>, usize), Fail> {
    match read_config(rt.alloc(), WIDE, &[]) {
        Ok(config) => with_server_of(rt.alloc(), config, PORTS, calls, Crowd { rt, clients }),
        Err(fault) => Err(fault.into()),
    }
}

// How many clients wait, how many commits there are, and how many lines if the last commit fails.
const WAITING: [(u8, u64, usize); 5] = [(1, 1, 0), (2, 1, 0), (31, 1, 0), (32, 1, 0), (33, 2, 32)];

// Waiting datagrams are handled with one commit, at most 32 of them. Opening the store takes one
// call, and each commit takes one.
#[test]
fn datagrams_that_wait_share_a_commit(rt: HostRuntime) -> Result<(), Fail> {
    for row in &WAITING {
        let (clients, commits, before) = *row;
        let (served, lines) = waited(&rt, clients, commits.saturating_add(1))?;
        assert!(rt;
            served == Ok(()) && lines == usize::from(clients),
            "{clients}: {lines} lines"
        );
        let (served, lines) = waited(&rt, clients, commits)?;
        let is_stopped = matches!(served, Err(LoopFault::Serve(ServeFault::Store(_))));
        assert!(rt;
            is_stopped && lines == before,
            "{clients}: {lines} lines before the stop"
        );
    }
    Ok(())
}

// Makes the DISCOVER of a client at a time.
fn discovered(alloc: Global, moment: u64, client: u8) -> Result<Event, AllocError> {
    Ok(Event {
        moment,
        bytes: Bytes::own(discover(alloc, client)?),
    })
}

// Returns the last byte of a reply's yiaddr.
fn last_of_yiaddr(reply: &[u8]) -> u8 {
    match reply.get(19) {
        Some(byte) => *byte,
        None => 0,
    }
}

// Returns what happened, one line each: a datagram that was waited for or was waiting, with its
// length; what the clock said; and a reply with the last byte of its yiaddr.
fn told(alloc: Global, log: &[Happening]) -> Result<String, AllocError> {
    let mut text = String::new(alloc);
    for happening in log {
        tell(&mut text, happening)?;
    }
    Ok(text)
}

// Writes the line of what happened once.
fn tell(text: &mut String, happening: &Happening) -> Result<(), AllocError> {
    match happening {
        Happening::Came(true, bytes) => write!(text, "waited for {}\n", bytes.as_slice().len()),
        Happening::Came(false, bytes) => write!(text, "waits {}\n", bytes.as_slice().len()),
        Happening::Said(moment) => write!(text, "said {moment}\n"),
        Happening::Passed(seconds) => write!(text, "passed {seconds}\n"),
        Happening::Went(packet) => {
            let last = last_of_yiaddr(packet.bytes.as_slice());
            write!(text, "went {last}\n")
        }
    }
}

// Makes three events: two DISCOVERs, and between them a datagram that cannot be read as a message.
fn input(alloc: Global) -> Result<Vec<Event>, AllocError> {
    let mut events = Vec::new(alloc);
    put_input(alloc, &mut events)?;
    Ok(events)
}

// Adds those events at the end of a list.
fn put_input(alloc: Global, events: &mut Vec<Event>) -> Result<(), AllocError> {
    events.push(discovered(alloc, 100, 1)?)?;
    events.push(unreadable(alloc)?)?;
    events.push(discovered(alloc, 300, 2)?)?;
    Ok(())
}

// Makes a datagram of one byte at time 110.
fn unreadable(alloc: Global) -> Result<Event, AllocError> {
    let bytes = Vec::from_slice(alloc, &[0x0a])?;
    Ok(Event {
        moment: 110,
        bytes: Bytes::own(bytes),
    })
}

// Serves them, with one waiting after each that is waited for, and finds what that leaves.
#[derive(Drop)]
struct Served;

impl Work for Served {
    type Found = ServedBytes;

    fn done(self, alloc: Global, server: &mut Server<Fused>) -> Result<ServedBytes, Fail> {
        let events = input(alloc)?;
        match serve_bytes(alloc, &events, 1, server, 32) {
            Some(served) => Ok(served),
            None => Err(AllocError.into()),
        }
    }
}

// What the first of their lines begins with.
const FIRST_LINE: &[u8] = b"100 reply hardware 192.0.2.10:68 02";

// Returns the record of them.
fn record(alloc: Global) -> Result<String, AllocError> {
    let mut text = String::new(alloc);
    put_record(alloc, &mut text)?;
    Ok(text)
}

// Writes that record at the end of a text.
fn put_record(alloc: Global, text: &mut String) -> Result<(), AllocError> {
    put_line(alloc, text, 100, 1)?;
    text.push_str("110 0a\n")?;
    put_line(alloc, text, 300, 2)
}

// Writes the line of the DISCOVER of a client at a time.
fn put_line(alloc: Global, text: &mut String, moment: u64, client: u8) -> Result<(), AllocError> {
    let digits = hex::encode(alloc, discover(alloc, client)?)?;
    write!(text, "{moment} {digits}\n")
}

// There are two batches, of two events and of one. Both clocks are read at the start and after each
// batch, and the clock also after each datagram; the record has all datagrams; and the replies of a
// batch are sent after its last datagram.
#[test]
fn what_happens_is_told_in_its_order(rt: HostRuntime) -> Result<(), Fail> {
    let served = with_server(rt.alloc(), PORTS, Served)?;
    expect_order(&rt, rt.alloc(), &served)
}

// Checks what happened, and its record.
fn expect_order(rt: &impl Abort, alloc: Global, served: &ServedBytes) -> Result<(), Fail> {
    assert!(rt; served.end == Ok(()));
    let wanted = "said 0\npassed 0\n\
        waited for 244\nsaid 100\nwaits 1\nsaid 110\nsaid 110\npassed 110\nwent 10\n\
        waited for 244\nsaid 300\nsaid 300\npassed 300\nwent 11\n";
    assert!(rt; told(alloc, served.log.as_slice())?.as_str() == wanted);
    assert!(rt; served.journal.as_slice() == record(alloc)?.as_bytes());
    let lines = served.lines.as_slice();
    assert!(rt; lines_of(lines) == 3 && lines.starts_with(FIRST_LINE));
    Ok(())
}

// Returns how serving one datagram ends over a server whose clock may run 50 seconds ahead. The
// clock says `moment` at the start, and `jump` seconds more once the datagram has arrived; the
// steady clock has counted `passes` by then.
fn ended(
    alloc: Global,
    server: &mut Server<Fused>,
    moment: u64,
    jump: u64,
    passes: u64,
) -> Result<Result<(), LoopFault>, AllocError> {
    let mut link = Wired::new(alloc, 1)?;
    link.moment = moment;
    link.jump = jump;
    link.passes = passes;
    let limits = Limits {
        most: 1,
        count: 1,
        max_ahead: Some(50),
    };
    let mut sink = Keeping::new(alloc, usize::MAX, usize::MAX);
    Ok(served_by(&mut link, &mut sink, server, alloc, limits))
}

// The time at the start, the seconds by which the clock jumps, those that the steady clock counts,
// and whether that is ahead.
type Jump = (u64, u64, u64, bool);

// Such jumps without leases.
const JUMPS: [Jump; 8] = [
    (1_000, 50, 0, false),
    (1_000, 51, 0, true),
    (1_000, 51, 1, false),
    (1_000, 52, 1, true),
    (1_000, 100_000, 100_000, false),
    (1_000, 0, 9, false),
    (0, 50, 0, false),
    (0, 51, 0, true),
];

// The same with an offer that was made at time 1,000: the clock may be 50 seconds behind it at the
// start; if the clock was set back, it is not ahead until it is more than 50 seconds after the
// offer.
const SETS_BACK: [Jump; 6] = [
    (949, 0, 0, true),
    (950, 0, 0, false),
    (960, 90, 0, false),
    (960, 91, 0, true),
    (960, 91, 41, false),
    (960, 50, 0, false),
];

// Reports whether serving ends because the clock is ahead, or well, as expected.
fn is_end(end: &Result<(), LoopFault>, is_ahead: bool) -> bool {
    match end {
        Ok(()) => !is_ahead,
        Err(fault) => is_ahead && *fault == LoopFault::Ahead,
    }
}

// Finds whether serving ends this way, after an offer at time 1,000 or without leases.
#[derive(Drop)]
struct Jumps {
    row: Jump,
    offers: bool,
}

impl Work for Jumps {
    type Found = bool;

    fn done(self, alloc: Global, server: &mut Server<Fused>) -> Result<bool, Fail> {
        let Jumps { row, offers } = self;
        let (moment, jump, passes, is_ahead) = row;
        if offers && ended(alloc, server, 1_000, 0, 0)? != Ok(()) {
            return Ok(false);
        }
        let end = ended(alloc, server, moment, jump, passes)?;
        Ok(is_end(&end, is_ahead))
    }
}

// Checks how serving ends with each of these jumps.
fn expect_jumps(rt: &impl Abort, alloc: Global, rows: &[Jump], offers: bool) -> Result<(), Fail> {
    for row in rows {
        let is_so = with_server(alloc, PORTS, Jumps { row: *row, offers })?;
        assert!(rt; is_so, "{} {} {}", row.0, row.1, row.2);
    }
    Ok(())
}

// The clock is measured at the latest change.
#[test]
fn serving_ends_where_the_clock_jumps_ahead(rt: HostRuntime) -> Result<(), Fail> {
    expect_jumps(&rt, rt.alloc(), &JUMPS, false)?;
    expect_jumps(&rt, rt.alloc(), &SETS_BACK, true)
}
