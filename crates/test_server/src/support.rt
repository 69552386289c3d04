ghost use Rattle.std.specs.Prelude.{◌≡◌, false, is_some};

use kd_config::Config;
use kd_event::Ports;
use kd_keeps::Keeps;
use kd_loops::ServeFault;
use kd_server::Server;
use std::alloc::{AllocError, Global};
use std::test::Fail;
use test_tables::Fused;

/// The ports of DHCP.
pub(crate) const PORTS: Ports = Ports {
    server: 67,
    client: 68,
};

// The bytes 236 to 239 of a datagram.
const COOKIE: [u8; 4] = [99, 130, 83, 99];

/// Makes a message of a type from the client 0a00000000 with this last byte, which says this
/// address.
pub(crate) fn datagram(
    alloc: Global,
    client: u8,
    ciaddr: [u8; 4],
    kind: u8,
) -> Result<Vec<u8>, AllocError> {
    let mut bytes = Vec::new(alloc);
    put_datagram(&mut bytes, client, ciaddr, kind)?;
    Ok(bytes)
}

// Writes that message at the end of an empty vector.
fn put_datagram(
    bytes: &mut Vec<u8>,
    client: u8,
    ciaddr: [u8; 4],
    kind: u8,
) -> Result<(), AllocError> {
    bytes.extend_from_slice(&[1, 1, 6, 0, 0, 0, 0, 1, 0, 0, 0, 0])?;
    bytes.extend_from_slice(&ciaddr)?;
    bytes.resize(28, 0)?;
    bytes.extend_from_slice(&[10, 0, 0, 0, 0, client])?;
    bytes.resize(236, 0)?;
    bytes.extend_from_slice(&COOKIE)?;
    bytes.extend_from_slice(&[53, 1, kind, 255])
}

/// Returns what a look at a value finds, if it was made. Code that holds a configuration or a server
/// is proved against all their parts; this and `act_on` are proved for any value, and what they call
/// borrows it.
pub(crate) fn look_at<V: Drop, E: Drop, T: Drop, F: FnOnce(&V) -> T>(
    made: Result<V, E>,
    look: F,
) -> Result<T, E>
    requires { F.IsAlwaysCallable look }
{
    match made {
        Ok(value) => Ok(look(&value)),
        Err(fault) => Err(fault),
    }
}

/// Returns what an action on a value finds, if the value was made.
pub(crate) fn act_on<V: Drop, E, T, F: FnOnce(&mut V) -> T>(
    made: Result<V, E>,
    action: F,
) -> Result<T, E>
    requires { F.IsAlwaysCallable action }
{
    match made {
        Ok(mut value) => Ok(action(&mut value)),
        Err(fault) => Err(fault),
    }
}

/// Returns a value as a change leaves it, if the value was made.
pub(crate) fn changed<V: Drop, F: FnOnce(&mut V) -> Result<(), Fail>>(
    made: Result<V, AllocError>,
    change: F,
) -> Result<V, Fail>
    requires { F.IsAlwaysCallable change }
{
    match made {
        Ok(mut value) => match change(&mut value) {
            Ok(()) => Ok(value),
            Err(fault) => Err(fault),
        },
        Err(fault) => Err(fault.into()),
    }
}

/// Fails a test, naming what does not hold.
pub(crate) fn expect(holds: bool, what: &str) -> Result<(), Fail> {
    if holds { Ok(()) } else { Err(what.into()) }
}

/// Work with a server, which it borrows.
pub(crate) trait Work: Drop {
    /// What it finds.
    type Found: Drop;

    /// Does it.
    fn done(self, alloc: Global, server: &mut Server<Fused>) -> Result<Self::Found, Fail>;
}

/// Does work with a server of the built-in configuration on these ports, over an empty store.
pub(crate) fn with_server<W: Work>(alloc: Global, ports: Ports, work: W) -> Result<W::Found, Fail> {
    match Config::builtin(alloc) {
        Ok(config) => with_server_of(alloc, config, ports, u64::MAX, work),
        Err(fault) => Err(fault.into()),
    }
}

/// Does the same with a configuration, over an empty store on which `calls` calls succeed.
pub(crate) fn with_server_of<W: Work>(
    alloc: Global,
    config: Config,
    ports: Ports,
    calls: u64,
    work: W,
) -> Result<W::Found, Fail> {
    let made = server_of(alloc, config, ports, calls)
        .ok()
        .ok_or(AllocError);
    act_on(made, |server| work.done(alloc, server))?
}

/// Makes a server with a configuration, over an empty store on which `calls` calls succeed.
pub(crate) fn server_of(
    alloc: Global,
    config: Config,
    ports: Ports,
    calls: u64,
) -> Result<Server<Fused>, ServeFault> {
    match Fused::new(alloc, calls) {
        Ok(store) => opened(alloc, config, store, ports),
        Err(AllocError) => Err(ServeFault::Memory),
    }
}

/// Makes a server over a store.
pub(crate) fn opened<S: Keeps + Drop>(
    alloc: Global,
    config: Config,
    store: S,
    ports: Ports,
) -> Result<Server<S>, ServeFault>
    requires { is_some (S.fault store) ≡ false }
{
    Server::open(alloc, config, store, ports).map_err(fault_of)
}

// Returns why a server is not opened, and drops what it returns.
fn fault_of<S: Keeps + Drop>(refusal: (ServeFault, Config, S)) -> ServeFault {
    refusal.0
}
