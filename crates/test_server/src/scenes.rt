// Leases with many rows, with a configuration of many reservations.

use crate::days::Fault;
use kd_config::Config;
use kd_json::{ConfigFault, read_config};
use kd_lease::Leases;
use kd_rows::{Row, Rows, State};
use kd_wire::Bytes;
use std::alloc::{AllocError, Global};
use std::fmt::Write;

/// The first address of the pool, 10.0.1.0.
pub(crate) const POOL: u32 = 0x0a00_0100;

/// The first of the addresses after it, 10.0.128.0, which are in no pool.
pub(crate) const BEHIND: u32 = 0x0a00_8000;

/// The client of the row at the first address of the pool. The next address has the next client.
pub(crate) const OWNER: u32 = 100_000;

/// The time of each message.
pub(crate) const MOMENT: u64 = 10_000;

// The time at which the rows were set, the end of those that have ended, and the end of the others.
const SET: u64 = 1_000;

const ENDED: u64 = 9_999;

const FAR: u64 = 1_000_000;

// The last of each four addresses of the pool is vacant.
const STEP: u32 = 4;

/// Which addresses of the pool have rows. Each that is not vacant is leased to its own client.
#[derive(Clone, Copy, PartialEq, Eq)]
pub(crate) enum Layout {
    /// None.
    Empty,
    /// Those that are not vacant.
    Gaps,
    /// All; those of the vacant ones have ended.
    Ended,
    /// All.
    Full,
}

/// Where the reserved addresses are, the first for client 0 and so on.
#[derive(Clone, Copy, PartialEq, Eq)]
pub(crate) enum Place {
    /// At the first addresses of the pool.
    First,
    /// At the first vacant addresses of the pool.
    Vacant,
    /// In no pool.
    Behind,
}

/// Leases: how many addresses the pool has, which of them have rows, how many addresses are
/// reserved, and where they are.
pub(crate) type Scene = (u32, Layout, u32, Place);

/// Returns the configuration of a scene.
pub(crate) fn config_of(alloc: Global, scene: &Scene) -> Result<Config, Fault> {
    let text = text_of(alloc, scene)?;
    read_config(alloc, text.as_bytes(), &[]).map_err(cause_of)
}

// Returns why a configuration is not read.
fn cause_of(fault: ConfigFault) -> Fault {
    if fault.number() == 91 {
        Fault::Memory
    } else {
        Fault::Other
    }
}

/// Returns the leases of a scene over its configuration. If there is no memory for them, the
/// configuration is returned.
pub(crate) fn leases_of(
    alloc: Global,
    scene: &Scene,
    config: Config,
) -> Result<Leases, (Fault, Config)> {
    match rows_of(alloc, scene) {
        Ok(rows) => over(alloc, config, rows),
        Err(AllocError) => Err((Fault::Memory, config)),
    }
}

// Does the same with these rows, if they can be a table.
fn over(alloc: Global, config: Config, rows: Vec<Row>) -> Result<Leases, (Fault, Config)> {
    if !Rows::accepts(&rows) {
        return Err((Fault::Other, config));
    }
    match Leases::new(alloc, config, rows) {
        Ok(leases) => Ok(leases),
        Err(config) => Err((Fault::Memory, config)),
    }
}

// Returns the text of the configuration of a scene.
fn text_of(alloc: Global, scene: &Scene) -> Result<String, AllocError> {
    let (pooled, _, reserved, place) = *scene;
    let mut text = String::new(alloc);
    text.push_str("{\"Dhcp4\":{\"server-address\":\"10.0.0.1\",\"subnet4\":[")?;
    text.push_str("{\"subnet\":\"10.0.0.0/16\",\"pools\":[{\"pool\":\"")?;
    put_address(&mut text, POOL)?;
    text.push_str(" - ")?;
    put_address(&mut text, POOL.wrapping_add(pooled).wrapping_sub(1))?;
    text.push_str("\"}],\"reservations\":[")?;
    for number in 0..reserved {
        if number > 0 {
            text.push_str(",")?;
        }
        put_reservation(&mut text, number, reserved_address(place, number))?;
    }
    text.push_str("]}]}}")?;
    Ok(text)
}

// Writes the reservation of an address for the client with a number.
fn put_reservation(text: &mut String, number: u32, address: u32) -> Result<(), AllocError> {
    write!(
        text,
        "{{\"hw-address\":\"0a00{number:08x}\",\"ip-address\":\""
    )?;
    put_address(text, address)?;
    text.push_str("\"}")
}

// Writes an address in dotted decimal.
fn put_address(text: &mut String, address: u32) -> Result<(), AllocError> {
    let [a, b, c, d] = address.to_be_bytes();
    write!(text, "{a}.{b}.{c}.{d}")
}

// Returns the reserved address with a number.
fn reserved_address(place: Place, number: u32) -> u32 {
    match place {
        Place::First => POOL.wrapping_add(number),
        Place::Vacant => POOL
            .wrapping_add(number.wrapping_mul(STEP))
            .wrapping_add(STEP - 1),
        Place::Behind => BEHIND.wrapping_add(number),
    }
}

// Returns the rows of a scene.
fn rows_of(alloc: Global, scene: &Scene) -> Result<Vec<Row>, AllocError> {
    let (pooled, layout, _, _) = *scene;
    let mut rows = Vec::new(alloc);
    for number in 0..pooled {
        if let Some(ends) = end_of(layout, number % STEP == STEP - 1) {
            rows.push(row_of(alloc, number, ends)?)?;
        }
    }
    Ok(rows)
}

// Returns when the row of a vacant or other address of the pool ends, if it has one.
fn end_of(layout: Layout, is_vacant: bool) -> Option<u64> {
    match layout {
        Layout::Empty => None,
        Layout::Gaps if is_vacant => None,
        Layout::Ended if is_vacant => Some(ENDED),
        _ => Some(FAR),
    }
}

// Returns the row of the address of the pool with a number.
fn row_of(alloc: Global, number: u32, ends: u64) -> Result<Row, AllocError> {
    let [a, b, c, d] = OWNER.wrapping_add(number).to_be_bytes();
    let client = Vec::from_slice(alloc, &[0, 1, 10, 0, a, b, c, d])?;
    Ok(Row {
        address: POOL.wrapping_add(number),
        client: Bytes::own(client),
        state: State::Bound,
        changed: SET,
        ends,
    })
}
