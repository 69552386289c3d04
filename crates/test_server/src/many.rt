use crate::datagrams::{DISCOVER, OFFER, Reply, answer};
use crate::files::put;
use crate::leased::{address, lease};
use crate::support::{PORTS, act_on, changed, expect, opened};
use kd_json::read_config;
use kd_keeps::Keeps;
use kd_server::Server;
use std::alloc::Global;
use std::test::Fail;
use test_tables::Fused;

// Two pools with as many addresses as a pool can have, 65,536 each.
const CONFIG: &[u8] =
    b"{\"Dhcp4\":{\"server-address\":\"10.255.255.254\",\"valid-lifetime\":3600,\"subnet4\":[\
    {\"subnet\":\"10.0.0.0/8\",\"pools\":[{\"pool\":\"10.0.0.1 - 10.1.0.0\"},\
    {\"pool\":\"10.1.0.1 - 10.2.0.0\"}]}]}}";

// The number of leases, at the first addresses of the pools.
const LEASES: u32 = 100_100;

// Makes a store of all leases.
fn store(alloc: Global) -> Result<Fused, Fail> {
    changed(Fused::new(alloc, u64::MAX), |store| fill(alloc, store))
}

// Puts all leases into a store.
fn fill<S: Keeps>(alloc: Global, store: &mut S) -> Result<(), Fail> {
    for number in 1..=LEASES {
        put_lease(alloc, store, number)?;
    }
    Ok(())
}

// Puts the lease with a number into a store.
fn put_lease<S: Keeps>(alloc: Global, store: &mut S, number: u32) -> Result<(), Fail> {
    let row = lease(alloc, number)?;
    put(store, &row)
}

// Makes a server over it.
fn server(alloc: Global) -> Result<Server<Fused>, Fail> {
    match store(alloc) {
        Ok(store) => server_over(alloc, store),
        Err(fault) => Err(fault),
    }
}

// Makes a server over a store.
fn server_over<S: Keeps + Drop>(alloc: Global, store: S) -> Result<Server<S>, Fail> {
    if store.failed() {
        return Err("the store has failed".into());
    }
    match read_config(alloc, CONFIG, &[]) {
        Ok(config) => Ok(opened(alloc, config, store, PORTS)?),
        Err(fault) => Err(fault.into()),
    }
}

#[test]
fn a_server_over_more_rows_than_any_block_of_them(rt: HostRuntime) -> Result<(), Fail> {
    let alloc = rt.alloc();
    act_on(server(alloc), |server| lease_one_more(alloc, server))?
}

// Checks a server's leases, and that a new client is offered the next address.
fn lease_one_more<S: Keeps>(alloc: Global, server: &mut Server<S>) -> Result<(), Fail> {
    expect(server.row_count() == 100_100, "rows are missing")?;
    let leases = server.leases(150)?.len();
    expect(leases == 100_100, "leases are missing")?;
    let client = 0x0100_0000;
    let offer = Reply {
        op: 2,
        xid: client,
        yiaddr: address(LEASES + 1),
        option: OFFER,
    };
    let given = answer(alloc, server, 150, client, DISCOVER)?;
    expect(given == Some(offer), "no OFFER of the next address")?;
    expect(server.row_count() == 100_101, "the offer has no row")
}
