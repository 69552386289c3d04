ghost use Rattle.std.specs.Prelude.{◌≡◌, ◌++◌, ◌||◌, Bool, OnOk, Result, is_some, option_copied, option_map, string_bytes};
ghost use Rattle.std.specs.List.{flat_map, list_any};
ghost use Rattle.kd_trouble.specs.declared.troubles.SocketTrouble.{SocketTrouble};
ghost use Rattle.kd_program.specs.Advice.{IsFoundMissing, address_advice, advice_lines, all_subnets_advice, asks_relay, class_trouble, def_asks, defined, is_absent, is_given_in, joins_class, last_of, network_lines, pool_advice, pool_class_notes, pool_class_text, pool_name, pool_note};
ghost use Rattle.kd_program.specs.Advice.{pool_text, required_note, server_advice, server_text, subnet_advice, subnet_class_note, subnet_class_notes, subnet_text, test_asks};

use crate::hiding::put_hidden;
use crate::host::Host;
use kd_classes::{ClassDef, Classes, is_built_in};
use kd_config::{Config, Pool, Prefix, Reservation, Subnet};
use kd_text::{put_address, put_prefix};
use kd_token::{Token, Verified};
use kd_trouble::SocketTrouble;
use kd_wire::Bytes;
use std::alloc::AllocError;

// The first address that no host can have: multicast (RFC 1112), reserved ones and broadcast.
const FIRST_OF_NO_HOST: u32 = 0xe000_0000;

// Prints a line for each part of a configuration that is probably a mistake, though a server starts
// with it. `name` is the name of the configuration.
pub(crate) fn put_advice<H: Host>(
    text: &mut String,
    host: &H,
    name: &str,
    config: &Config,
) -> Result<(), AllocError>
    ensures { OnOk result ((is_missing : Bool)
        × IsFoundMissing H.Host host.now config.now.server is_missing
        × (string_bytes text.new
        ≡ string_bytes text.old ++ advice_lines name.now config.now is_missing)) }
{
    let server = config.server();
    let is_missing = misses(host, server);
    put_server(text, name, server, is_missing)?;
    put_all_subnets(text, name, config)?;
    Ok(())
}

// Reports whether the host has no such address, if a host can have it.
fn misses<H: Host>(host: &H, address: u32) -> bool
    ensures { IsFoundMissing H.Host host.now address result }
{
    if address < FIRST_OF_NO_HOST {
        lacks_address(host, address)
    } else {
        false
    }
}

// Asks the host whether it has no such address.
fn lacks_address<H: Host>(host: &H, address: u32) -> bool
    ensures { (answer : Result Bool SocketTrouble) × H.reaches host.now address 0 answer
        × (result ≡ is_absent answer) }
{
    let answer = host.try_socket(address, 0);
    means_absent(answer)
}

// Reports whether a trial of a socket found that this machine has no such address.
fn means_absent(answer: Result<bool, SocketTrouble>) -> bool
    ensures { result ≡ is_absent answer }
{
    match answer {
        Err(SocketTrouble::NoSuchAddress) => true,
        _ => false,
    }
}

// Prints a line if clients cannot reach a server at an address.
fn put_server(
    text: &mut String,
    name: &str,
    server: u32,
    is_missing: bool,
) -> Result<(), AllocError>
    ensures { OnOk result (string_bytes text.new
        ≡ string_bytes text.old ++ server_advice name.now server is_missing) }
{
    if server >= FIRST_OF_NO_HOST {
        put_server_line(text, name, server, ": no host has such an address\n")
    } else if is_missing {
        put_server_line(text, name, server, ": this machine has no such address\n")
    } else {
        Ok(())
    }
}

#[tactic(auto, unfolding(crate::specs::Advice::server_text))]
fn put_server_line(
    text: &mut String,
    name: &str,
    server: u32,
    words: &str,
) -> Result<(), AllocError>
    ensures { OnOk result (string_bytes text.new
        ≡ string_bytes text.old ++ server_text name.now server words.now) }
{
    text.push_str(name)?;
    text.push_str(": server-address ")?;
    put_address(text, server)?;
    text.push_str(words)?;
    Ok(())
}

// Prints the lines about all subnets of a configuration: about each, and about those that no client
// reaches.
#[tactic(auto, unfolding(crate::specs::Advice::all_subnets_advice))]
fn put_all_subnets(text: &mut String, name: &str, config: &Config) -> Result<(), AllocError>
    ensures { OnOk result (string_bytes text.new
        ≡ string_bytes text.old ++ all_subnets_advice name.now config.now) }
{
    put_subnets(text, name, config)?;
    put_hidden(text, name, config.subnets())?;
    Ok(())
}

// Prints the lines about the subnets of a configuration.
fn put_subnets(text: &mut String, name: &str, config: &Config) -> Result<(), AllocError>
    ensures { OnOk result (string_bytes text.new ≡ string_bytes text.old
        ++ flat_map (subnet_advice name.now config.now) config.now.subnets) }
{
    for subnet in config.subnets() {
        put_subnet(text, name, config, subnet)?;
    }
    Ok(())
}

// Prints the lines about a subnet.
fn put_subnet(
    text: &mut String,
    name: &str,
    config: &Config,
    subnet: &Subnet,
) -> Result<(), AllocError>
    ensures { OnOk result (string_bytes text.new
        ≡ string_bytes text.old ++ subnet_advice name.now config.now subnet.now) }
{
    put_classes(text, name, config, subnet)?;
    put_pools(text, name, config, subnet)?;
    Ok(())
}

// Prints a line for each class that a subnet requires in which nobody can be, or which its clients leave
// as they renew.
fn put_classes(
    text: &mut String,
    name: &str,
    config: &Config,
    subnet: &Subnet,
) -> Result<(), AllocError>
    ensures { OnOk result (string_bytes text.new ≡ string_bytes text.old
        ++ subnet_class_notes name.now config.now subnet.now) }
{
    for class in subnet.classes.as_slice() {
        put_class(text, name, config, subnet.prefix, class)?;
    }
    Ok(())
}

fn put_class(
    text: &mut String,
    name: &str,
    config: &Config,
    prefix: Prefix,
    class: &Bytes,
) -> Result<(), AllocError>
    ensures { OnOk result (string_bytes text.new ≡ string_bytes text.old
        ++ subnet_class_note name.now config.now prefix class.now) }
{
    match trouble_with(config, class.as_slice()) {
        Some(words) => put_subnet_line(text, name, prefix, words),
        None => Ok(()),
    }
}

#[tactic(auto, unfolding(crate::specs::Advice::subnet_text))]
fn put_subnet_line(
    text: &mut String,
    name: &str,
    prefix: Prefix,
    words: &str,
) -> Result<(), AllocError>
    ensures { OnOk result (string_bytes text.new
        ≡ string_bytes text.old ++ subnet_text name.now prefix words.now) }
{
    text.push_str(name)?;
    text.push_str(": subnet ")?;
    put_prefix(text, prefix.address, prefix.length)?;
    text.push_str(words)
}

// Returns, in words, what is wrong with requiring a class, if something is.
fn trouble_with(config: &Config, class: &[u8]) -> Option<&'static str>
    ensures { option_copied result ≡ class_trouble config.now class.now }
{
    let found = defined_in(config.classes(), class);
    if !(is_built_in(class) || found.is_some() || is_given(config, class)) {
        return Some(": its client-class is not defined, so it serves nobody\n");
    }
    if !config.extensions().keeps_leases && definition_asks(found) {
        return Some(
            ": its client-class asks for option 82, which a client that renews does not send, so it does not serve renewals\n",
        );
    }
    None
}

// Reports whether a reservation gives its client a class.
fn is_given(config: &Config, class: &[u8]) -> bool
    ensures { result ≡ list_any (is_given_in class.now) config.now.subnets }
{
    config.subnets().iter().any(|subnet| gives(subnet, class))
}

// Reports whether a subnet has a reservation that gives its client a class.
fn gives(subnet: &Subnet, class: &[u8]) -> bool
    ensures { result ≡ is_given_in class.now subnet.now }
{
    let reservations = subnet.reservations.as_slice();
    reservations.iter().any(|it| is_joined(it, class))
}

// Reports whether a reservation gives its client a class.
fn is_joined(reservation: &Reservation, class: &[u8]) -> bool
    ensures { result ≡ joins_class class.now reservation.now }
{
    let joins = reservation.joins.as_slice();
    joins.iter().any(|name| class == name.as_slice())
}

// Returns the definition of a class, if there is one.
#[tactic(auto, using(crate::proofs::Defining::defined_later, crate::proofs::Defining::defined_here, crate::proofs::Defining::defined_nowhere, crate::proofs::Defining::defined_past))]
fn defined_in<'a>(classes: &'a Classes, name: &[u8]) -> Option<&'a ClassDef>
    ensures { option_copied result ≡ defined classes.now name.now }
{
    for at in 0..classes.len() {
        let Some(definition) = classes.def_at(at) else {
            return None;
        };
        if name == definition.name.as_slice() {
            return Some(definition);
        }
    }
    None
}

// Reports whether there is a definition and its test asks for what a relay adds (RFC 3046).
fn definition_asks(definition: Option<&ClassDef>) -> bool
    ensures { result ≡ def_asks (option_copied definition.entry) }
{
    match definition {
        Some(definition) => asks(&definition.test),
        None => false,
    }
}

// Reports whether there is a test and it asks for what a relay adds.
fn asks(test: &Option<Verified>) -> bool
    ensures { result ≡ test_asks test.now }
{
    match test {
        Some(test) => has_relay_token(test.program().tokens()),
        None => false,
    }
}

fn has_relay_token(tokens: &[Token]) -> bool
    ensures { result ≡ list_any asks_relay tokens.now }
{
    tokens.iter().any(|token| is_relay_token(token))
}

fn is_relay_token(token: &Token) -> bool
    ensures { result ≡ asks_relay token.now }
{
    match token {
        Token::PushRelay(_) => true,
        Token::RelayExists(_) => true,
        _ => false,
    }
}

// Prints the lines about a subnet's pools.
fn put_pools(
    text: &mut String,
    name: &str,
    config: &Config,
    subnet: &Subnet,
) -> Result<(), AllocError>
    ensures { OnOk result (string_bytes text.new ≡ string_bytes text.old
        ++ flat_map (pool_advice name.now config.now subnet.now.prefix) subnet.now.pools) }
{
    for pool in subnet.pools.as_slice() {
        put_pool(text, name, config, subnet.prefix, pool)?;
    }
    Ok(())
}

// Prints the lines about a pool.
fn put_pool(
    text: &mut String,
    name: &str,
    config: &Config,
    prefix: Prefix,
    pool: &Pool,
) -> Result<(), AllocError>
    ensures { OnOk result (string_bytes text.new
        ≡ string_bytes text.old ++ pool_advice name.now config.now prefix pool.now) }
{
    put_pool_classes(text, name, config, pool)?;
    put_addresses(text, name, config.server(), prefix, pool)?;
    Ok(())
}

// Prints a line for each address of a pool that no client should have.
#[tactic(auto, unfolding(crate::specs::Advice::address_advice))]
fn put_addresses(
    text: &mut String,
    name: &str,
    server: u32,
    prefix: Prefix,
    pool: &Pool,
) -> Result<(), AllocError>
    ensures { OnOk result (string_bytes text.new
        ≡ string_bytes text.old ++ address_advice name.now server prefix pool.now) }
{
    put_network(text, name, prefix, pool)?;
    put_address_of(text, name, pool, server, "the address of the server")?;
    Ok(())
}

// Prints a line for each class that a pool requires in which nobody can be, or which its clients leave
// as they renew.
fn put_pool_classes(
    text: &mut String,
    name: &str,
    config: &Config,
    pool: &Pool,
) -> Result<(), AllocError>
    ensures { OnOk result (string_bytes text.new ≡ string_bytes text.old
        ++ pool_class_notes name.now config.now pool.now) }
{
    for class in pool.classes.as_slice() {
        put_pool_class(text, name, config, pool, class)?;
    }
    Ok(())
}

fn put_pool_class(
    text: &mut String,
    name: &str,
    config: &Config,
    pool: &Pool,
    class: &Bytes,
) -> Result<(), AllocError>
    ensures { OnOk result (string_bytes text.new ≡ string_bytes text.old
        ++ required_note name.now config.now pool.now class.now) }
{
    match trouble_with(config, class.as_slice()) {
        Some(words) => put_pool_class_line(text, name, pool, words),
        None => Ok(()),
    }
}

// Prints `NAME: pool FIRST - LAST` and the words.
#[tactic(auto, unfolding(crate::specs::Advice::pool_class_text))]
fn put_pool_class_line(
    text: &mut String,
    name: &str,
    pool: &Pool,
    words: &str,
) -> Result<(), AllocError>
    ensures { OnOk result (string_bytes text.new
        ≡ string_bytes text.old ++ pool_class_text name.now pool.now words.now) }
{
    put_pool_name(text, name, pool)?;
    text.push_str(words)
}

// Prints `NAME: pool FIRST - LAST`.
fn put_pool_name(text: &mut String, name: &str, pool: &Pool) -> Result<(), AllocError>
    ensures { OnOk result (string_bytes text.new
        ≡ string_bytes text.old ++ pool_name name.now pool.now) }
{
    text.push_str(name)?;
    text.push_str(": pool ")?;
    put_address(text, pool.range.first)?;
    text.push_str(" - ")?;
    put_address(text, pool.range.last)
}

// Prints the lines about the first and the last address of a prefix, which no host has, unless it
// has two addresses at most (RFC 3021).
fn put_network(text: &mut String, name: &str, prefix: Prefix, pool: &Pool) -> Result<(), AllocError>
    ensures { OnOk result (string_bytes text.new
        ≡ string_bytes text.old ++ network_lines name.now prefix pool.now) }
{
    if prefix.size() <= 2 {
        return Ok(());
    }
    put_address_of(
        text,
        name,
        pool,
        prefix.address,
        "the address of the network",
    )?;
    put_address_of(
        text,
        name,
        pool,
        last_address(prefix),
        "the broadcast address",
    )?;
    Ok(())
}

// Returns the last address of a prefix.
fn last_address(prefix: Prefix) -> u32
    ensures { result ≡ last_of prefix }
{
    prefix.last().min(u64::from(u32::MAX)) as u32
}

// Prints a line if an address is in a pool.
fn put_address_of(
    text: &mut String,
    name: &str,
    pool: &Pool,
    address: u32,
    words: &str,
) -> Result<(), AllocError>
    ensures { OnOk result (string_bytes text.new
        ≡ string_bytes text.old ++ pool_note name.now pool.now address words.now) }
{
    if pool.range.contains(address) {
        put_pool_line(text, name, pool, address, words)
    } else {
        Ok(())
    }
}

// Prints `NAME: pool FIRST - LAST: ADDRESS is WHAT`.
#[tactic(auto, unfolding(crate::specs::Advice::pool_text))]
fn put_pool_line(
    text: &mut String,
    name: &str,
    pool: &Pool,
    address: u32,
    words: &str,
) -> Result<(), AllocError>
    ensures { OnOk result (string_bytes text.new
        ≡ string_bytes text.old ++ pool_text name.now pool.now address words.now) }
{
    put_pool_name(text, name, pool)?;
    text.push_str(": ")?;
    put_address(text, address)?;
    text.push_str(" is ")?;
    text.push_str(words)?;
    text.push_str("\n")
}
