ghost use Rattle.std.specs.Prelude.{◌≡◌, ◌||◌, IfOk};
ghost use Rattle.std.specs.Option.{option_copied};
ghost use Rattle.std.specs.List.{list_any};
ghost use Rattle.kd_config.specs.Booted.{class_gives_boot, gives_boot, has_reservations, is_some_reserved};
ghost use Rattle.kd_config.specs.Networks.{covers, home_of, network_at, part_holding};
ghost use Rattle.kd_config.specs.Sound.{IsSound};
ghost use Rattle.kd_config.specs.Term.{has_term};

use crate::extensions::Extensions;
use crate::networks::{has_in, networks_of, part_of};
use crate::reservation::Reservation;
use crate::subnet::Subnet;
use crate::term::Term;
use crate::times::Times;
use kd_classes::{Boot, Classes, OptionData, OptionList};
use kd_wire::Entries;
use std::alloc::{AllocError, Global};
use std::marker::Model;

/// A server's configuration. Each value is in its range, each list is within its limit, and the
/// subnets and the classes obey their rules (`specs/Sound.antt`).
#[derive(Drop)]
pub struct Config {
    server: u32,
    times: Times,
    extensions: Extensions,
    options: OptionList,
    classes: Classes,
    subnets: Entries<Subnet>,
    // Each shared network as one subnet, by its number.
    networks: Vec<Subnet>,
    // Whether a subnet gives anything to boot fields.
    boots: bool,
    // Whether a class gives anything to them.
    class_boots: bool,
    // Whether a subnet has a reservation.
    reserves: bool,
    // Whether a subnet has times of its own for leases.
    terms: bool,
}

impl Model for Config {
    ghost use Rattle.std.specs.Prelude.{◌≡◌};
    ghost use Rattle.std.specs.List.{list_any};
    ghost use Rattle.kd_config.specs.Booted.{class_gives_boot, gives_boot, has_reservations};
    ghost use Rattle.kd_config.specs.Configuration.{Configuration};
    ghost use Rattle.kd_config.specs.Networks.{networks_in};
    ghost use Rattle.kd_config.specs.Sound.{IsSound};
    ghost use Rattle.kd_config.specs.Term.{has_term};

    ghost Value = { Configuration };

    ghost view = { λ c. record {
      server = c.server;
      times = c.times;
      extensions = c.extensions;
      options = c.options;
      classes = c.classes;
      subnets = c.subnets;
    } };

    ghost invariant = { λ c. IsSound (record {
      server = c.server;
      times = c.times;
      extensions = c.extensions;
      options = c.options;
      classes = c.classes;
      subnets = c.subnets;
    }) × (c.networks.items ≡ networks_in c.subnets)
        × (c.boots ≡ list_any gives_boot c.subnets)
        × (c.class_boots ≡ list_any class_gives_boot c.classes)
        × (c.reserves ≡ list_any has_reservations c.subnets)
        × (c.terms ≡ list_any has_term c.subnets) };
}

impl Config {
    /// Makes the configuration of its parts.
    ///
    /// # Errors
    ///
    /// Out of memory for the shared networks.
    pub fn of(
        alloc: Global,
        server: u32,
        times: Times,
        extensions: Extensions,
        options: OptionList,
        classes: Classes,
        subnets: Entries<Subnet>,
    ) -> Result<Config, AllocError>
        requires { IsSound (record {
          server = server;
          times = times;
          extensions = extensions;
          options = options;
          classes = classes;
          subnets = subnets;
        }) }
        ensures { IfOk result (λ config. config ≡ record {
          server = server;
          times = times;
          extensions = extensions;
          options = options;
          classes = classes;
          subnets = subnets;
        }) }
    {
        let networks = networks_of(alloc, subnets.as_slice())?;
        let boots = has_boot(subnets.as_slice());
        let class_boots = has_class_boot(&classes);
        let reserves = is_any_reserving(subnets.as_slice());
        let terms = is_any_timed(subnets.as_slice());
        Ok(Config {
            server,
            times,
            extensions,
            options,
            classes,
            subnets,
            networks,
            boots,
            class_boots,
            reserves,
            terms,
        })
    }

    /// Returns the server's address, in host order; never 0.0.0.0.
    pub fn server(&self) -> u32
        ensures same { result ≡ self.now.server }
        ensures sound { IsSound self.now }
    {
        self.server
    }

    /// Returns the lease and offer times, in seconds.
    pub fn times(&self) -> Times
        ensures same { result ≡ self.now.times }
        ensures sound { IsSound self.now }
    {
        self.times
    }

    /// Returns the extensions of the rules.
    pub fn extensions(&self) -> &Extensions
        ensures same { result.now ≡ self.now.extensions }
        ensures sound { IsSound self.now }
    {
        &self.extensions
    }

    /// Returns the options of all replies: at most 64, with no code twice.
    pub fn options(&self) -> &[OptionData]
        ensures same { result.now ≡ self.now.options }
        ensures sound { IsSound self.now }
    {
        self.options.as_slice()
    }

    /// Returns the classes, in order; at most 256.
    pub fn classes(&self) -> &Classes
        ensures same { result.now ≡ self.now.classes }
        ensures sound { IsSound self.now }
    {
        &self.classes
    }

    /// Returns the subnets, in order; at most 256. Pools and reservations are within their subnet's
    /// prefix, no two pools share an address, and no address is reserved twice.
    pub fn subnets(&self) -> &[Subnet]
        ensures same { result.now ≡ self.now.subnets }
        ensures sound { IsSound self.now }
    {
        self.subnets.as_slice()
    }

    /// Reports whether any subnet or class gives anything to boot fields.
    pub fn gives_boots(&self) -> bool
        ensures { result
            ≡ (list_any gives_boot self.now.subnets || list_any class_gives_boot self.now.classes) }
    {
        self.boots || self.class_boots
    }

    /// Reports whether any subnet has a reservation.
    pub fn reserves_any(&self) -> bool
        ensures { result ≡ list_any has_reservations self.now.subnets }
    {
        self.reserves
    }

    /// Returns the subnet in which a client of this one is served: its shared network as one subnet,
    /// or itself if it is in none (Kea, Shared Networks in DHCPv4).
    pub fn home<'a>(&'a self, subnet: &'a Subnet) -> &'a Subnet
        ensures { result.now ≡ home_of self.now.subnets subnet.now }
    {
        match self.network(subnet.network) {
            Some(network) => network,
            None => subnet,
        }
    }

    // Returns the shared network with a number as one subnet, if there is one.
    fn network(&self, number: u32) -> Option<&Subnet>
        ensures { option_copied result ≡ network_at self.now.subnets number }
    {
        if number == 0 {
            return None;
        }
        self.networks.get(number as usize - 1)
    }

    /// Reports whether a subnet or another of its shared network has an address, in host order, in
    /// its prefix.
    pub fn spans(&self, subnet: &Subnet, address: u32) -> bool
        ensures { result ≡ covers self.now.subnets subnet.now address }
    {
        if subnet.network == 0 {
            subnet.prefix.contains(address)
        } else {
            has_in(self.subnets(), subnet.network, address)
        }
    }

    /// Returns the subnet that has an address, in host order: the first of the shared network that
    /// has it in its prefix; or the given one if that is in no network, or no subnet has the address.
    pub fn member_with<'a>(&'a self, subnet: &'a Subnet, address: u32) -> &'a Subnet
        ensures { result.now ≡ part_holding self.now.subnets subnet.now address }
    {
        if subnet.network == 0 {
            return subnet;
        }
        match part_of(self.subnets(), subnet.network, address) {
            Some(part) => part,
            None => subnet,
        }
    }

    /// Returns what the subnet that has an address, in host order, gives to boot fields. It is not
    /// searched in a network if no subnet gives anything.
    #[tactic(auto, using(crate::proofs::Without::part_without_boot))]
    pub fn boot_at(&self, subnet: &Subnet, address: u32) -> Boot
        ensures { result ≡ (part_holding self.now.subnets subnet.now address).boot }
    {
        if self.boots || !subnet.boot.is_none() {
            self.member_with(subnet, address).boot
        } else {
            Boot::none()
        }
    }

    /// Returns the times for leases of the subnet that has an address, in host order, if it has some
    /// of its own. It is not searched in a network if no subnet has any.
    #[tactic(auto, using(crate::proofs::Without::part_without_term))]
    pub fn term_at(&self, subnet: &Subnet, address: u32) -> Option<Term>
        ensures same { result ≡ (part_holding self.now.subnets subnet.now address).term }
        ensures sound { IsSound self.now }
    {
        if self.terms || subnet.term.is_some() {
            self.member_with(subnet, address).term
        } else {
            None
        }
    }
}

// Reports whether one of these subnets gives anything to boot fields.
fn has_boot(subnets: &[Subnet]) -> bool
    ensures { result ≡ list_any gives_boot subnets.now }
{
    subnets.iter().any(|subnet| !subnet.boot.is_none())
}

// Reports whether one of these classes gives anything to boot fields.
fn has_class_boot(classes: &Classes) -> bool
    ensures { result ≡ list_any class_gives_boot classes.now }
{
    let mut found = false;
    for i in 0..classes.len() {
        match classes.def_at(i) {
            Some(class) => found = found || !class.boot.is_none(),
            None => unreachable!(),
        }
    }
    found
}

// Reports whether one of these subnets has a reservation.
fn is_any_reserving(subnets: &[Subnet]) -> bool
    ensures { result ≡ list_any has_reservations subnets.now }
{
    subnets
        .iter()
        .any(|subnet| has_some(subnet.reservations.as_slice()))
}

// Reports whether one of these subnets has times of its own for leases.
fn is_any_timed(subnets: &[Subnet]) -> bool
    ensures { result ≡ list_any has_term subnets.now }
{
    subnets.iter().any(|subnet| subnet.term.is_some())
}

// Reports whether there is a reservation.
fn has_some(reservations: &[Reservation]) -> bool
    ensures { result ≡ is_some_reserved reservations.now }
{
    match reservations {
        [] => false,
        [_, ..] => true,
    }
}
