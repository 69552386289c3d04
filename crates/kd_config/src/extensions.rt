ghost use Rattle.std.specs.Prelude.{◌≡◌};
ghost use Rattle.kd_config.specs.Configuration.{kea_extensions, no_extensions};

use crate::reservation::IdentityKind;
use kd_wire::Entries;
use std::alloc::Global;

/// What the file of a server of ISC Kea's says about all clients.
#[derive(Clone, Copy)]
pub struct Policy {
    /// A client of which there is no record gets a NAK.
    pub is_authoritative: bool,
    /// A client is known by its identifier, if it sends one.
    pub matches_client_ids: bool,
}

/// Rules of ISC Kea that a configuration in our own format does not have.
#[derive(Drop)]
pub struct Extensions {
    /// A relay may select the link on which its client is (RFC 3527).
    pub selects_links: bool,
    /// A relay may set the identifier by which its clients know the server (RFC 5107).
    pub sets_server: bool,
    /// A client that renews its lease, without a relay, keeps it although it is not in the class that
    /// its subnet or its pool requires (our own choice).
    pub keeps_leases: bool,
    /// A client is to move to an address that is reserved for it as soon as nobody uses that: its
    /// REQUEST of another one gets a NAK.
    pub moves_clients: bool,
    /// The server is the authority on its subnets: a client of which it has no record, and that asks
    /// for an address again, gets a NAK instead of no reply (Kea Administrator Reference Manual,
    /// Authoritative DHCPv4 Server Behavior).
    pub is_authoritative: bool,
    /// A client is known by its hardware, whatever client identifier it sends (Kea Administrator
    /// Reference Manual, Using Client Identifier and Hardware Address).
    pub ignores_client_ids: bool,
    /// A client is in the classes that its reservation names, and in `KNOWN` if it has a reservation,
    /// or else in `UNKNOWN` (Kea Administrator Reference Manual, Built-in Client Classes).
    pub knows_clients: bool,
    /// The kinds of identities by which the reservation of a client is looked for, in this order
    /// (Kea Administrator Reference Manual, Fine Tuning DHCPv4 Host Reservation). If there are none,
    /// it is the first in its subnet.
    pub identity_order: Entries<IdentityKind>,
}

impl Extensions {
    /// Returns those of a configuration in our own format: none.
    pub fn none(alloc: Global) -> Extensions
        ensures { result ≡ no_extensions }
    {
        Extensions {
            selects_links: false,
            sets_server: false,
            keeps_leases: false,
            moves_clients: false,
            is_authoritative: false,
            ignores_client_ids: false,
            knows_clients: false,
            identity_order: Entries::own(Vec::new(alloc)),
        }
    }

    /// Returns those of a configuration of Kea's: relays select links and set the server's identifier,
    /// clients keep leases and are to move, and the others are as the file says.
    pub fn of_kea(
        policy: Policy,
        knows_clients: bool,
        identity_order: Entries<IdentityKind>,
    ) -> Extensions
        ensures { result ≡ kea_extensions policy knows_clients identity_order }
    {
        Extensions {
            selects_links: true,
            sets_server: true,
            keeps_leases: true,
            moves_clients: true,
            is_authoritative: policy.is_authoritative,
            ignores_client_ids: !policy.matches_client_ids,
            knows_clients,
            identity_order,
        }
    }
}
