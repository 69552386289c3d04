use kd_classes::{BootList, OptionList};
use kd_wire::{Bytes, Entries};

/// By what the client of a reservation is known.
#[derive(Clone, Copy)]
pub enum IdentityKind {
    /// By its hardware address.
    Hardware,
    /// By the DUID in its identifier (RFC 4361).
    Duid,
    /// By the circuit from which its relay has the message (RFC 3046 section 3.1).
    Circuit,
    /// By its identifier (RFC 2132 section 9.14).
    ClientId,
}

/// The client that a reservation is for.
#[derive(Drop)]
pub enum Identity {
    /// The client with this hardware address, 1 to 16 bytes.
    Hardware(Bytes),
    /// The client with this DUID in its identifier (RFC 4361), 1 to 255 bytes.
    Duid(Bytes),
    /// The client behind this circuit of its relay (RFC 3046 section 3.1), 1 to 255 bytes.
    Circuit(Bytes),
    /// The client with this identifier (RFC 2132 section 9.14), 1 to 255 bytes.
    ClientId(Bytes),
}

/// What is kept for one client: an address, options, or both.
#[derive(Drop)]
pub struct Reservation {
    /// The client.
    pub identity: Identity,
    /// The address, in host order; if there is none, the client gets one as others do.
    pub address: Option<u32>,
    /// The options of the replies to the client, whatever address they assign.
    pub options: OptionList,
    /// What the reservation gives to the boot fields of these replies, at most one value.
    pub boots: BootList,
    /// The classes that the client must be in, each of them; there may be none.
    pub classes: Entries<Bytes>,
    /// The classes that the client is in because of the reservation; there may be none (Kea
    /// Administrator Reference Manual, Reserving Client Classes in DHCPv4).
    pub joins: Entries<Bytes>,
}
