//! A client that renews its lease without a relay keeps it.
ghost use Rattle.kd_laws.specs.Renewals.{CircuitsKeepLeases, RenewalsAreKept, ReservationsKeepLeases};

/// A client that renews its lease without a relay keeps it, whatever its classes are (RFC 2131
/// section 4.3.2, RENEWING).
///
/// Take a configuration whose clients keep their leases, as those of Kea's, and a REQUEST of a client
/// that names no server and came through no relay. Its `ciaddr` is an address that it leases, which a
/// pool contains and which is not reserved. The client is not to move to another address, which is
/// reserved for it and which nobody uses. Then it gets an ACK of the address, and the lease begins anew.
pub fn renewals_are_kept()
    ensures { RenewalsAreKept }
{
    kd_lease::laws::ends_decide();
}

/// A client behind a circuit for which its address is reserved keeps its lease in the same way, although
/// no relay names the circuit in its renewal (RFC 3046).
///
/// Take such a REQUEST, and let the subnet that has the address, or its shared network, reserve it for a
/// circuit. Then it gets an ACK of the address, and the lease begins anew.
pub fn circuits_keep_leases()
    ensures { CircuitsKeepLeases }
{
    kd_lease::laws::ends_decide();
}

/// So does a client for which its address is reserved in a subnet with classes, although it may have its
/// classes by what only a relay says (RFC 3046).
///
/// Take such a REQUEST, and let the subnet that has the address, or its shared network, reserve it for a
/// circuit; or for the client, by its hardware address, its identifier or the DUID in it, in some
/// classes. Then it gets an ACK of the address, and the lease begins anew.
pub fn reservations_keep_leases()
    ensures { ReservationsKeepLeases }
{
    kd_lease::laws::ends_decide();
}
