//! No address has two clients at once, over every history of leases.
ghost use Rattle.kd_laws.specs.NoOverlap.{NoOverlap, NoOverlapAcross, NoOverlapForShortest, NoOverlapWhereNoneIsShorter};

use crate::granted::{leases_last, leases_last_alike, none_is_shorter};

/// No address is leased to one client and given to another at the same time, whatever the
/// configurations.
///
/// Suppose that an ACK of a REQUEST leased an address. An OFFER or ACK of it to another client then
/// comes no earlier than the end that the first client was given; or after a RELEASE or DECLINE of
/// the first client that changed the row of the address; or after the end of a lease for fewer
/// seconds that the first client requested itself, whether or not it got a reply. This holds of every
/// history, from any table, including histories with stopped events. How long a lease lasts is what
/// the rules give: by the client's classes and the seconds that it asks for, or the subnet.
pub fn no_overlap_across()
    ensures { NoOverlapAcross }
{
    kd_rows::laws::get_of_set();
    kd_rows::laws::latest_of_set();
    kd_lease::laws::sets_now();
    kd_lease::laws::ends_are_founded();
    kd_lease::laws::held_has_no_rank();
    kd_lease::laws::held_is_not_usable();
    kd_lease::laws::held_is_not_given();
    kd_lease::laws::one_membership();
}

/// If the client never renews its lease for fewer seconds, the other client comes no earlier than the
/// end of the lease, or after a RELEASE or DECLINE.
pub fn no_overlap_where_none_is_shorter()
    ensures { NoOverlapWhereNoneIsShorter }
{
    no_overlap_across();
}

/// Whatever the lifetimes, the other client comes only after the shortest that a configuration has
/// has passed, or after a RELEASE or DECLINE.
pub fn no_overlap_for_shortest()
    ensures { NoOverlapForShortest }
{
    no_overlap_across();
    leases_last();
    none_is_shorter();
}

/// With one configuration that has one lifetime, each OFFER or ACK of a leased address to another client comes at least
/// the lifetime later, or after a RELEASE or DECLINE of the first client.
pub fn no_overlap()
    ensures { NoOverlap }
{
    no_overlap_across();
    leases_last();
    leases_last_alike();
}
