//! What is true of the rules, whatever the program does. Each law is the contract of a function
//! that does nothing.
ghost use Rattle.kd_lease.specs.Laws.{ClassesByTests, ClientsMove, EndsAreFounded, EndsDecide, HeldHasNoRank, HeldIsNotGiven, HeldIsNotUsable, KnownByAddress, KnownByMessage, KnownByRecord, NakSetsNone, NobodyMoves, OneAnswer, OneChange, OneMembership, PlaceByHeader, RenewedByClass, ReservedByList, ServesAlone, ServesByPrefix, SetsNow, StandsAlone, StrangersAreRefused};

/// A row that a message sets has the time of the message as its time of change.
pub fn sets_now()
    ensures { SetsNow }
{}

/// A NAK sets no row.
pub fn nak_sets_none()
    ensures { NakSetsNone }
{}

/// Where no subnet names a relay, a message is served by the first subnet whose prefix has its
/// place, and whose class is held.
pub fn serves_by_prefix()
    ensures { ServesByPrefix }
{}

/// Where no subnet is in a shared network, the first subnet that serves a message serves it alone.
pub fn serves_alone()
    ensures { ServesAlone }
{}

/// Where relays select no links, or a message came through no relay, its header alone says where it
/// comes from.
pub fn place_by_header()
    ensures { PlaceByHeader }
{}

/// Where relays set no identifiers, or a message came through no relay, the server is known by its
/// address alone.
pub fn known_by_address()
    ensures { KnownByAddress }
{}

/// Where clients keep no leases, a message is served by its place and classes, and an address that
/// may be renewed fits.
pub fn renewed_by_class()
    ensures { RenewedByClass }
{}

/// Where the server is not authoritative, a renewal fails for want of a record only if its client has
/// none in the subnet that serves it.
pub fn known_by_record()
    ensures { KnownByRecord }
{}

/// Where the server is authoritative, a client that renews an address at which it has no row gets a
/// NAK.
pub fn strangers_are_refused()
    ensures { StrangersAreRefused }
{}

/// Where client identifiers are not ignored, who a client is follows from its message alone.
pub fn known_by_message()
    ensures { KnownByMessage }
{}

/// Where kinds of identities have no order and clients keep no leases, the reservation that counts for
/// a message is the first of the subnet for its client, by the hardware address or by option 61.
pub fn reserved_by_list()
    ensures { ReservedByList }
{}

/// Where clients are not to move, an address that is reserved for a client elsewhere refuses it
/// nothing.
pub fn nobody_moves()
    ensures { NobodyMoves }
{}

/// A client that is to move to the address that is reserved for it can neither get another address by a
/// REQUEST nor renew it.
pub fn clients_move()
    ensures { ClientsMove }
{}

/// A subnet in no network has the addresses of its prefix, and gives its own options and mask.
pub fn stands_alone()
    ensures { StandsAlone }
{}

/// An address has no rank for a client if its row is not the client's and has not ended, whether it
/// is offered, bound or declined: it is never the choice for this client.
pub fn held_has_no_rank()
    ensures { HeldHasNoRank }
{}

/// A client can neither get such an address by a REQUEST nor renew it.
pub fn held_is_not_usable()
    ensures { HeldIsNotUsable }
{}

/// Such an address is neither offered nor leased to the client.
pub fn held_is_not_given()
    ensures { HeldIsNotGiven }
{}

/// An address is offered only if it is the choice for the client, leased only if the client may be
/// assigned it or renew it, and given up only if the client holds it.
pub fn ends_are_founded()
    ensures { EndsAreFounded }
{}

/// What a message does is what its end makes: the end that the checks of its rule give for the
/// address that it is about.
pub fn ends_decide()
    ensures { EndsDecide }
{}

/// The rules have at most one answer: what a message sets and gets follows from the configuration,
/// the table, the names of its classes and the time.
pub fn one_answer()
    ensures { OneAnswer }
{}

/// A message is in one list of classes at most, at a time over a table.
pub fn one_membership()
    ensures { OneMembership }
{
    kd_classes::laws::one_join();
}

/// Where clients are not known by their reservations, as in our own format, these are the classes
/// whose tests are true, and no others.
pub fn classes_by_tests()
    ensures { ClassesByTests }
{}

/// So a message at a given time changes a table to at most one table, and gets at most one result.
pub fn one_change()
    ensures { OneChange }
{
    one_answer();
    one_membership();
}
