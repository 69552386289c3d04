//! What is true of every configuration, whatever its text. Each law is the contract of a function
//! that does nothing.
ghost use Rattle.kd_config.specs.Laws.{AddressHasOnePool, AddressHasOneReservation};
ghost use Rattle.kd_config.specs.Laws.{ClientHasOneReservation, TestsAreAccepted};

/// No two pools share an address, whether they are in one subnet or in two.
pub fn address_has_one_pool()
    ensures { AddressHasOnePool }
{}

/// No two reservations have the same address, whether they are in one subnet or in two.
pub fn address_has_one_reservation()
    ensures { AddressHasOneReservation }
{}

/// No two reservations of a subnet are for the same client.
pub fn client_has_one_reservation()
    ensures { ClientHasOneReservation }
{}

/// The program of each class's test is accepted. It ends on every message, within what it declares,
/// so every message has a list of its classes (`accepted_held` of `kd_classes`).
pub fn tests_are_accepted()
    ensures { TestsAreAccepted }
{}
