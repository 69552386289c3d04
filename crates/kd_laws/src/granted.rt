//! How long leases last, by the rules.
ghost use Rattle.kd_laws.specs.Granted.{LeasesLastAlike, NoneIsShorter};
ghost use Rattle.kd_laws.specs.NoOverlap.{LeasesLast};

/// A lease of an address lasts for some seconds: the rules give them.
pub fn leases_last()
    ensures { LeasesLast }
{}

/// Where no subnet has times of its own for leases, as in our own format, the times of each lease are
/// those of the whole server.
pub fn leases_last_alike()
    ensures { LeasesLastAlike }
{}

/// No lease is shorter than the least lifetime that its configuration has, be it that of the whole
/// server, of a class, or of a subnet.
pub fn none_is_shorter()
    ensures { NoneIsShorter }
{}
