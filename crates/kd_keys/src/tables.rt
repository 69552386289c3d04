ghost use Rattle.std.specs.Prelude.{◌≡◌};
ghost use Rattle.kd_keys.specs.Rows.{rows_of};
ghost use Rattle.kd_keys.specs.Tables.{key_table};

use crate::keys::{KeyRule, Row, UsualValue};

/// A kind of object.
#[derive(Clone, Copy)]
pub enum ObjectKind {
    // The whole text.
    Whole,
    // The server: the value of `Dhcp4`.
    Server,
    // An entry of `option-data`.
    Data,
    // An entry of `option-def`.
    Definition,
    // A class.
    Class,
    // A subnet.
    Subnet,
    // A shared network.
    Network,
    // The relay of a subnet or a shared network.
    Relay,
    // A pool.
    Pool,
    // A reservation.
    Reservation,
}

// The values of a key that is off, or on.
const OFF: KeyRule = KeyRule::Usual(&[UsualValue::Flag(false)]);

const ON: KeyRule = KeyRule::Usual(&[UsualValue::Flag(true)]);
// The value of a key that counts nothing.
const ZERO: KeyRule = KeyRule::Usual(&[UsualValue::Number(0)]);
// Kea's default threshold.
pub(crate) const QUARTER: f64 = 0.25;
// The values of a threshold that is not used without an age.
const NO_THRESHOLD: KeyRule = KeyRule::Usual(&[
    UsualValue::Number(0),
    UsualValue::Fraction(QUARTER),
]);
// The values of a key that names nothing.
const NO_TEXT: KeyRule = KeyRule::Usual(&[UsualValue::Text("")]);
// The value of a key that lists nothing.
const NO_LIST: KeyRule = KeyRule::Usual(&[UsualValue::EmptyList]);

// Keys for people.
const REMARKS: &[Row] = &[
    ("comment", KeyRule::Skipped),
    ("user-context", KeyRule::Skipped),
];

// Fields of a reply by which its client boots.
const BOOT: &[Row] = &[
    ("next-server", KeyRule::Served),
    ("server-hostname", KeyRule::Served),
    ("boot-file-name", KeyRule::Served),
];

// How long leases last.
const LIFETIME: &[Row] = &[
    ("valid-lifetime", KeyRule::Served),
    ("min-valid-lifetime", KeyRule::Served),
    ("max-valid-lifetime", KeyRule::Served),
];

// Keys that the whole server, a shared network and a subnet have in common.
const SHARED: &[Row] = &[
    ("renew-timer", KeyRule::Served),
    ("rebind-timer", KeyRule::Served),
    ("calculate-tee-times", KeyRule::Served),
    ("t1-percent", KeyRule::Served),
    ("t2-percent", KeyRule::Served),
    ("option-data", KeyRule::Served),
    ("store-extended-info", KeyRule::Skipped),
    ("hostname-char-set", KeyRule::Skipped),
    ("hostname-char-replacement", KeyRule::Skipped),
    ("match-client-id", KeyRule::Served),
    ("authoritative", KeyRule::Served),
    ("reservations-global", OFF),
    ("reservations-in-subnet", ON),
    ("reservations-out-of-pool", KeyRule::Served),
    (
        "reservation-mode",
        KeyRule::Usual(&[UsualValue::Text("all")]),
    ),
    ("cache-threshold", NO_THRESHOLD),
    ("cache-max-age", ZERO),
    (
        "allocator",
        KeyRule::Usual(&[UsualValue::Text("iterative")]),
    ),
];

// Keys of `Dhcp4` alone.
const SERVER: &[Row] = &[
    ("client-classes", KeyRule::Served),
    ("shared-networks", KeyRule::Served),
    ("subnet4", KeyRule::Served),
    ("option-def", KeyRule::Served),
    ("offer-lifetime", KeyRule::Served),
    ("decline-probation-period", KeyRule::Served),
    ("dhcp-ddns", KeyRule::Served),
    ("config-control", KeyRule::Served),
    ("host-reservation-identifiers", KeyRule::Served),
    ("hooks-libraries", KeyRule::Served),
    ("interfaces-config", KeyRule::Skipped),
    ("lease-database", KeyRule::Skipped),
    ("loggers", KeyRule::Skipped),
    ("control-socket", KeyRule::Skipped),
    ("control-sockets", KeyRule::Skipped),
    ("multi-threading", KeyRule::Skipped),
    ("sanity-checks", KeyRule::Skipped),
    ("server-tag", KeyRule::Skipped),
    ("dhcp-queue-control", KeyRule::Skipped),
    ("expired-leases-processing", KeyRule::Skipped),
    ("parked-packet-limit", KeyRule::Skipped),
    ("statistic-default-sample-count", KeyRule::Skipped),
    ("statistic-default-sample-age", KeyRule::Skipped),
    ("echo-client-id", ON),
    ("ip-reservations-unique", ON),
    ("early-global-reservations-lookup", OFF),
    ("reservations-lookup-first", OFF),
    ("stash-agent-options", OFF),
    ("dhcp4o6-port", ZERO),
    ("reservations", KeyRule::Skipped),
    ("hosts-databases", NO_LIST),
];

// The key of a whole text.
const ROOT: &[Row] = &[("Dhcp4", KeyRule::Served)];

// Keys of an option.
const OPTION: &[Row] = &[
    ("name", KeyRule::Served),
    ("code", KeyRule::Served),
    ("data", KeyRule::Served),
    ("csv-format", KeyRule::Served),
    ("space", KeyRule::Served),
    ("always-send", KeyRule::Served),
    ("never-send", OFF),
    ("client-classes", NO_LIST),
];

// Keys of an option's definition.
const DEFINITION: &[Row] = &[
    ("name", KeyRule::Served),
    ("code", KeyRule::Served),
    ("type", KeyRule::Served),
    ("array", KeyRule::Served),
    ("record-types", KeyRule::Served),
    ("space", KeyRule::Served),
    ("encapsulate", KeyRule::Served),
];

// Keys of a class.
const CLASS: &[Row] = &[
    ("name", KeyRule::Served),
    ("test", KeyRule::Served),
    ("option-data", KeyRule::Served),
    ("only-if-required", OFF),
    ("option-def", KeyRule::Served),
    ("only-in-additional-list", OFF),
];

// Keys that ask for further classes.
const REQUIRED: &[Row] = &[
    ("require-client-classes", NO_LIST),
    ("evaluate-additional-classes", NO_LIST),
];

// Keys of a subnet alone.
const SUBNET: &[Row] = &[
    ("id", KeyRule::Served),
    ("subnet", KeyRule::Served),
    ("client-class", KeyRule::Served),
    ("interface", KeyRule::Served),
    ("pools", KeyRule::Served),
    ("reservations", KeyRule::Served),
    ("relay", KeyRule::Served),
    ("4o6-interface", NO_TEXT),
    ("4o6-interface-id", NO_TEXT),
    ("4o6-subnet", NO_TEXT),
];

// Keys of a shared network alone.
const NETWORK: &[Row] = &[
    ("name", KeyRule::Served),
    ("subnet4", KeyRule::Served),
    ("client-class", KeyRule::Served),
    ("interface", KeyRule::Served),
    ("relay", KeyRule::Served),
];

// Keys of the relay of a subnet or a shared network.
const RELAY: &[Row] = &[
    ("ip-addresses", KeyRule::Served),
    ("ip-address", KeyRule::Served),
];

// Keys of a pool.
const POOL: &[Row] = &[
    ("pool", KeyRule::Served),
    ("client-class", KeyRule::Served),
    ("option-data", KeyRule::Served),
    ("pool-id", KeyRule::Skipped),
];

// Keys of a reservation.
const RESERVATION: &[Row] = &[
    ("hw-address", KeyRule::Served),
    ("duid", KeyRule::Served),
    ("circuit-id", KeyRule::Served),
    ("client-id", KeyRule::Served),
    ("ip-address", KeyRule::Served),
    ("hostname", KeyRule::Served),
    ("option-data", KeyRule::Served),
    ("client-classes", KeyRule::Served),
];

// The tables of each kind of object.
const WHOLE_TABLES: &[&[Row]] = &[ROOT];

const SERVER_TABLES: &[&[Row]] = &[SERVER, SHARED, REMARKS, BOOT, LIFETIME];

const OPTION_TABLES: &[&[Row]] = &[OPTION, REMARKS];

const DEFINITION_TABLES: &[&[Row]] = &[DEFINITION, REMARKS];

const CLASS_TABLES: &[&[Row]] = &[CLASS, REMARKS, BOOT, LIFETIME];

const SUBNET_TABLES: &[&[Row]] = &[SUBNET, REQUIRED, SHARED, REMARKS, BOOT, LIFETIME];

const NETWORK_TABLES: &[&[Row]] = &[NETWORK, REQUIRED, SHARED, REMARKS, BOOT, LIFETIME];

const RELAY_TABLES: &[&[Row]] = &[RELAY];

const POOL_TABLES: &[&[Row]] = &[POOL, REQUIRED, REMARKS];

const RESERVATION_TABLES: &[&[Row]] = &[RESERVATION, REMARKS, BOOT];

impl ObjectKind {
    /// Returns what is done with the keys of this kind of object, as one or more tables.
    pub fn tables(self) -> &'static [&'static [Row]]
        ensures { rows_of result.now ≡ key_table self }
    {
        match self {
            ObjectKind::Whole => WHOLE_TABLES,
            ObjectKind::Server => SERVER_TABLES,
            ObjectKind::Data => OPTION_TABLES,
            ObjectKind::Definition => DEFINITION_TABLES,
            ObjectKind::Class => CLASS_TABLES,
            ObjectKind::Subnet => SUBNET_TABLES,
            ObjectKind::Network => NETWORK_TABLES,
            ObjectKind::Relay => RELAY_TABLES,
            ObjectKind::Pool => POOL_TABLES,
            ObjectKind::Reservation => RESERVATION_TABLES,
        }
    }
}
