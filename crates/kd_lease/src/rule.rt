ghost use Rattle.std.specs.Prelude.{◌≡◌};
ghost use Rattle.kd_lease.specs.Rules.{checks_in, end_by, rule_by};

use kd_event::Reason;
use kd_options::MessageType;

/// A check that a rule makes of a message, of the address that it is about, and of the subnet that
/// serves it (RFC 2131 section 4.3).
#[derive(Clone, Copy, PartialEq, Eq)]
pub enum Check {
    /// The message names no other server.
    Server,
    /// It is about an address.
    Address,
    /// There is an address to offer to the client.
    Choice,
    /// A subnet serves it.
    Subnet,
    /// The subnet's prefix contains the address: in a shared network, that of one of its subnets.
    Prefix,
    /// The client has a row in the subnet's prefix, or the server is authoritative: in a shared network,
    /// in the prefix of one of its subnets.
    Client,
    /// The row of the address is the client's.
    Owner,
    /// The address fits: a pool of the subnet has it for the client and it is not reserved, or it
    /// is reserved for the client.
    Fits,
    /// The address may be renewed: it fits, or the client keeps its lease, a pool contains the
    /// address, for whichever class, and it is not reserved.
    Lasts,
    /// The address is free for the client.
    Free,
    /// No other address, which nobody uses, is reserved for the client: in a configuration in our own
    /// format this is not asked.
    Stays,
    /// The client holds the address.
    Held,
}

/// How a message ends (RFC 2131 section 4.3).
#[derive(Clone, Copy, PartialEq, Eq)]
pub enum Ending {
    /// The address is offered; the offer is a row unless the client leases the address.
    Offer,
    /// The address is leased.
    Lease,
    /// A NAK.
    Nak,
    /// The newest offer to the client, if there is one, is released, and there is no reply.
    GiveBack,
    /// The address is held back from everyone for a time, and there is no reply.
    Withhold,
    /// The address is released, and there is no reply.
    Release,
    /// An ACK without an address.
    Inform,
    /// Nothing is done, for a reason.
    Quiet(Reason),
}

/// A check, and how a message ends that does not pass it.
pub type Line = (Check, Ending);

/// The rule for a message (RFC 2131 section 4.3).
#[derive(Clone, Copy, PartialEq, Eq)]
pub enum Rule {
    /// A DISCOVER (section 4.3.1).
    Discover,
    /// A REQUEST that names a server (section 4.3.2, SELECTING).
    Select,
    /// A REQUEST that names none (section 4.3.2, INIT-REBOOT, RENEWING and REBINDING).
    Renew,
    /// A DECLINE (section 4.3.3).
    Decline,
    /// A RELEASE (section 4.3.4).
    Release,
    /// An INFORM (section 4.3.5).
    Inform,
    /// A message of a type that servers send.
    Server,
}

impl Rule {
    /// The rule for a message of a type that names this server, if it names one.
    pub fn new(kind: MessageType, server: Option<u32>) -> Rule
        ensures { result ≡ rule_by kind server }
    {
        match kind {
            MessageType::Discover => Rule::Discover,
            MessageType::Request => match server {
                Some(_) => Rule::Select,
                None => Rule::Renew,
            },
            MessageType::Decline => Rule::Decline,
            MessageType::Release => Rule::Release,
            MessageType::Inform => Rule::Inform,
            MessageType::Offer => Rule::Server,
            MessageType::Ack => Rule::Server,
            MessageType::Nak => Rule::Server,
        }
    }

    /// The checks of the rule, in the order in which they are made.
    pub fn checks(self) -> &'static [Line]
        ensures { result.now ≡ checks_in self }
    {
        match self {
            Rule::Discover => &[
                (Check::Subnet, Ending::Quiet(Reason::NoSubnet)),
                (Check::Choice, Ending::Quiet(Reason::NoAddress)),
            ],
            Rule::Select => &[
                (Check::Server, Ending::GiveBack),
                (Check::Address, Ending::Quiet(Reason::NoRequested)),
                (Check::Subnet, Ending::Quiet(Reason::NoSubnet)),
                (Check::Fits, Ending::Nak),
                (Check::Free, Ending::Nak),
                (Check::Stays, Ending::Nak),
            ],
            Rule::Renew => &[
                (Check::Server, Ending::GiveBack),
                (Check::Address, Ending::Quiet(Reason::NoRequested)),
                (Check::Subnet, Ending::Quiet(Reason::NoSubnet)),
                (Check::Prefix, Ending::Nak),
                (Check::Client, Ending::Quiet(Reason::NoRecord)),
                (Check::Owner, Ending::Nak),
                (Check::Lasts, Ending::Nak),
                (Check::Stays, Ending::Nak),
            ],
            Rule::Decline => &[
                (Check::Server, Ending::Quiet(Reason::OtherServer)),
                (Check::Address, Ending::Quiet(Reason::NoRequested)),
                (Check::Held, Ending::Quiet(Reason::NotHeld)),
            ],
            Rule::Release => &[
                (Check::Server, Ending::Quiet(Reason::OtherServer)),
                (Check::Address, Ending::Quiet(Reason::NoCiaddr)),
                (Check::Held, Ending::Quiet(Reason::NotHeld)),
            ],
            Rule::Inform => &[
                (Check::Address, Ending::Quiet(Reason::NoCiaddr)),
                (Check::Subnet, Ending::Quiet(Reason::NoSubnet)),
            ],
            Rule::Server => &[],
        }
    }

    /// How a message ends that passes all the checks.
    pub fn end(self) -> Ending
        ensures { result ≡ end_by self }
    {
        match self {
            Rule::Discover => Ending::Offer,
            Rule::Select => Ending::Lease,
            Rule::Renew => Ending::Lease,
            Rule::Decline => Ending::Withhold,
            Rule::Release => Ending::Release,
            Rule::Inform => Ending::Inform,
            Rule::Server => Ending::Quiet(Reason::NotRequest),
        }
    }
}
