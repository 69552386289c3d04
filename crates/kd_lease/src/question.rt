ghost use Rattle.std.specs.Prelude.{◌≡◌};
ghost use Rattle.std.specs.Option.{option_copied, option_or};
ghost use Rattle.kd_lease.specs.Keeper.{keeper_in};
ghost use Rattle.kd_lease.specs.Kept.{kept_in};
ghost use Rattle.kd_lease.specs.Parts.{part_in};
ghost use Rattle.kd_lease.specs.SubnetOf.{subnet_serving};
ghost use Rattle.kd_lease.specs.Withholding.{KnowsReserved};

use crate::grounds::Ground;
use crate::keeping::{home_of_keeper, keeper_of};
use crate::parts::client_part;
use crate::subnet::subnet_of;
use kd_config::{Config, Subnet};
use kd_machine::Held;
use kd_options::Message;
use kd_rows::{Rows, Withheld};

/// What the lease rules are applied to, for one client's message.
#[derive(Clone, Copy)]
pub struct Question<'a> {
    /// The configuration.
    pub config: &'a Config,
    /// The table of leases.
    pub rows: &'a Rows,
    /// The names of the classes that the message is in.
    pub names: &'a Held,
    /// The message.
    pub message: &'a Message<'a>,
    /// The identity of the message's client.
    pub client: &'a [u8],
    /// The time of the message, in seconds.
    pub moment: u64,
    /// The subnet in which the client keeps the lease that it renews, if it does.
    pub kept: Option<&'a Subnet>,
    /// The subnet that serves the message, searched only once.
    pub subnet: Option<&'a Subnet>,
    // The same table, if it knows the reserved addresses.
    pub(crate) known: Option<&'a Withheld>,
    // The subnet that has the address of the lease that the client keeps, if it does.
    pub(crate) keeper: Option<&'a Subnet>,
    // The subnet that has the address that the client says it has, searched only once: in a shared network
    // one of its subnets.
    pub(crate) part: Option<&'a Subnet>,
    ghost knows: { KnowsReserved config.now rows.now.rows (option_copied known) },
    ghost keeper_is: { option_copied keeper
        ≡ keeper_in config.now rows.now.rows message.now moment client.now },
    ghost keeps: { option_copied kept
        ≡ kept_in config.now rows.now.rows message.now moment client.now },
    ghost serves: { option_copied subnet
        ≡ option_or (option_copied kept) (subnet_serving config.now names.now message.now) },
    ghost part_is: { option_copied part
        ≡ part_in config.now (option_copied subnet) message.now.header.ciaddr },
}

impl<'a> Question<'a> {
    ghost use Rattle.std.specs.Prelude.{◌≡◌};
    ghost use Rattle.kd_lease.specs.Change.{asked_for};
    ghost use Rattle.kd_lease.specs.Rules.{asking};

    /// Makes the question of a message, whose client has this identity and whose classes have these
    /// names, at a given time, in seconds.
    #[tactic(auto, using(crate::proofs::Homes::kept_home))]
    pub fn new(
        over: Ground<'a>,
        names: &'a Held,
        message: &'a Message<'a>,
        client: &'a [u8],
        moment: u64,
    ) -> Question<'a>
        ensures { asking result ≡ asked_for over.entry.config.now over.entry.rows.now.rows
            names.now message.now moment client.now }
    {
        let keeper = keeper_of(over, message, client, moment);
        let kept = home_of_keeper(over.config, keeper);
        let subnet = subnet_or(kept, over.config, names, message);
        Question {
            config: over.config,
            rows: over.rows,
            names,
            message,
            client,
            moment,
            known: over.known,
            keeper,
            kept,
            subnet,
            part: client_part(over.config, subnet, message.header().ciaddr),
        }
    }
}

/// Returns the subnet that serves a message: the one in which its client keeps a lease, if there is
/// one, or else that of its place and of the classes with these names.
pub fn subnet_or<'a>(
    kept: Option<&'a Subnet>,
    config: &'a Config,
    names: &Held,
    message: &Message<'_>,
) -> Option<&'a Subnet>
    ensures { option_copied result ≡ option_or (option_copied kept.entry)
        (subnet_serving config.now names.now message.now) }
{
    match kept {
        Some(subnet) => Some(subnet),
        None => subnet_of(config, names, message),
    }
}
