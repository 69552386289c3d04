ghost use Rattle.std.specs.Prelude.{◌≡◌};
ghost use Rattle.kd_lease.specs.Choice.{address_reserved};

use crate::question::Question;
use crate::reservation::reserved_address;
use kd_config::Subnet;

// The choice of an address in a subnet, with the address that is reserved there for the client; it
// is looked up once for each message.
#[derive(Clone, Copy)]
pub(crate) struct Choosing<'a> {
    // What the rules are applied to.
    pub(crate) question: &'a Question<'a>,
    // The subnet.
    pub(crate) subnet: &'a Subnet,
    // The address that is reserved in it for the client.
    pub(crate) own: Option<u32>,
    ghost reserved: { own ≡ address_reserved question.now.config.now question.now.names.now question.now.message.now subnet.now },
}

impl<'a> Choosing<'a> {
    // Makes the choice for a question in a subnet.
    pub(crate) fn new(question: &'a Question<'a>, subnet: &'a Subnet) -> Choosing<'a>
        ensures question { result.question.now ≡ question.now }
        ensures subnet { result.subnet.now ≡ subnet.now }
    {
        Choosing {
            question,
            subnet,
            own: reserved_address(question.config, question.names, question.message, subnet),
        }
    }
}
