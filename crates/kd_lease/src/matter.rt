ghost use Rattle.std.specs.Prelude.{◌≡◌, Some, [], ◌∷◌};
ghost use Rattle.kd_lease.specs.Client.{named_server};
ghost use Rattle.kd_lease.specs.Kept.{ciaddr_in};
ghost use Rattle.kd_lease.specs.Rules.{IsAbout, IsChosenIn, asking, rule_by, serving_subnet};
ghost use Rattle.kd_options.specs.Joined.{value_of};
ghost use Rattle.kd_options.specs.Kind.{type_number};

use crate::choice::choose;
use crate::fit::requested_of;
use crate::question::Question;
use crate::rule::Rule;
use crate::server::{renewed_of, server_of};
use kd_options::{Message, MessageType};

/// A client's message with its rule and the address that it is about.
#[derive(Clone, Copy)]
pub struct Matter<'a> {
    /// What the rules are applied to.
    pub question: &'a Question<'a>,
    /// The type of the message.
    pub kind: MessageType,
    /// Its rule.
    pub rule: Rule,
    /// The address that it is about, in host order: for a DISCOVER the one to offer, for a RELEASE
    /// and an INFORM the one that the client has, for a REQUEST that names no server the one that
    /// the client has or else asks for, otherwise the one that it asks for.
    pub address: Option<u32>,
    ghost typed: { value_of 53 question.now.message.now.options ≡ Some (type_number kind ∷ []) },
    ghost ruled: { rule ≡ rule_by kind (named_server question.now.message.now) },
}

impl<'a> Matter<'a> {
    /// Finds the rule of a message and the address that it is about.
    pub fn new(question: &'a Question<'a>) -> Matter<'a>
        ensures question { result.question.now ≡ question.now }
        ensures about { IsAbout (asking question.now) result.rule result.address }
    {
        let kind = question.message.kind();
        let rule = Rule::new(kind, server_of(question.message));
        Matter {
            question,
            kind,
            rule,
            address: address_of(question, rule),
        }
    }
}

// Returns the address that a message with this rule is about.
fn address_of(question: &Question<'_>, rule: Rule) -> Option<u32>
    ensures { IsAbout (asking question.now) rule result }
{
    match rule {
        Rule::Discover => chosen_for(question),
        Rule::Select => requested_of(question.message),
        Rule::Renew => renewed_of(question.message),
        Rule::Decline => requested_of(question.message),
        Rule::Release => ciaddr_of(question.message),
        Rule::Inform => ciaddr_of(question.message),
        Rule::Server => None,
    }
}

// Returns the address to offer to the client in the subnet that serves its message.
fn chosen_for(question: &Question<'_>) -> Option<u32>
    ensures { let q = asking question.now in IsChosenIn q (serving_subnet q) result }
{
    match question.subnet {
        Some(subnet) => choose(question, subnet),
        None => None,
    }
}

// Returns the address that the client says it has.
pub(crate) fn ciaddr_of(message: &Message<'_>) -> Option<u32>
    ensures { result ≡ ciaddr_in message.now }
{
    let address = message.header().ciaddr;
    if address == 0 { None } else { Some(address) }
}
