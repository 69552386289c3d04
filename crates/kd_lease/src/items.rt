ghost use Rattle.std.specs.Prelude.{◌≡◌, ◌++◌, IfOk, OnOk, map};
ghost use Rattle.kd_lease.specs.Plan.{option_of_item};
ghost use Rattle.kd_lease.specs.ReplyOptions.{configured_for, configured_in, lease_times, reply_options, plan_type, times_in};
ghost use Rattle.kd_lease.specs.Rules.{asking, granted_times, serving_subnet};

use crate::given::put_given;
use crate::plan::PlanKind;
use crate::question::Question;
use crate::reply::{put_obligatory, put_returned};
use crate::server::server_identifier_of;
use crate::times::times_for;
use kd_config::Times;
use kd_options::codes::{
    OPTION_CLIENT_IDENTIFIER, OPTION_LEASE_TIME, OPTION_MESSAGE_TYPE, OPTION_REBINDING_TIME,
    OPTION_RELAY_INFORMATION, OPTION_RENEWAL_TIME, OPTION_SERVER_IDENTIFIER,
};
use kd_options::{Item, Items};
use std::alloc::{AllocError, Global};

// The initial capacity for a reply's options; up to this many need only one allocation of the list.
const USUAL: usize = 12;

// Returns the options of a reply of a kind that assigns an address or none, in their order.
#[tactic(auto, unfolding(crate::specs::ReplyOptions::reply_options))]
pub(crate) fn reply_items(
    alloc: Global,
    question: &Question<'_>,
    kind: PlanKind,
    yiaddr: u32,
) -> Result<Items, AllocError>
    ensures { IfOk result
        (λ items. map option_of_item items ≡ reply_options (asking question.now) kind yiaddr) }
{
    let message = question.message;
    let server = server_identifier_of(question.config, message).to_be_bytes();
    let mut list = Vec::with_capacity(alloc, USUAL)?;
    put_obligatory(alloc, &mut list, OPTION_MESSAGE_TYPE, &[reply_type(kind)])?;
    put_obligatory(alloc, &mut list, OPTION_SERVER_IDENTIFIER, &server)?;
    put_times(alloc, &mut list, question, kind, yiaddr)?;
    put_returned(
        alloc,
        &mut list,
        OPTION_CLIENT_IDENTIFIER,
        message.option(OPTION_CLIENT_IDENTIFIER),
    )?;
    put_configured_for(alloc, &mut list, question, kind, yiaddr)?;
    put_returned(
        alloc,
        &mut list,
        OPTION_RELAY_INFORMATION,
        message.option(OPTION_RELAY_INFORMATION),
    )?;
    Ok(Items::own(list))
}

// Returns the message type of a reply (RFC 2132 section 9.6).
fn reply_type(kind: PlanKind) -> u8
    ensures { result ≡ plan_type kind }
{
    match kind {
        PlanKind::Offer => 2,
        PlanKind::Ack => 5,
        PlanKind::InformAck => 5,
        PlanKind::Nak => 6,
    }
}

// Appends the times of a lease if the reply assigns an address.
fn put_times(
    alloc: Global,
    list: &mut Vec<Item>,
    question: &Question<'_>,
    kind: PlanKind,
    yiaddr: u32,
) -> Result<(), AllocError>
    ensures { OnOk result (map option_of_item list.new.items ≡ map option_of_item list.old.items
        ++ times_in kind (granted_times (asking question.now) yiaddr)) }
{
    match kind {
        PlanKind::Offer => put_lease_times(alloc, list, times_for(question, yiaddr)),
        PlanKind::Ack => put_lease_times(alloc, list, times_for(question, yiaddr)),
        PlanKind::InformAck => Ok(()),
        PlanKind::Nak => Ok(()),
    }
}

// Appends the lease time and the times T1 and T2 of renewing and rebinding.
fn put_lease_times(alloc: Global, list: &mut Vec<Item>, times: Times) -> Result<(), AllocError>
    ensures { OnOk result (map option_of_item list.new.items ≡ map option_of_item list.old.items
        ++ lease_times times) }
{
    put_obligatory(
        alloc,
        list,
        OPTION_LEASE_TIME,
        &times.lifetime.to_be_bytes(),
    )?;
    put_obligatory(alloc, list, OPTION_RENEWAL_TIME, &times.renew.to_be_bytes())?;
    put_obligatory(
        alloc,
        list,
        OPTION_REBINDING_TIME,
        &times.rebind.to_be_bytes(),
    )
}

// Appends the configured options of a reply: those at the address that it assigns, or at the
// address that the client has.
fn put_configured_for(
    alloc: Global,
    list: &mut Vec<Item>,
    question: &Question<'_>,
    kind: PlanKind,
    yiaddr: u32,
) -> Result<(), AllocError>
    ensures { OnOk result (map option_of_item list.new.items ≡ map option_of_item list.old.items
        ++ configured_for (asking question.now) kind yiaddr) }
{
    match kind {
        PlanKind::Offer => put_configured_at(alloc, list, question, yiaddr),
        PlanKind::Ack => put_configured_at(alloc, list, question, yiaddr),
        PlanKind::InformAck => {
            put_configured_at(alloc, list, question, question.message.header().ciaddr)
        }
        PlanKind::Nak => Ok(()),
    }
}

// Appends the configured options at an address of the message's subnet, if there is a subnet.
fn put_configured_at(
    alloc: Global,
    list: &mut Vec<Item>,
    question: &Question<'_>,
    address: u32,
) -> Result<(), AllocError>
    ensures { OnOk result (map option_of_item list.new.items ≡ map option_of_item list.old.items
        ++ configured_in (asking question.now) (serving_subnet (asking question.now)) address) }
{
    match question.subnet {
        Some(subnet) => put_given(alloc, list, question, subnet, address),
        None => Ok(()),
    }
}
