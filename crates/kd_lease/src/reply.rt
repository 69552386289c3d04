ghost use Rattle.std.specs.Prelude.{◌≡◌, ◌++◌, ◌∷◌, [], IsTrue, OnOk, map, option_copied};
ghost use Rattle.kd_options.specs.Reply.{ItemsFit};
ghost use Rattle.kd_lease.specs.Given.{optional};
ghost use Rattle.kd_lease.specs.Plan.{option_of_item};
ghost use Rattle.kd_lease.specs.ReplyOf.{within_room, obligatory, returned, ciaddr_of_reply, fields_in_header, flags_of_reply, header_of_reply};
ghost use Rattle.kd_wire.specs.Area.{IsCode};

use crate::booting::BootFields;
use crate::plan::PlanKind;
use kd_options::{Item, Reply};
use kd_wire::{Bytes, Header};
use std::alloc::{AllocError, Global};

// Returns the header of the reply with these boot fields to a message with this header.
#[tactic(auto, unfolding(crate::specs::ReplyOf::header_of_reply))]
pub(crate) fn reply_header(
    kind: PlanKind,
    yiaddr: u32,
    fields: BootFields,
    header: &Header,
) -> Header
    ensures same { result ≡ header_of_reply kind yiaddr fields header.now }
    ensures fields { fields_in_header result ≡ fields }
{
    let BootFields {
        siaddr,
        sname,
        file,
    } = fields;
    Header {
        op: 2,
        htype: header.htype,
        hlen: header.hlen,
        hops: 0,
        xid: header.xid,
        secs: 0,
        flags: reply_flags(kind, header),
        ciaddr: reply_ciaddr(kind, header),
        yiaddr,
        siaddr,
        giaddr: header.giaddr,
        chaddr: header.chaddr,
        sname,
        file,
    }
}

// Returns the flags: a NAK through a relay asks the relay to broadcast.
fn reply_flags(kind: PlanKind, header: &Header) -> u16
    ensures { result ≡ flags_of_reply kind header.now }
{
    match kind {
        PlanKind::Nak if header.giaddr != 0 => header.flags | 0x8000,
        _ => header.flags,
    }
}

// Returns the field `ciaddr`: in an ACK that of the message, otherwise zero.
fn reply_ciaddr(kind: PlanKind, header: &Header) -> u32
    ensures { result ≡ ciaddr_of_reply kind header.now }
{
    match kind {
        PlanKind::Offer => 0,
        PlanKind::Ack => header.ciaddr,
        PlanKind::InformAck => header.ciaddr,
        PlanKind::Nak => 0,
    }
}

// Reports whether the mandatory options of a reply fit into the room.
pub(crate) fn fits_room(reply: &Reply, room: u16) -> bool
    ensures short { result ≡ within_room room (map option_of_item reply.now.items) }
    ensures fits { IsTrue result → ItemsFit room reply.now.items }
{
    reply.fits(room)
}

// Appends an option that is always written.
pub(crate) fn put_obligatory(
    alloc: Global,
    list: &mut Vec<Item>,
    code: u8,
    value: &[u8],
) -> Result<(), AllocError>
    requires { IsCode code }
    ensures { OnOk result (map option_of_item list.new.items ≡ map option_of_item list.old.items
        ++ obligatory code value.now) }
{
    put_option(alloc, list, code, value, true)
}

// Appends an option of the message as it came, if it is present.
pub(crate) fn put_returned(
    alloc: Global,
    list: &mut Vec<Item>,
    code: u8,
    value: Option<&[u8]>,
) -> Result<(), AllocError>
    requires { IsCode code }
    ensures { OnOk result (map option_of_item list.new.items
        ≡ map option_of_item list.old.items ++ returned code (option_copied value.entry)) }
{
    match value {
        Some(value) => put_obligatory(alloc, list, code, value),
        None => Ok(()),
    }
}

// Appends an option that is left out if there is no room for it.
pub(crate) fn put_optional(
    alloc: Global,
    list: &mut Vec<Item>,
    code: u8,
    value: &[u8],
) -> Result<(), AllocError>
    requires { IsCode code }
    ensures { OnOk result (map option_of_item list.new.items ≡ map option_of_item list.old.items
        ++ optional code value.now) }
{
    put_option(alloc, list, code, value, false)
}

fn put_option(
    alloc: Global,
    list: &mut Vec<Item>,
    code: u8,
    value: &[u8],
    obligatory: bool,
) -> Result<(), AllocError>
    requires { IsCode code }
    ensures { OnOk result (map option_of_item list.new.items ≡ map option_of_item list.old.items
        ++ record { code = code; value = value.now; obligatory = obligatory } ∷ []) }
{
    let value = Bytes::own(Vec::from_slice(alloc, value)?);
    list.push(Item {
        code,
        value,
        obligatory,
    })?;
    Ok(())
}
