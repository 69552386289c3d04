ghost use Rattle.std.specs.Prelude.{◌≡◌};
ghost use Rattle.kd_lease.specs.Destination.{destination_of};

use crate::plan::{Plan, PlanKind};
use kd_event::{Destination, Mode, Ports};
use kd_options::Message;

/// Returns where the reply to a message goes (RFC 2131 section 4.1), by the fields of the message:
/// to its relay; otherwise a NAK is broadcast; otherwise to the address that the client has;
/// otherwise by broadcast if the client asks for it; otherwise to the client's hardware address,
/// with its new address.
#[tactic(auto, unfolding(crate::specs::Destination::destination_of))]
pub fn destination(message: &Message<'_>, plan: &Plan, ports: Ports) -> Destination
    ensures { result ≡ destination_of message.now.header plan.now.kind plan.now.yiaddr ports }
{
    let header = message.header();
    if header.giaddr != 0 {
        return to(Mode::Relay, header.giaddr, ports.server);
    }
    if plan.kind == PlanKind::Nak {
        return to(Mode::Broadcast, ALL_HOSTS, ports.client);
    }
    if header.ciaddr != 0 {
        return to(Mode::Unicast, header.ciaddr, ports.client);
    }
    if header.flags >= BROADCAST_FLAG {
        return to(Mode::Broadcast, ALL_HOSTS, ports.client);
    }
    to(Mode::Hardware, plan.yiaddr, ports.client)
}

const ALL_HOSTS: u32 = 0xffff_ffff;

// The leftmost bit of the flags.
const BROADCAST_FLAG: u16 = 0x8000;

fn to(mode: Mode, address: u32, port: u16) -> Destination
    ensures { result ≡ record { mode = mode; address = address; port = port } }
{
    Destination {
        mode,
        address,
        port,
    }
}
