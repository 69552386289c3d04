ghost use Rattle.std.specs.Prelude.{◌≡◌};
ghost use Rattle.kd_explain.specs.Origins.{IsOrigin, has_code};

use crate::gift::{Gift, class_giving};
use kd_classes::OptionData;
use kd_config::{Config, Subnet};
use kd_lease::{pool_options, reservation_options};
use kd_machine::Held;
use kd_options::Message;

/// Where a configured option comes from (Kea Administrator Reference Manual, chapters DHCPv4 Server
/// Configuration and Client Classification).
#[derive(Clone, Copy, PartialEq, Eq)]
pub enum Origin {
    /// The reservation that counts for the reply: that for the client, or for a renewal without a
    /// relay, that of the address for a circuit.
    Reservation,
    /// The pool that has the address.
    Pool,
    /// The subnet.
    Subnet,
    /// The shared network of the subnet.
    Network,
    /// The class at an index of the configuration; the client is a member of it.
    Class(usize),
    /// The options that go into all replies.
    Global,
    /// The prefix of the subnet, which gives option 1.
    Mask,
}

/// Returns where the option with a code comes from at an address, in host order, of a subnet, for
/// the client of a message, which is a member of the classes with these names. This is the first of
/// reservation, pool, subnet, shared network, classes in order, options of all replies and mask
/// that has the code; `None` if none has it. In a shared network, subnet and mask are those of the
/// subnet that has the address.
pub fn origin_of(
    config: &Config,
    subnet: &Subnet,
    names: &Held,
    message: &Message<'_>,
    address: u32,
    code: u8,
) -> Option<Origin>
    ensures { IsOrigin config.now subnet.now names.now message.now address code result }
{
    if lists(
        reservation_options(config, names, message, subnet, address),
        code,
    ) {
        return Some(Origin::Reservation);
    }
    if lists(pool_options(subnet, address), code) {
        return Some(Origin::Pool);
    }
    let part = config.member_with(subnet, address);
    if lists(part.options.as_slice(), code) {
        return Some(Origin::Subnet);
    }
    if lists(part.shared.as_slice(), code) {
        return Some(Origin::Network);
    }
    if let Some(index) = class_giving(config.classes(), names, Gift::Code(code)) {
        return Some(Origin::Class(index));
    }
    if lists(config.options(), code) {
        return Some(Origin::Global);
    }
    if code == 1 { Some(Origin::Mask) } else { None }
}

// Reports whether options list a code.
pub(crate) fn lists(options: &[OptionData], code: u8) -> bool
    ensures { result ≡ has_code code options.now }
{
    options.iter().any(|option| option.code == code)
}
