ghost use Rattle.std.specs.Prelude.{◌≡◌, ◌||◌, ◌∷◌, [], Some};
ghost use Rattle.std.specs.List.{list_any};
ghost use Rattle.std.specs.Option.{option_copied};
ghost use Rattle.kd_classes.specs.Boot.{boot_or, first_boot, no_boot};
ghost use Rattle.kd_config.specs.Booted.{class_gives_boot, gives_boot};
ghost use Rattle.kd_config.specs.Reservation.{has_boots};
ghost use Rattle.kd_lease.specs.Booting.{boots_given, class_boots, fields_in, boots_reserved, fields_of, reply_fields, reserved_boots};
ghost use Rattle.kd_lease.specs.Rules.{asking, serving_subnet};

use crate::parts::boot_with;
use crate::plan::PlanKind;
use crate::question::Question;
use crate::reservation::reservation_for;
use kd_classes::{Boot, ClassDef, Classes};
use kd_config::{Config, Reservation, Subnet};
use kd_machine::Held;
use kd_options::Message;

/// The fields of a reply by which its client boots (RFC 2131 section 2, figure 1).
#[derive(Clone, Copy)]
pub struct BootFields {
    /// The address of the next server, in host order; 0 if there is none.
    pub siaddr: u32,
    /// The name of that server, and zeros after it.
    pub sname: [u8; 64],
    /// The name of the boot file, and zeros after it.
    pub file: [u8; 128],
}

// Returns the boot fields of a reply of a kind that assigns an address or none.
#[tactic(auto, unfolding(crate::specs::Booting::reply_fields))]
pub(crate) fn fields_for(question: &Question<'_>, kind: PlanKind, yiaddr: u32) -> BootFields
    ensures { result ≡ reply_fields (asking question.now) kind yiaddr }
{
    match kind {
        PlanKind::Offer => fields_at(question, yiaddr),
        PlanKind::Ack => fields_at(question, yiaddr),
        PlanKind::InformAck => fields_at(question, question.message.header().ciaddr),
        PlanKind::Nak => zero_fields(),
    }
}

// Returns the boot fields at an address of the message's subnet, if there is a subnet.
fn fields_at(question: &Question<'_>, address: u32) -> BootFields
    ensures { let q = asking question.now in result ≡ fields_in q (serving_subnet q) address }
{
    match question.subnet {
        Some(subnet) => fields_within(question, subnet, address),
        None => zero_fields(),
    }
}

// Returns the boot fields at an address of the subnet that serves a message. Nothing is searched if they
// are zeros for every client of the subnet.
fn fields_within(question: &Question<'_>, subnet: &Subnet, address: u32) -> BootFields
    requires { serving_subnet (asking question.now) ≡ Some subnet.now }
    ensures { result ≡ fields_in (asking question.now) (Some subnet.now) address }
{
    if may_give_boots(question.config, subnet) {
        fields_from(boot_at_address(question, subnet, address))
    } else {
        zero_fields()
    }
}

// Reports whether a part of the configuration or of a subnet gives anything to boot fields.
fn may_give_boots(config: &Config, subnet: &Subnet) -> bool
    ensures { result
        ≡ ((list_any gives_boot config.now.subnets
        || list_any class_gives_boot config.now.classes)
        || (list_any has_boots subnet.now.reservations || gives_boot subnet.now)) }
{
    config.gives_boots() || (subnet.reservations.gives_boots() || !subnet.boot.is_none())
}

// Returns what is given to the boot fields at an address of the subnet that serves a message.
#[tactic(auto, unfolding(crate::specs::Booting::boots_given), using(crate::proofs::Boots::three_boots))]
fn boot_at_address(question: &Question<'_>, subnet: &Subnet, address: u32) -> Boot
    requires { serving_subnet (asking question.now) ≡ Some subnet.now }
    ensures { let q = asking question.now in
        result ≡ first_boot (boots_given q.config subnet.now q.names q.message address) }
{
    let Question {
        config,
        names,
        message,
        ..
    } = *question;
    boot_of_client(config, names, subnet, message, address).or(boot_with(question, subnet, address))
}

// Returns fields that are zeros.
fn zero_fields() -> BootFields
    ensures { result ≡ fields_of no_boot }
{
    BootFields {
        siaddr: 0,
        sname: [0; 64],
        file: [0; 128],
    }
}

// Returns the fields of a reply with these values.
fn fields_from(boot: Boot) -> BootFields
    ensures { result ≡ fields_of boot }
{
    BootFields {
        siaddr: boot.next_server.unwrap_or(0),
        sname: boot.server_name.unwrap_or([0; 64]),
        file: boot.file_name.unwrap_or([0; 128]),
    }
}

/// Returns what is given to the boot fields at an address, in host order, of a subnet, for the client
/// of a message, which is in the classes with these names: each value is that of the first that has
/// one, of the client's reservation, its classes in order, and the subnet. In a shared network the
/// subnet is the one that has the address.
#[tactic(auto, unfolding(crate::specs::Booting::boots_given), using(crate::proofs::Boots::three_boots))]
pub fn boot_given(
    config: &Config,
    names: &Held,
    subnet: &Subnet,
    message: &Message<'_>,
    address: u32,
) -> Boot
    ensures { result
        ≡ first_boot (boots_given config.now subnet.now names.now message.now address) }
{
    boot_of_client(config, names, subnet, message, address).or(config.boot_at(subnet, address))
}

// Returns what the reservation and the classes of the client give, which comes before what the subnet
// gives.
fn boot_of_client(
    config: &Config,
    names: &Held,
    subnet: &Subnet,
    message: &Message<'_>,
    address: u32,
) -> Boot
    ensures { result
        ≡ boot_or (first_boot (reserved_boots config.now names.now message.now subnet.now address))
        (first_boot (class_boots config.now.classes names.now)) }
{
    let reserved = boot_of_host(reservation_for(config, names, message, subnet, address));
    reserved.or(class_boot(config.classes(), names))
}

// Returns what a reservation gives, if there is one.
fn boot_of_host(reservation: Option<&Reservation>) -> Boot
    ensures { result ≡ first_boot (boots_reserved (option_copied reservation.entry)) }
{
    match reservation {
        Some(reservation) => first_of(reservation.boots.as_slice()),
        None => Boot::none(),
    }
}

// Returns what several give, one after another.
#[tactic(auto, using(crate::proofs::Boots::one_more, crate::proofs::Boots::boot_last))]
fn first_of(boots: &[Boot]) -> Boot
    ensures { result ≡ first_boot boots.now }
{
    let mut found = Boot::none();
    for boot in boots {
        found = found.or(*boot);
    }
    found
}

// Returns what the classes whose names are held give, one after another.
fn class_boot(classes: &Classes, names: &Held) -> Boot
    ensures { result ≡ first_boot (class_boots classes.now names.now) }
{
    let mut found = Boot::none();
    for i in 0..classes.len() {
        match classes.def_at(i) {
            Some(class) => found = found.or(boot_of_class(class, names)),
            None => unreachable!(),
        }
    }
    found
}

// Returns what a class gives if its name is held.
#[tactic(auto, using(crate::proofs::Boots::one_boot, crate::proofs::Boots::no_class_boot, crate::proofs::Boots::empty_boot))]
fn boot_of_class(class: &ClassDef, names: &Held) -> Boot
    ensures { result ≡ first_boot (class_boots (class.now ∷ []) names.now) }
{
    if !class.boot.is_none() && names.contains(class.name.as_slice()) {
        class.boot
    } else {
        Boot::none()
    }
}
