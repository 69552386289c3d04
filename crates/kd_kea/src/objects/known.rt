ghost use Rattle.std.specs.Prelude.{◌≡◌, ◌≤◌, IfOk, codes, drop, length, nat_eq};
ghost use Rattle.std.specs.List.{list_any, starts_with};
ghost use Rattle.kd_keys.specs.ClassNames.{is_of_clients};
ghost use Rattle.kd_kea.specs.Known.{are_of_clients, classes_with, gives_classes, has_word, is_class_of_clients, is_pool_of_clients, is_subnet_of_clients, is_test_of_clients, untested};

use kd_classes::{Boot, OptionList};
use kd_config::{Pool, Reservation, Subnet};
use kd_fields::values::own_bytes;
use kd_json::objects::class::{ClassEntry, TestSource};
use kd_keys::class_names::{KNOWN, UNKNOWN, is_known_or_unknown};
use kd_wire::{Bytes, Entries};
use std::alloc::{AllocError, Global};

// Reports whether a configuration with these classes and subnets knows its clients by their
// reservations: one of them gives classes, or something asks whether a client has one.
pub(crate) fn knows_clients(classes: &[ClassEntry], subnets: &[Subnet]) -> bool
    ensures { result ≡ are_of_clients classes.now subnets.now }
{
    is_asked_by_any(classes) || is_asked_in_any(subnets)
}

// Reports whether one of these classes may ask whether a client has a reservation.
fn is_asked_by_any(classes: &[ClassEntry]) -> bool
    ensures { result ≡ list_any is_class_of_clients classes.now }
{
    classes.iter().any(|class| is_asked_by(class))
}

// Reports whether one of these subnets asks whether a client has a reservation, or gives classes.
fn is_asked_in_any(subnets: &[Subnet]) -> bool
    ensures { result ≡ list_any is_subnet_of_clients subnets.now }
{
    subnets.iter().any(|subnet| is_asked_by_subnet(subnet))
}

// Reports whether a class may ask whether a client has a reservation.
fn is_asked_by(class: &ClassEntry) -> bool
    ensures { result ≡ is_class_of_clients class.now }
{
    is_asked_by_test(&class.source)
}

// Reports whether a test may ask whether a client has a reservation.
fn is_asked_by_test(source: &TestSource) -> bool
    ensures { result ≡ is_test_of_clients source.now }
{
    match source {
        TestSource::Expression(text) => has_known(text.as_slice()),
        _ => false,
    }
}

// Reports whether `KNOWN` is somewhere in a text.
#[tactic(auto, using(crate::proofs::Words::word_at, crate::proofs::Words::word_behind))]
fn has_known(text: &[u8]) -> bool
    ensures { result ≡ has_word (codes "KNOWN") text.now }
{
    for at in 0..text.len() {
        if begins_at(text, at) {
            return true;
        }
    }
    false
}

// Reports whether `KNOWN` is at a place of a text.
fn begins_at(text: &[u8], at: usize) -> bool
    requires { at ≤ length text.now }
    ensures { result ≡ starts_with nat_eq (drop at text.now) (codes "KNOWN") }
{
    let rest = &text[at..];
    rest.starts_with(KNOWN)
}

// Reports whether a subnet asks whether a client has a reservation, or has one that gives classes.
fn is_asked_by_subnet(subnet: &Subnet) -> bool
    ensures { result ≡ is_subnet_of_clients subnet.now }
{
    is_asked_among(subnet.classes.as_slice())
        || is_asked_for_any(subnet.pools.as_slice())
        || is_any_giving(subnet.reservations.as_slice())
}

// Reports whether one of these pools asks whether a client has a reservation.
fn is_asked_for_any(pools: &[Pool]) -> bool
    ensures { result ≡ list_any is_pool_of_clients pools.now }
{
    pools.iter().any(|pool| is_asked_by_pool(pool))
}

// Reports whether one of these reservations gives classes.
fn is_any_giving(reservations: &[Reservation]) -> bool
    ensures { result ≡ list_any gives_classes reservations.now }
{
    reservations
        .iter()
        .any(|reservation| is_giving(reservation))
}

// Reports whether a pool asks whether a client has a reservation.
fn is_asked_by_pool(pool: &Pool) -> bool
    ensures { result ≡ is_pool_of_clients pool.now }
{
    is_asked_among(pool.classes.as_slice())
}

// Reports whether one of these classes says whether a client has a reservation.
fn is_asked_among(classes: &[Bytes]) -> bool
    ensures { result ≡ list_any is_of_clients classes.now }
{
    classes
        .iter()
        .any(|class| is_known_or_unknown(class.as_slice()))
}

// Reports whether a reservation gives classes.
fn is_giving(reservation: &Reservation) -> bool
    ensures { result ≡ gives_classes reservation.now }
{
    reservation.joins.as_slice().len() != 0
}

// Returns the classes of a configuration, with KNOWN and UNKNOWN before them if it knows its clients.
pub(crate) fn with_known(
    alloc: Global,
    knows: bool,
    classes: Entries<ClassEntry>,
) -> Result<Entries<ClassEntry>, AllocError>
    ensures { IfOk result (λ all. all ≡ classes_with knows classes) }
{
    if !knows {
        return Ok(classes);
    }
    let mut all = Vec::new(alloc);
    all.push(make_untested(alloc, KNOWN)?)?;
    all.push(make_untested(alloc, UNKNOWN)?)?;
    let mut classes = classes.into_vec();
    all.append(&mut classes)?;
    Ok(Entries::own(all))
}

// Makes a class without a test.
fn make_untested(alloc: Global, name: &[u8]) -> Result<ClassEntry, AllocError>
    ensures { IfOk result (λ class. class ≡ untested name.now) }
{
    Ok(ClassEntry {
        name: own_bytes(alloc, name)?,
        source: TestSource::Nothing,
        options: OptionList::own(Vec::new(alloc)),
        boot: Boot::none(),
        lifetime: None,
    })
}
