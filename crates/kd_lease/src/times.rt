ghost use Rattle.std.specs.Prelude.{◌≡◌, ◌∷◌, [], ◌≤◌, filter, unwrap_or};
ghost use Rattle.std.specs.Option.{option_copied};
ghost use Rattle.kd_config.specs.Sound.{longest_lease};
ghost use Rattle.kd_lease.specs.Rules.{asking, granted_times};
ghost use Rattle.kd_lease.specs.Times.{asked_seconds, class_lifetime, seconds_in, seconds_under, times_in_subnet, times_under};

use crate::parts::term_with;
use crate::question::Question;
use kd_classes::{ClassDef, Classes, Lifetime};
use kd_config::{Config, Term, Times};
use kd_machine::Held;
use kd_options::Message;
use kd_options::codes::OPTION_LEASE_TIME;

// Returns the times of a lease of an address that the message gets.
#[tactic(auto, unfolding(crate::specs::Times::times_in_subnet))]
pub(crate) fn times_for(question: &Question<'_>, address: u32) -> Times
    ensures { result ≡ granted_times (asking question.now) address }
{
    let config = question.config;
    match question.subnet {
        Some(subnet) => times_by(
            config,
            term_with(question, subnet, address),
            question.names,
            question.message,
        ),
        None => config.times(),
    }
}

// Returns the times of a lease under the term of a subnet, for the client of a message, which is in the
// classes with these names; without a term they are those of the whole server.
fn times_by(config: &Config, term: Option<Term>, names: &Held, message: &Message<'_>) -> Times
    ensures { result ≡ times_under config.now term names.now message.now }
{
    match term {
        Some(term) => term.times(config.times(), seconds_by(config, term, names, message)),
        None => config.times(),
    }
}

// Returns how long a lease under a term lasts.
fn seconds_by(config: &Config, term: Term, names: &Held, message: &Message<'_>) -> u32
    ensures { result ≡ seconds_under config.now term names.now message.now }
{
    lifetime_by_class(config.classes(), names)
        .unwrap_or(term.lifetime)
        .granted(seconds_asked(message))
}

// Returns how long a lease the client asks for, in seconds; 0 if it asks for none.
fn seconds_asked(message: &Message<'_>) -> u32
    ensures { result ≡ asked_seconds message.now }
{
    match message.option(OPTION_LEASE_TIME) {
        Some([a, b, c, d]) => u32::from_be_bytes([*a, *b, *c, *d]),
        _ => 0,
    }
}

// Returns the lifetime of leases that the classes give whose names are held: that of the first, in
// order, that has one.
fn lifetime_by_class(classes: &Classes, names: &Held) -> Option<Lifetime>
    ensures { result ≡ class_lifetime classes.now names.now }
{
    let mut found = None;
    for i in 0..classes.len() {
        match classes.def_at(i) {
            Some(class) => found = found.or(lifetime_of_class(class, names)),
            None => unreachable!(),
        }
    }
    found
}

// Returns the lifetime that a class gives if its name is held.
#[tactic(auto, using(crate::proofs::Lifetimes::one_lifetime, crate::proofs::Lifetimes::no_class_lifetime, crate::proofs::Lifetimes::empty_lifetime))]
fn lifetime_of_class(class: &ClassDef, names: &Held) -> Option<Lifetime>
    ensures { result ≡ class_lifetime (class.now ∷ []) names.now }
{
    if class.lifetime.is_some() && names.contains(class.name.as_slice()) {
        class.lifetime
    } else {
        None
    }
}
