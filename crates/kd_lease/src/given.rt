ghost use Rattle.std.specs.Prelude.{◌≡◌, ◌||◌, ◌++◌, ◌∷◌, [], IfOk, List, OnOk, Some, map};
ghost use Rattle.kd_classes.specs.declared.option_list.OptionData.{OptionData};
ghost use Rattle.kd_lease.specs.Client.{wants_option};
ghost use Rattle.kd_lease.specs.Given.{class_options, configured, configured_options, given, prefix_mask};
ghost use Rattle.kd_lease.specs.Plan.{option_of_item};
ghost use Rattle.kd_lease.specs.Rules.{asking, serving_subnet};
ghost use Rattle.kd_lease.specs.Valuing.{HasValues, HaveCodes};
ghost use Rattle.kd_wire.specs.Area.{IsCode};

use crate::client::asks_for;
use crate::parts::{part_that_has, pool_options_with};
use crate::question::Question;
use crate::reply::put_optional;
use crate::reservation::reservation_options;
use crate::values::{Coded, Values};
use kd_classes::{ClassDef, Classes, OptionData};
use kd_config::{Prefix, Subnet};
use kd_machine::Held;
use kd_options::{Item, Message};
use std::alloc::{AllocError, Global};

// Appends the options that the configuration gives, at an address of the subnet that serves a message,
// to the client; only those that the client asks for or that are sent to all.
pub(crate) fn put_given(
    alloc: Global,
    list: &mut Vec<Item>,
    question: &Question<'_>,
    subnet: &Subnet,
    address: u32,
) -> Result<(), AllocError>
    requires { serving_subnet (asking question.now) ≡ Some subnet.now }
    ensures { let q = asking question.now in
        OnOk result (map option_of_item list.new.items ≡ map option_of_item list.old.items
        ++ configured_options q.message (given q.config subnet.now q.names q.message address)) }
{
    let Question {
        config,
        names,
        message,
        ..
    } = *question;
    let part = part_that_has(question, subnet, address);
    let mask = mask_of(part.prefix);
    let host = reservation_options(config, names, message, subnet, address);
    let classes = config.classes();
    let pool = pool_options_with(question, subnet, address);
    let mut values = subnet_values(alloc, host, pool, part)?;
    put_class_options(&mut values, classes, names)?;
    values.put_all(config.options())?;
    values.put(1, &mask, false)?;
    put_values(alloc, list, message, &values)
}

// Returns the values that a subnet gives at an address: those of a reservation, of the pool, and of the
// part of its shared network, or itself, that has the address, and of the network.
fn subnet_values<'a>(
    alloc: Global,
    host: &'a [OptionData],
    pool: &'a [OptionData],
    part: &'a Subnet,
) -> Result<Values<'a>, AllocError>
    ensures { IfOk result (λ values. HasValues values.list.items
        (host.now ++ pool.now ++ part.now.options ++ part.now.shared)) }
{
    let mut values = Values::new(alloc);
    values.put_all(host)?;
    values.put_all(pool)?;
    values.put_all(part.options.as_slice())?;
    values.put_all(part.shared.as_slice())?;
    Ok(values)
}

// Appends the options of the classes whose names are held.
fn put_class_options<'a>(
    values: &mut Values<'a>,
    classes: &'a Classes,
    names: &Held,
) -> Result<(), AllocError>
    ensures { OnOk result ((before : List OptionData) → HasValues values.old.list.items before
        → HasValues values.new.list.items (before ++ class_options classes.now names.now)) }
{
    for i in 0..classes.len() {
        match classes.def_at(i) {
            Some(class) => put_options_of(values, class, names)?,
            None => unreachable!(),
        }
    }
    Ok(())
}

// Appends the options of a class if its name is held.
fn put_options_of<'a>(
    values: &mut Values<'a>,
    class: &'a ClassDef,
    names: &Held,
) -> Result<(), AllocError>
    ensures { OnOk result ((before : List OptionData) → HasValues values.old.list.items before
        → HasValues values.new.list.items (before ++ class_options (class.now ∷ []) names.now)) }
{
    if names.contains(class.name.as_slice()) {
        values.put_all(class.options.as_slice())?;
    }
    Ok(())
}

// Appends the options with these values that the client asks for or that are sent to all, in
// ascending order of their codes.
fn put_values(
    alloc: Global,
    list: &mut Vec<Item>,
    message: &Message<'_>,
    values: &Values<'_>,
) -> Result<(), AllocError>
    requires codes { HaveCodes values.now.list.items }
    ensures { (options : List OptionData) → HasValues values.now.list.items options
        → OnOk result (map option_of_item list.new.items ≡ map option_of_item list.old.items
        ++ configured_options message.now options) }
{
    for entry in &values.list {
        put_configured(alloc, list, message, *entry)?;
    }
    Ok(())
}

// Appends a configured option if the client asks for it or if it is sent to all.
fn put_configured(
    alloc: Global,
    list: &mut Vec<Item>,
    message: &Message<'_>,
    coded: Coded<'_>,
) -> Result<(), AllocError>
    requires { IsCode coded.code }
    ensures { OnOk result (map option_of_item list.new.items
        ≡ map option_of_item list.old.items
        ++ configured (wants_option coded.entry.code message.now || coded.entry.always)
        coded.entry.code (Some coded.entry.value.now)) }
{
    let Coded {
        code,
        value,
        always,
    } = coded;
    if asks_for(message, code) || always {
        put_optional(alloc, list, code, value)
    } else {
        Ok(())
    }
}

// Returns the mask of a prefix, in network order (RFC 2132 section 3.3).
fn mask_of(prefix: Prefix) -> [u8; 4]
    ensures { result ≡ prefix_mask prefix }
{
    let mask = (1u64 << 32) - prefix.size();
    (mask as u32).to_be_bytes()
}
