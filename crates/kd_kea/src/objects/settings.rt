ghost use Rattle.std.specs.Prelude.{◌≡◌, Some};
ghost use Rattle.serde_json.specs.Find.{get};
ghost use Rattle.serde_json.specs.View.{view};
ghost use Rattle.kd_fields.specs.Gives.{Means};
ghost use Rattle.kd_fields.specs.Steps.{must};
ghost use Rattle.kd_fields.specs.declared.faults.SettingsFault.TheVariants.{Memory};
ghost use Rattle.kd_keys.specs.Options.{server_address};
ghost use Rattle.kd_keys.specs.Rows.{plain_of};
ghost use Rattle.kd_kea.specs.Settings.{has_server_form, kea_dhcp4, kea_root, kea_settings_with, turns_nothing_on};

use crate::objects::class::ClassReader;
use crate::objects::known::{knows_clients, with_known};
use crate::objects::lifetimes::{TermKeys, is_lifetime_by_class, keys_of};
use crate::objects::network::subnets_of;
use crate::objects::subnet::Above;
use crate::objects::times::times_of;
use kd_classes::{OptionData, OptionList};
use kd_config::Extensions;
use kd_fields::faults::SettingsFault;
use kd_fields::lists::entries_of;
use kd_fields::place::{Place, bad_value, missing};
use kd_json::objects::settings::Settings;
use kd_keys::boot::boot_of;
use kd_keys::checking::check_keys;
use kd_keys::definition::{DefinedOption, known_definitions};
use kd_keys::flags::{check_usual, flag_at, is_usual_at};
use kd_keys::hooks::check_hooks;
use kd_keys::host_kinds::{check_identifiers, kinds_of_server, order_of};
use kd_keys::host_name::server_names_are_bare;
use kd_keys::keys::UsualValue;
use kd_keys::options::{address_among, options_of, without_server};
use kd_keys::policy::policy_of;
use kd_keys::scope::scope_of_all;
use kd_keys::tables::ObjectKind;
use serde_json::Value;
use std::alloc::Global;

/// Reads the settings that the JSON value of a whole text describes.
///
/// # Errors
///
/// `Missing` without `Dhcp4`; else the first fault, object by object.
#[tactic(auto, unfolding(crate::specs::Settings::kea_root))]
pub fn root_of(alloc: Global, value: &Value, server: Option<u32>) -> Result<Settings, SettingsFault>
    ensures { Means Memory result (kea_root server (view value.now)) }
{
    let root = Place::Root;
    check_keys(alloc, value, &root, ObjectKind::Whole)?;
    match value.get("Dhcp4") {
        Some(dhcp4) => settings_of(alloc, dhcp4, &Place::Key(&root, "Dhcp4"), server),
        None => Err(missing(alloc, &root, "Dhcp4")),
    }
}

/// Reads the settings that the value of `Dhcp4` describes.
///
/// # Errors
///
/// The first fault, object by object.
#[tactic(auto, unfolding(crate::specs::Settings::kea_dhcp4))]
pub fn settings_of(
    alloc: Global,
    value: &Value,
    at: &Place<'_>,
    server: Option<u32>,
) -> Result<Settings, SettingsFault>
    ensures { Means Memory result (kea_dhcp4 server (view value.now)) }
{
    check_form(alloc, value, at)?;
    let keys = keys_of(alloc, value, at, TermKeys::usual())?;
    let times = times_of(alloc, value, at, keys)?;
    let outside = flag_at(alloc, value, at, "reservations-out-of-pool")?;
    let policy = policy_of(alloc, value, at)?;
    let boot = boot_of(alloc, value, at)?;
    let known = known_definitions(alloc, value, at)?;
    let options = options_of(alloc, value, at, scope_of_all(known.as_slice()))?;
    let server = address_of(alloc, options.as_slice(), at, server)?;
    let above = Above {
        server,
        times,
        keys,
        by_class: is_lifetime_by_class(value),
        outside,
        kinds: kinds_of_server(value),
        bare: server_names_are_bare(value),
        policy,
        boot,
    };
    settings_of_lists(alloc, value, at, known.as_slice(), options, above)
}

/// Returns the server's address, by the options of the whole server.
///
/// # Errors
///
/// `Missing` with the path of option 54 if there is no address.
pub fn address_of(
    alloc: Global,
    options: &[OptionData],
    at: &Place<'_>,
    server: Option<u32>,
) -> Result<u32, SettingsFault>
    ensures { Means Memory result (server_address options.now server) }
{
    match address_among(options, server) {
        Some(address) => Ok(address),
        None => {
            let list = Place::Key(&*at, "option-data");
            Err(missing(alloc, &list, "dhcp-server-identifier"))
        }
    }
}

// Builds the settings of options and what holds for the whole server, with the lists in the value
// of `Dhcp4`, by these definitions of options.
#[tactic(auto, unfolding(crate::specs::Settings::kea_settings_with))]
fn settings_of_lists(
    alloc: Global,
    value: &Value,
    at: &Place<'_>,
    known: &[DefinedOption],
    options: OptionList,
    above: Above,
) -> Result<Settings, SettingsFault>
    ensures { Means Memory result (kea_settings_with known.now options above (view value.now)) }
{
    let classes = entries_of(
        alloc,
        value,
        at,
        "client-classes",
        256,
        &ClassReader { known },
    )?;
    let subnets = subnets_of(alloc, value, at, above, known)?;
    let options = without_server(alloc, options)?;
    let order = order_of(alloc, value)?;
    let knows = knows_clients(classes.as_slice(), subnets.as_slice());
    Ok(Settings {
        server: above.server,
        times: above.times,
        extensions: Extensions::of_kea(above.policy, knows, order),
        options,
        classes: with_known(alloc, knows, classes)?,
        subnets,
    })
}

// Checks that the value has the keys of `Dhcp4`, and that nothing in it is kept in another place.
#[tactic(auto, unfolding(crate::specs::Settings::has_server_form))]
fn check_form(alloc: Global, value: &Value, at: &Place<'_>) -> Result<(), SettingsFault>
    ensures { Means Memory result (has_server_form (view value.now)) }
{
    check_keys(alloc, value, at, ObjectKind::Server)?;
    check_off(
        alloc,
        value,
        at,
        "dhcp-ddns",
        "enable-updates",
        UsualValue::Flag(false),
    )?;
    check_off(
        alloc,
        value,
        at,
        "config-control",
        "config-databases",
        UsualValue::EmptyList,
    )?;
    check_identifiers(alloc, value, at)?;
    check_hooks(alloc, value, at)
}

// Checks that an object, if it is given, turns nothing on: one key of it is absent, or has its
// usual value.
fn check_off(
    alloc: Global,
    dhcp4: &Value,
    at: &Place<'_>,
    name: &'static str,
    key: &'static str,
    usual: UsualValue,
) -> Result<(), SettingsFault>
    ensures { Means Memory result
        (must (turns_nothing_on key.now (plain_of usual) (get name.now (view dhcp4.now)))) }
{
    let Some(object) = dhcp4.get(name) else {
        return Ok(());
    };
    if object.as_object().is_none() {
        return Err(bad_value(alloc, at, name));
    }
    check_usual(alloc, object, &Place::Key(&*at, name), key, usual)
}

/// Reports whether a value is an object that turns nothing on: one key of it is absent, or has its
/// usual value.
pub fn is_off(object: &Value, key: &str, usual: UsualValue) -> bool
    ensures { result ≡ turns_nothing_on key.now (plain_of usual) (Some (view object.now)) }
{
    object.as_object().is_some() && is_usual_at(object, key, usual)
}
