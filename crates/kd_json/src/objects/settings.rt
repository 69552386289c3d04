ghost use Rattle.std.specs.Prelude.{◌≡◌};
ghost use Rattle.serde_json.specs.View.{view};
ghost use Rattle.kd_fields.specs.Gives.{Means};
ghost use Rattle.kd_json.specs.Settings.{has_dhcp4_keys, has_root_keys, whole_settings, server_given, dhcp4_settings, settings_with};
ghost use Rattle.kd_fields.specs.Steps.{must};
ghost use Rattle.kd_fields.specs.declared.faults.SettingsFault.TheVariants.{Memory};

use crate::objects::class::{ClassEntry, ClassReader};
use crate::objects::options::options_of;
use crate::objects::subnet::SubnetReader;
use crate::objects::times::times_of;
use kd_classes::OptionList;
use kd_config::{Extensions, Subnet, Times};
use kd_fields::faults::SettingsFault;
use kd_fields::lists::entries_of;
use kd_fields::place::{Place, bad_value, missing};
use kd_fields::values::{address_in, check_keys};
use kd_wire::Entries;
use serde_json::Value;
use std::alloc::Global;

/// The settings of a configuration as the text gives them: the tests of classes are not read.
#[derive(Drop)]
pub struct Settings {
    /// The address of the server, in host order; not 0.
    pub server: u32,
    /// The lease and offer times, in seconds.
    pub times: Times,
    /// The extensions of the rules.
    pub extensions: Extensions,
    /// The options of all replies.
    pub options: OptionList,
    /// The classes.
    pub classes: Entries<ClassEntry>,
    /// The subnets.
    pub subnets: Entries<Subnet>,
}

// Reads the settings that the JSON value of a whole text describes.
#[tactic(auto, unfolding(crate::specs::Settings::whole_settings))]
pub(crate) fn root_of(alloc: Global, value: &Value) -> Result<Settings, SettingsFault>
    ensures { Means Memory result (whole_settings (view value.now)) }
{
    let root = Place::Root;
    check_root(alloc, value, &root)?;
    match value.get("Dhcp4") {
        Some(dhcp4) => settings_of(alloc, dhcp4, &Place::Key(&root, "Dhcp4")),
        None => Err(missing(alloc, &root, "Dhcp4")),
    }
}

// Reads the settings that the value of `Dhcp4` describes.
#[tactic(auto, unfolding(crate::specs::Settings::dhcp4_settings))]
fn settings_of(alloc: Global, value: &Value, at: &Place<'_>) -> Result<Settings, SettingsFault>
    ensures { Means Memory result (dhcp4_settings (view value.now)) }
{
    check_dhcp4(alloc, value, at)?;
    let Some(server) = value.get("server-address").and_then(server_in) else {
        return Err(bad_value(alloc, at, "server-address"));
    };
    let times = times_of(alloc, value, at)?;
    settings_of_lists(alloc, value, at, server, times)
}

// Builds the settings of a server and times with the lists in the value of `Dhcp4`.
#[tactic(auto, unfolding(crate::specs::Settings::settings_with))]
fn settings_of_lists(
    alloc: Global,
    value: &Value,
    at: &Place<'_>,
    server: u32,
    times: Times,
) -> Result<Settings, SettingsFault>
    ensures { Means Memory result (settings_with server times (view value.now)) }
{
    let options = options_of(alloc, value, at)?;
    let classes = entries_of(alloc, value, at, "client-classes", 256, &ClassReader)?;
    let subnets = entries_of(alloc, value, at, "subnet4", 256, &SubnetReader)?;
    Ok(Settings {
        server,
        times,
        extensions: Extensions::none(alloc),
        options,
        classes,
        subnets,
    })
}

// Checks that the value is an object with the key `Dhcp4` and no other.
#[tactic(auto, unfolding(crate::specs::Settings::has_root_keys))]
fn check_root(alloc: Global, value: &Value, at: &Place<'_>) -> Result<(), SettingsFault>
    ensures { Means Memory result (must (has_root_keys (view value.now))) }
{
    check_keys(alloc, value, at, &["Dhcp4"], &["Dhcp4"])
}

// Checks that the value is an object with the keys of `Dhcp4`.
#[tactic(auto, unfolding(crate::specs::Settings::has_dhcp4_keys))]
fn check_dhcp4(alloc: Global, value: &Value, at: &Place<'_>) -> Result<(), SettingsFault>
    ensures { Means Memory result (must (has_dhcp4_keys (view value.now))) }
{
    let known = [
        "server-address",
        "valid-lifetime",
        "renew-timer",
        "rebind-timer",
        "offer-hold",
        "decline-hold",
        "option-data",
        "client-classes",
        "subnet4",
    ];
    check_keys(alloc, value, at, &known, &["server-address"])
}

// Returns the address of the server, which must not be 0.0.0.0.
#[tactic(auto, unfolding(crate::specs::Settings::server_given))]
fn server_in(value: &Value) -> Option<u32>
    ensures { result ≡ server_given (view value.now) }
{
    let address = address_in(value)?;
    if address == 0 { None } else { Some(address) }
}
