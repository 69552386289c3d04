ghost use Rattle.std.specs.Prelude.{codes};
ghost use Rattle.serde_json.specs.Find.{get};
ghost use Rattle.kd_keys.specs.Definitions.{kea_definitions};
ghost use Rattle.kd_keys.specs.HostName.{host_name};
ghost use Rattle.kd_keys.specs.Options.{kea_options};
ghost use Rattle.kd_keys.specs.Scope.{definitions_in};
ghost use Rattle.kd_kea.specs.Settings.{kea_dhcp4, kea_root};

use kd_classes::OptionList;
use kd_fields::faults::SettingsFault;
use kd_fields::lists::EntryReader;
use kd_fields::place::Place;
use kd_json::objects::settings::Settings;
use kd_kea::objects::settings::{root_of, settings_of};
use kd_keys::definition::{DefinedOption, definitions_of};
use kd_keys::host_name::name_of;
use kd_keys::options::options_of;
use kd_keys::scope::OptionScope;
use kd_wire::{Bytes, Entries};
use serde_json::Value;
use std::alloc::Global;

// Reads the value of a whole text, for a server with this address if no option has another.
#[derive(Clone, Copy)]
pub(crate) struct RootReader {
    pub(crate) address: Option<u32>,
}

impl EntryReader for RootReader {
    type Entry = Settings;

    ghost means = { λ reader. kea_root reader.address };

    fn read(
        &self,
        alloc: Global,
        root: &Value,
        _at: &Place<'_>,
    ) -> Result<Settings, SettingsFault> {
        root_of(alloc, root, self.address)
    }
}

// Reads the value of `Dhcp4`, for such a server.
#[derive(Clone, Copy)]
pub(crate) struct ServerReader {
    pub(crate) address: Option<u32>,
}

impl EntryReader for ServerReader {
    type Entry = Settings;

    ghost means = { λ reader. kea_dhcp4 reader.address };

    fn read(
        &self,
        alloc: Global,
        dhcp4: &Value,
        at: &Place<'_>,
    ) -> Result<Settings, SettingsFault> {
        settings_of(alloc, dhcp4, at, self.address)
    }
}

// Reads the options of an object.
#[derive(Clone, Copy)]
pub(crate) struct OptionListReader<'a> {
    pub(crate) scope: OptionScope<'a>,
}

impl<'a> EntryReader for OptionListReader<'a> {
    type Entry = OptionList;

    ghost means = { λ reader d. kea_options reader.scope.for_all (definitions_in reader.scope) (get (codes "option-data") d) };

    fn read(
        &self,
        alloc: Global,
        object: &Value,
        at: &Place<'_>,
    ) -> Result<OptionList, SettingsFault> {
        options_of(alloc, object, at, self.scope)
    }
}

// Reads the definitions of options of an object, which is a class or not.
#[derive(Clone, Copy)]
pub(crate) struct DefinitionListReader {
    pub(crate) in_class: bool,
}

impl EntryReader for DefinitionListReader {
    type Entry = Entries<DefinedOption>;

    ghost means = { λ reader d. kea_definitions reader.in_class (get (codes "option-def") d) };

    fn read(
        &self,
        alloc: Global,
        object: &Value,
        at: &Place<'_>,
    ) -> Result<Entries<DefinedOption>, SettingsFault> {
        definitions_of(alloc, object, at, self.in_class)
    }
}

// Reads the host name of a reservation.
#[derive(Clone, Copy)]
pub(crate) struct NameReader;

impl EntryReader for NameReader {
    type Entry = Option<Bytes>;

    ghost means = { λ reader d. host_name (get (codes "hostname") d) };

    fn read(
        &self,
        alloc: Global,
        host: &Value,
        at: &Place<'_>,
    ) -> Result<Option<Bytes>, SettingsFault> {
        name_of(alloc, host, at)
    }
}
