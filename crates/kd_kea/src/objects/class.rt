ghost use Rattle.std.specs.Prelude.{◌≡◌, IfOk, codes, is_some, option_and_then, option_map};
ghost use Rattle.serde_json.specs.Find.{get};
ghost use Rattle.serde_json.specs.View.{view};
ghost use Rattle.kd_fields.specs.Gives.{Means};
ghost use Rattle.kd_fields.specs.declared.faults.SettingsFault.TheVariants.{Memory};
ghost use Rattle.kd_kea.specs.Class.{kea_class_options, kea_class, own_class_name, source_by};

use crate::objects::lifetimes::class_lifetime_of;
use crate::objects::option_text::asked_in_bytes;
use kd_classes::OptionList;
use kd_fields::faults::SettingsFault;
use kd_fields::lists::EntryReader;
use kd_fields::place::{Place, bad_value, missing};
use kd_fields::values::{name_in, own_bytes, text_or_none};
use kd_json::objects::class::{ClassEntry, TestSource};
use kd_keys::boot::own_boot_of;
use kd_keys::checking::check_keys;
use kd_keys::class_names::is_known_or_unknown;
use kd_keys::definition::{DefinedOption, definitions_of};
use kd_keys::flags::non_empty;
use kd_keys::options::options_of;
use kd_keys::scope::OptionScope;
use kd_keys::tables::ObjectKind;
use kd_wire::Bytes;
use serde_json::Value;
use std::alloc::{AllocError, Global};

/// Reads classes.
#[derive(Clone, Copy)]
pub struct ClassReader<'a> {
    /// The definitions of options of the whole server.
    pub known: &'a [DefinedOption],
}

impl<'a> EntryReader for ClassReader<'a> {
    type Entry = ClassEntry;

    ghost means = { λ reader. kea_class reader.known.now };

    #[tactic(auto, unfolding(crate::specs::Class::kea_class))]
    fn read(
        &self,
        alloc: Global,
        value: &Value,
        at: &Place<'_>,
    ) -> Result<ClassEntry, SettingsFault> {
        check_keys(alloc, value, at, ObjectKind::Class)?;
        let Some(name) = value.get("name") else {
            return Err(missing(alloc, at, "name"));
        };
        let name = match own_name_in(name) {
            Some(name) => own_bytes(alloc, name)?,
            None => return Err(bad_value(alloc, at, "name")),
        };
        let text = text_or_none(alloc, value, at, "test")?;
        let options = options_of_class(alloc, value, at, self.known)?;
        let boot = own_boot_of(alloc, value, at)?;
        let lifetime = class_lifetime_of(alloc, value, at)?;
        Ok(ClassEntry {
            name,
            source: source_of(alloc, non_empty(text))?,
            options,
            boot,
            lifetime,
        })
    }
}

// Returns the name of a class of the file's own: 1 to 255 bytes, and not one of the two that say
// whether a client has a reservation.
#[tactic(auto, unfolding(crate::specs::Class::own_class_name))]
fn own_name_in(value: &Value) -> Option<&[u8]>
    ensures { option_map (λ name. name.now) result ≡ own_class_name (view value.now) }
{
    let name = name_in(value)?;
    if is_known_or_unknown(name) {
        None
    } else {
        Some(name)
    }
}

/// Reports whether a class has a name, which is not one of the two that say whether a client has a
/// reservation.
pub fn has_class_name(class: &Value) -> bool
    ensures { result
        ≡ is_some (option_and_then own_class_name (get (codes "name") (view class.now))) }
{
    let Some(name) = class.get("name") else {
        return false;
    };
    match own_name_in(name) {
        Some(_) => true,
        None => false,
    }
}

// Reads the options of a class, by its own definitions and those of the whole server.
#[tactic(auto, unfolding(crate::specs::Class::kea_class_options))]
fn options_of_class(
    alloc: Global,
    class: &Value,
    at: &Place<'_>,
    known: &[DefinedOption],
) -> Result<OptionList, SettingsFault>
    ensures { Means Memory result (kea_class_options known.now (view class.now)) }
{
    let own = definitions_of(alloc, class, at, true)?;
    let scope = OptionScope {
        for_all: false,
        own: own.as_slice(),
        shared: known,
    };
    options_of(alloc, class, at, scope)
}

// The test of a class that has this text, if it has one.
fn source_of(alloc: Global, text: Option<Bytes>) -> Result<TestSource, AllocError>
    ensures { IfOk result (λ source. source ≡ source_by text) }
{
    match text {
        Some(text) => Ok(TestSource::Expression(asked_in_bytes(alloc, text.as_slice())?)),
        None => Ok(TestSource::Nothing),
    }
}
