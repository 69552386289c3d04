ghost use Rattle.std.specs.Prelude.{◌≡◌, ◌≢◌, IfErr, IfOk, [], true};
ghost use Rattle.kd_config.specs.Configuration.{Configuration};
ghost use Rattle.kd_config.specs.Rules.{may_stand};
ghost use Rattle.kd_json.specs.Configured.{IsConfigOf};
ghost use Rattle.kd_json.specs.Sound.{AreSettings};
ghost use Rattle.kd_json.specs.declared.fault.ConfigFault.TheVariants.{Memory};
ghost use Rattle.kd_json.specs.declared.objects.faults.ClassesFault.TheVariants as classes;
ghost use Rattle.kd_kea.specs.Kea.{IsFaultOfKea, IsKea};

use crate::objects::document::settings_in;
use kd_classes::ClassFault;
use kd_config::Config;
use kd_json::objects::faults::ClassesFault;
use kd_json::objects::settings::Settings;
use kd_json::{ConfigFault, config_of};
use std::alloc::Global;

/// Reads the configuration that a text of ISC Kea's DHCPv4 server describes: JSON in UTF-8, with
/// comments. `server` is the server's address in host order, not 0; it is used if the text has no
/// option `dhcp-server-identifier` (54) for all clients.
///
/// # Errors
///
/// The first fault: `Json`; then, from the root down, `Missing`, `Unknown` or `BadValue`; then,
/// subnet by subnet, `PoolOutside`, `Overlap` or `DuplicateReservation`; then, class by class,
/// `Expression`; then `Class`. A key that kdhcp does not serve, or not with its value, is
/// `Unknown`. `Memory` can replace any result.
pub fn read_kea(alloc: Global, text: &[u8], server: Option<u32>) -> Result<Config, ConfigFault>
    ensures found { IfOk result (λ c. IsKea text.now server c) }
    ensures refused { IfErr result
        (λ fault. fault ≢ Memory → (c : Configuration) → IsKea text.now server c → ⊥) }
    ensures first { IfErr result (λ fault. IsFaultOfKea text.now server fault) }
{
    let settings = settings_in(alloc, text, server)?;
    Ok(config_with(alloc, settings)?)
}

// Makes the configuration of settings that are accepted. A fault has the index that its class has in
// the file, before whose classes some may have been added.
fn config_with(alloc: Global, settings: Settings) -> Result<Config, ClassesFault>
    requires sound { AreSettings settings }
    requires stands { may_stand settings.subnets ≡ true }
    ensures found { IfOk result (λ c. IsConfigOf settings [] c) }
    ensures refused { IfErr result
        (λ fault. fault ≢ classes.Memory → (c : Configuration) → IsConfigOf settings [] c → ⊥) }
{
    let added = added_classes(&settings);
    match config_of(alloc, settings, &[]) {
        Ok(config) => Ok(config),
        Err(fault) => Err(counted_in_file(fault, added)),
    }
}

// Returns how many classes stand before those of the file.
fn added_classes(settings: &Settings) -> usize {
    if settings.extensions.knows_clients {
        2
    } else {
        0
    }
}

// Returns a fault with the index that its class has in the file, before which some were added.
fn counted_in_file(fault: ClassesFault, added: usize) -> ClassesFault
    ensures { result ≢ classes.Memory → fault ≢ classes.Memory }
{
    match fault {
        ClassesFault::Expression(index, why) => {
            ClassesFault::Expression(index.saturating_sub(added), why)
        }
        ClassesFault::Class(why) => ClassesFault::Class(counted_class(why, added)),
        other => other,
    }
}

// Returns the same for a fault of the classes together.
fn counted_class(fault: ClassFault, added: usize) -> ClassFault {
    match fault {
        ClassFault::Duplicate(index) => ClassFault::Duplicate(index.saturating_sub(added)),
        ClassFault::UnknownMember(index) => ClassFault::UnknownMember(index.saturating_sub(added)),
        ClassFault::TooMany => ClassFault::TooMany,
    }
}
