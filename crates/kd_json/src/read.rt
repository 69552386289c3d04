ghost use Rattle.std.specs.Prelude.{◌≡◌, ◌≢◌, IfErr, IfOk, true};
ghost use Rattle.kd_config.specs.Configuration.{Configuration};
ghost use Rattle.kd_config.specs.Rules.{may_stand};
ghost use Rattle.kd_json.specs.Configured.{IsConfigOf, IsConfigured};
ghost use Rattle.kd_json.specs.FirstFault.{IsFaultOfText};
ghost use Rattle.kd_json.specs.Sound.{AreSettings};
ghost use Rattle.kd_json.specs.declared.fault.ConfigFault.TheVariants.{Memory};
ghost use Rattle.kd_json.specs.declared.objects.faults.ClassesFault.TheVariants as classes;

use crate::fault::ConfigFault;
use crate::objects::definitions::classes_in;
use crate::objects::document::settings_in;
use crate::objects::faults::ClassesFault;
use crate::objects::settings::Settings;
use crate::token_file::TokenFile;
use kd_config::Config;
use std::alloc::Global;

/// Reads the configuration that a text describes: JSON in UTF-8 with the settings of the server.
/// The tests of its classes are texts or in token files. If several files have the same name, the
/// first is used.
///
/// # Errors
///
/// The first fault: `Json`; then, from the root down, `Missing`, `Unknown` or `BadValue`; then,
/// subnet by subnet, `PoolOutside`, `Overlap` or `DuplicateReservation`; then, class by class,
/// `Expression` or `Tokens`; then `Class`. `Memory` can replace any result.
pub fn read_config(alloc: Global, text: &[u8], files: &[TokenFile]) -> Result<Config, ConfigFault>
    ensures found { IfOk result (λ c. IsConfigured text.now files.now c) }
    ensures refused { IfErr result
        (λ fault. fault ≢ Memory → (c : Configuration) → IsConfigured text.now files.now c → ⊥) }
    ensures first { IfErr result (λ fault. IsFaultOfText text.now fault) }
{
    let settings = settings_in(alloc, text)?;
    Ok(config_of(alloc, settings, files)?)
}

/// Makes the configuration of settings that are accepted: it has their values, and programs of the
/// tests of their classes. If several files have the same name, the first is used.
///
/// # Errors
///
/// Class by class, `Expression` or `Tokens`; then `Class`. `Memory` can replace any result.
pub fn config_of(
    alloc: Global,
    settings: Settings,
    files: &[TokenFile],
) -> Result<Config, ClassesFault>
    requires sound { AreSettings settings }
    requires stands { may_stand settings.subnets ≡ true }
    ensures found { IfOk result (λ c. IsConfigOf settings files.now c) }
    ensures refused { IfErr result
        (λ fault. fault ≢ classes.Memory → (c : Configuration) → IsConfigOf settings files.now c
        → ⊥) }
{
    let Settings {
        server,
        times,
        extensions,
        options,
        classes,
        subnets,
    } = settings;
    let classes = classes_in(alloc, classes.into_vec(), files)?;
    Ok(Config::of(alloc, server, times, extensions, options, classes, subnets)?)
}
