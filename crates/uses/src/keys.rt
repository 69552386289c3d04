ghost use Rattle.serde_json.specs.View.{view};
ghost use Rattle.kd_fields.specs.Gives.{Means};
ghost use Rattle.kd_fields.specs.Steps.{must};
ghost use Rattle.kd_fields.specs.declared.faults.SettingsFault.TheVariants.{Memory};
ghost use Rattle.kd_keys.specs.Keys.{keys_are_read};
ghost use Rattle.kd_keys.specs.Tables.{pool_keys};

use kd_fields::faults::SettingsFault;
use kd_fields::place::Place;
use kd_keys::checking::check_keys;
use kd_keys::tables::ObjectKind;
use serde_json::Value;
use std::alloc::Global;

/// Checks that each key of a pool of Kea's may be there, with its value.
pub fn check_pool(alloc: Global, pool: &Value) -> Result<(), SettingsFault>
    ensures { Means Memory result (must (keys_are_read pool_keys (view pool.now))) }
{
    check_keys(alloc, pool, &Place::Root, ObjectKind::Pool)
}
