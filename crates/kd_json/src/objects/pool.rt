ghost use Rattle.std.specs.Prelude.{◌≡◌, ◌≤◌, IfSome};
ghost use Rattle.serde_json.specs.View.{view};
ghost use Rattle.kd_fields.specs.Gives.{Means};
ghost use Rattle.kd_json.specs.Pool.{has_pool_keys, pool_addresses, pool_of, pool_range};
ghost use Rattle.kd_fields.specs.Steps.{must};
ghost use Rattle.kd_fields.specs.declared.faults.SettingsFault.TheVariants.{Memory};

use crate::objects::options::options_of;
use crate::text::range::range_of;
use kd_config::{Pool, Range};
use kd_fields::faults::SettingsFault;
use kd_fields::lists::EntryReader;
use kd_fields::place::{Place, bad_value};
use kd_fields::values::check_keys;
use kd_wire::Entries;
use serde_json::Value;
use std::alloc::Global;

// Reads pools.
pub(crate) struct PoolReader;

impl EntryReader for PoolReader {
    type Entry = Pool;

    ghost means = { λ _. pool_of };

    #[tactic(auto, unfolding(crate::specs::Pool::pool_of))]
    fn read(&self, alloc: Global, value: &Value, at: &Place<'_>) -> Result<Pool, SettingsFault> {
        check_pool(alloc, value, at)?;
        let Some(range) = value.get("pool").and_then(range_in) else {
            return Err(bad_value(alloc, at, "pool"));
        };
        let options = options_of(alloc, value, at)?;
        Ok(Pool {
            range,
            classes: Entries::own(Vec::new(alloc)),
            options,
        })
    }
}

// Checks that the value is an object with the keys of a pool.
#[tactic(auto, unfolding(crate::specs::Pool::has_pool_keys))]
fn check_pool(alloc: Global, value: &Value, at: &Place<'_>) -> Result<(), SettingsFault>
    ensures { Means Memory result (must (has_pool_keys (view value.now))) }
{
    check_keys(alloc, value, at, &["pool", "option-data"], &["pool"])
}

/// Returns the addresses of a pool: at least 1, at most 65,536.
#[tactic(auto, unfolding(crate::specs::Pool::pool_range))]
pub fn range_in(value: &Value) -> Option<Range>
    ensures { result ≡ pool_range (view value.now) }
{
    let range = addresses_in(value)?;
    if range.last - range.first < 65_536 {
        Some(range)
    } else {
        None
    }
}

/// Returns the addresses of a pool: at least 1.
#[tactic(auto, unfolding(crate::specs::Pool::pool_addresses))]
pub fn addresses_in(value: &Value) -> Option<Range>
    ensures rise { IfSome result (λ range. range.first ≤ range.last) }
    ensures read { result ≡ pool_addresses (view value.now) }
{
    range_of(value.as_str()?.as_bytes())
}
