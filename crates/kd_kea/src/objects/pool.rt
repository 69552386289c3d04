ghost use Rattle.std.specs.Prelude.{◌≡◌, codes, is_some, option_and_then};
ghost use Rattle.serde_json.specs.Find.{get};
ghost use Rattle.serde_json.specs.View.{view};
ghost use Rattle.kd_kea.specs.Pool.{kea_pool, kea_range};

use kd_config::{Pool, Range, classes_of};
use kd_fields::faults::SettingsFault;
use kd_fields::lists::EntryReader;
use kd_fields::place::{Place, bad_value, missing};
use kd_fields::values::text_or_none;
use kd_json::objects::pool::addresses_in;
use kd_keys::checking::check_keys;
use kd_keys::definition::DefinedOption;
use kd_keys::flags::non_empty;
use kd_keys::options::options_of;
use kd_keys::scope::part_scope;
use kd_keys::tables::ObjectKind;
use serde_json::Value;
use std::alloc::Global;

// The most addresses of a pool: 64 times those of a pool of a configuration.
const MOST_ADDRESSES: u32 = 4_194_304;

/// Reads pools.
#[derive(Clone, Copy)]
pub struct PoolReader<'a> {
    /// The definitions of options.
    pub known: &'a [DefinedOption],
}

impl<'a> EntryReader for PoolReader<'a> {
    type Entry = Pool;

    ghost means = { λ reader. kea_pool reader.known.now };

    #[tactic(auto, unfolding(crate::specs::Pool::kea_pool))]
    fn read(&self, alloc: Global, value: &Value, at: &Place<'_>) -> Result<Pool, SettingsFault> {
        check_keys(alloc, value, at, ObjectKind::Pool)?;
        let Some(text) = value.get("pool") else {
            return Err(missing(alloc, at, "pool"));
        };
        let Some(range) = range_in(text) else {
            return Err(bad_value(alloc, at, "pool"));
        };
        let class = text_or_none(alloc, value, at, "client-class")?;
        let options = options_of(alloc, value, at, part_scope(self.known))?;
        let classes = classes_of(alloc, non_empty(class))?;
        Ok(Pool {
            range,
            classes,
            options,
        })
    }
}

// Returns the addresses of a pool.
#[tactic(auto, unfolding(crate::specs::Pool::kea_range))]
fn range_in(value: &Value) -> Option<Range>
    ensures { result ≡ kea_range (view value.now) }
{
    let range = addresses_in(value)?;
    if range.last - range.first < MOST_ADDRESSES {
        Some(range)
    } else {
        None
    }
}

/// Reports whether a pool has a range.
pub fn has_range(pool: &Value) -> bool
    ensures { result ≡ is_some (option_and_then kea_range (get (codes "pool") (view pool.now))) }
{
    match pool.get("pool") {
        Some(text) => range_in(text).is_some(),
        None => false,
    }
}
