ghost use Rattle.std.specs.Prelude.{◌≡◌, [], IfOk};
ghost use Rattle.kd_config.specs.Configuration.{builtin_config, builtin_pool, subnet_built_in, times_built_in};

use crate::config::Config;
use crate::extensions::Extensions;
use crate::pool::Pool;
use crate::prefix::Prefix;
use crate::range::Range;
use crate::reservations::Reservations;
use crate::subnet::Subnet;
use crate::times::Times;
use kd_classes::{Boot, Classes, OptionList};
use kd_wire::Entries;
use std::alloc::{AllocError, Global};

impl Config {
    /// Returns the built-in configuration: the server is 192.0.2.1, its only subnet is 192.0.2.0/24
    /// with the pool 192.0.2.10 - 192.0.2.11, and a lease lasts an hour.
    ///
    /// # Errors
    ///
    /// Out of memory.
    #[tactic(auto, using(crate::proofs::SoundBuiltin::builtin_sound))]
    pub fn builtin(alloc: Global) -> Result<Config, AllocError>
        ensures { IfOk result (λ config. config ≡ builtin_config) }
    {
        let mut subnets = Vec::new(alloc);
        subnets.push(builtin_subnet(alloc)?)?;
        Config::of(
            alloc,
            0xc000_0201,
            builtin_times(),
            Extensions::none(alloc),
            OptionList::own(Vec::new(alloc)),
            no_classes(alloc),
            Entries::own(subnets),
        )
    }
}

// Returns the times of the built-in configuration.
fn builtin_times() -> Times
    ensures { result ≡ times_built_in }
{
    Times {
        lifetime: 3600,
        renew: 1800,
        rebind: 3150,
        offer_hold: 60,
        decline_hold: 600,
    }
}

// Builds the subnet of the built-in configuration.
fn builtin_subnet(alloc: Global) -> Result<Subnet, AllocError>
    ensures { IfOk result (λ subnet. subnet ≡ subnet_built_in) }
{
    let mut pools = Vec::new(alloc);
    pools.push(only_pool(alloc))?;
    Ok(Subnet {
        prefix: Prefix {
            address: 0xc000_0200,
            length: 24,
        },
        relays: Entries::own(Vec::new(alloc)),
        classes: Entries::own(Vec::new(alloc)),
        pools: Entries::own(pools),
        reservations: Reservations::none(alloc),
        options: OptionList::own(Vec::new(alloc)),
        network: 0,
        shared: OptionList::own(Vec::new(alloc)),
        boot: Boot::none(),
        term: None,
    })
}

// Makes the pool of the built-in configuration.
fn only_pool(alloc: Global) -> Pool
    ensures { result ≡ builtin_pool }
{
    Pool {
        range: Range {
            first: 0xc000_020a,
            last: 0xc000_020b,
        },
        classes: Entries::own(Vec::new(alloc)),
        options: OptionList::own(Vec::new(alloc)),
    }
}

// Returns an empty list of classes.
#[tactic(auto, using(crate::proofs::NoClasses::none_in_order))]
fn no_classes(alloc: Global) -> Classes
    ensures { result ≡ [] }
{
    match Classes::new(Vec::new(alloc)) {
        Ok(classes) => classes,
        Err(_) => unreachable!(),
    }
}
