ghost use Rattle.std.specs.Prelude.{◌^◌, ◌<◌, IfOk, List, ℕ};
ghost use Rattle.kd_lease.specs.Change.{Decides};
ghost use Rattle.kd_lease.specs.Decided.{outcome_in};
ghost use Rattle.kd_lease.specs.Membership.{InClasses};

use kd_config::Config;
use kd_lease::{Decision, Ground, Rows, classes_held, decide};
use kd_options::Message;
use std::alloc::{AllocError, Global};

/// Decides what a message gets, by the classes that it is in.
pub fn decision(
    alloc: Global,
    config: &Config,
    rows: &Rows,
    message: &Message<'_>,
    moment: u64,
) -> Result<Decision, AllocError>
    requires { moment < 2 ^ 40 }
    ensures { IfOk result (λ it. (names : List (List ℕ))
        × InClasses config.now rows.now.rows message.now moment names
        × Decides config.now rows.now.rows names message.now moment it.row
        (outcome_in it.answer)) }
{
    let names = classes_held(alloc, Ground::of(config, rows), message, moment)?;
    decide(alloc, config, rows, message, &names, moment)
}
