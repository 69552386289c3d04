ghost use Rattle.std.specs.Prelude.{◌≡◌, map, string_bytes, true};
ghost use Rattle.kd_commands.specs.Order.{IsVersion};

use kd_commands::{Order, order};
use std::alloc::Global;

/// Returns whether the arguments of a command line ask for the version.
pub fn asks_for_version(alloc: Global, words: &[String]) -> bool
    ensures { result ≡ true → IsVersion (map string_bytes words.now) }
{
    match order(alloc, words) {
        Ok(Order::Version) => true,
        _ => false,
    }
}
