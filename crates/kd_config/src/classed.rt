ghost use Rattle.std.specs.Prelude.{◌≡◌};
ghost use Rattle.kd_config.specs.Classed.{classes_admit};

use kd_machine::Held;
use kd_wire::Bytes;

/// Reports whether a client in the classes with these names is in each class that a subnet, a pool or
/// a reservation requires.
pub fn admits(classes: &[Bytes], names: &Held) -> bool
    ensures { result ≡ classes_admit classes.now names.now }
{
    classes.iter().all(|class| names.contains(class.as_slice()))
}
