ghost use Rattle.std.specs.Prelude.{◌≡◌, ℕ, ◌<◌, ◌∷◌, [], MatchOption, false, length, true};
ghost use Rattle.kd_explain.specs.Gift.{class_among_gives, class_gives};

use crate::boot_origins::{BootField, gives};
use crate::origins::lists;
use kd_classes::{ClassDef, Classes};
use kd_machine::Held;

// What a class can give to its members.
#[derive(Clone, Copy)]
pub(crate) enum Gift {
    // The option with a code.
    Code(u8),
    // The value of a boot field.
    Field(BootField),
    // The lifetime of leases.
    Lifetime,
}

// Returns the index of the first class that gives it and of which the client is a member.
pub(crate) fn class_giving(classes: &Classes, names: &Held, gift: Gift) -> Option<usize>
    ensures { MatchOption result
        ((j : ℕ) → class_gives classes.now names.now gift j ≡ false)
        (λ i. (i < length classes.now) × (class_gives classes.now names.now gift i ≡ true)
        × ((j : ℕ) → j < i → class_gives classes.now names.now gift j ≡ false)) }
{
    for i in 0..classes.len() {
        match classes.def_at(i) {
            Some(class) => {
                if gives_to_members(class, names, gift) {
                    return Some(i);
                }
            }
            None => unreachable!(),
        }
    }
    None
}

// Reports whether the client is a member of the class and the class gives it.
fn gives_to_members(class: &ClassDef, names: &Held, gift: Gift) -> bool
    ensures { result ≡ class_among_gives gift (class.now ∷ []) names.now }
{
    let is_member = names.contains(class.name.as_slice());
    match gift {
        Gift::Code(code) => is_member && lists(class.options.as_slice(), code),
        Gift::Field(field) => is_member && gives(class.boot, field),
        Gift::Lifetime => is_member && class.lifetime.is_some(),
    }
}
