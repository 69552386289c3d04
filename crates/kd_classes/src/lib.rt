//! Client classes: definitions in order, and the names of the classes that a message is in (Kea
//! Administrator Reference Manual, chapter Client Classification).
//!
//! What this layer promises to the one above: `Classes::new` accepts definitions exactly when there
//! are at most 256, each has a name of its own, and each asks only for names that are known at that
//! point; otherwise it returns the first fault (`specs/Order.antt`). `Classes::held` returns the
//! names that a message holds after all definitions, each tested over the names held before it
//! (`specs/HeldSet.antt`). `laws` says that definitions in order have no fault, that others have at
//! most one first fault, and that every message has one list of names.
#![tactic(auto)]

mod boot;
mod classes;
mod definition;
mod fault;
pub mod laws;
mod lifetime;
mod option_list;
mod order;

pub use boot::{Boot, BootList};
pub use classes::Classes;
pub use definition::ClassDef;
pub use fault::ClassFault;
pub use lifetime::Lifetime;
pub use option_list::{OptionData, OptionList};
pub use order::is_built_in;
