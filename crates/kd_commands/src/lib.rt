//! The command line: the arguments after the program's name, and what they ask for.
//!
//! What this layer promises to the one above: `order` returns the order of every line that is one
//! (`specs/Line.antt` says which in plain words, and `specs/Order.antt` over what `clap` makes of
//! the arguments); it returns help if the arguments ask for it, and a fault if they are neither. In
//! each case memory may run out instead.
#![tactic(auto)]

mod address;
mod argument;
mod fault;
mod hardware;
mod line;
mod number;
mod orders;
mod words;

pub use fault::LineFault;
pub use orders::{Files, Form, Listening, Order, Place, Service, View, Work};
pub use words::order;
