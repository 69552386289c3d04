ghost use Rattle.std.specs.Prelude.{IfOk, string_bytes, true};
ghost use Rattle.hex.specs.Hex.{decode_of};
ghost use Rattle.kd_answers.specs.Printed.{ShowsDecoded};

use kd_answers::{Printed, answer};
use kd_commands::Order;
use std::alloc::{AllocError, Global};

/// Returns what `kdhcp show --names` prints for a datagram in hexadecimal.
pub fn show_datagram(alloc: Global, hex: String) -> Result<Printed, AllocError>
    ensures { IfOk result (ShowsDecoded true (decode_of (string_bytes hex))) }
{
    let order = Order::Show { hex, names: true };
    answer(alloc, &order)
}
