ghost use Rattle.std.specs.Prelude.{IfOk};
ghost use Rattle.hex.specs.Hex.{decode_of};
ghost use Rattle.kd_answers.specs.Printed.{ShowsDatagram, ShowsDecoded};

use crate::printed::{Printed, success};
use crate::refusal::{mistake, refused_datagram};
use crate::show::show;
use hex::FromHexError;
use kd_options::Message;
use std::alloc::{AllocError, Global};

// Returns the lines of the datagram in an argument, with or without the names of its options.
pub(crate) fn answer_show(alloc: Global, word: &str, names: bool) -> Result<Printed, AllocError>
    ensures { IfOk result (ShowsDecoded names (decode_of word.now)) }
{
    match hex::decode(alloc, word) {
        Ok(bytes) => show_datagram(alloc, bytes.as_slice(), names),
        Err(FromHexError::OutOfMemory) => Err(AllocError),
        Err(_) => mistake(alloc),
    }
}

// Returns the lines of a datagram, or its first fault.
fn show_datagram(alloc: Global, bytes: &[u8], names: bool) -> Result<Printed, AllocError>
    ensures { IfOk result (ShowsDatagram names bytes.now) }
{
    match Message::read(alloc, bytes) {
        Ok(message) => Ok(success(alloc, show(alloc, &message, names)?)),
        Err(fault) => refused_datagram(alloc, fault),
    }
}
