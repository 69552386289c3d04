ghost use Rattle.std.specs.Prelude.{◌≡◌, ◌+◌, ◌^◌, ◌<◌, IsSome, ◌++◌, nat_eq, option_copied, option_map, slice_get, OnOk};
ghost use Rattle.kd_options.specs.Joined.{value_of};
ghost use Rattle.kd_options.specs.Joining.{bytes_of, entries_of, joined_into};

use indexmap::IndexMap;
use std::alloc::{AllocError, Global};

// An option's value: a slice of the datagram if it has one piece, or its own bytes if it has more.
#[derive(Drop)]
pub(crate) enum Value<'a> {
    Part(&'a [u8]),
    Joined(Vec<u8>),
}

impl<'a> Value<'a> {
    pub(crate) fn as_slice(&self) -> &[u8]
        ensures { result.now ≡ bytes_of self.now }
    {
        match self {
            Value::Part(part) => part,
            Value::Joined(content) => content.as_slice(),
        }
    }

    // Appends a piece.
    fn append(&mut self, alloc: Global, piece: &[u8]) -> Result<(), AllocError>
        ensures { OnOk result (bytes_of self.new ≡ bytes_of self.old ++ piece.now) }
    {
        match self {
            Value::Part(part) => {
                let mut content = Vec::from_slice(alloc, part)?;
                content.extend_from_slice(piece)?;
                *self = Value::Joined(content);
            }
            Value::Joined(content) => content.extend_from_slice(piece)?,
        }
        Ok(())
    }
}

// Joins a piece to the options so far (RFC 3396 section 7).
pub(crate) fn join<'a>(
    alloc: Global,
    options: &mut IndexMap<u8, Value<'a>>,
    code: u8,
    piece: &'a [u8],
) -> Result<(), AllocError>
    ensures { OnOk result (entries_of options.new.entries
        ≡ joined_into code piece.now (entries_of options.old.entries)) }
{
    match options.get_mut(&code) {
        Some(value) => value.append(alloc, piece)?,
        None => {
            options.insert(code, Value::Part(piece))?;
        }
    }
    Ok(())
}

// Returns the value of an option, if it is present.
pub(crate) fn value_in<'m>(options: &'m IndexMap<u8, Value<'_>>, code: u8) -> Option<&'m [u8]>
    ensures { option_copied result ≡ value_of code (entries_of options.now.entries) }
{
    match options.get(&code) {
        Some(value) => Some(value.as_slice()),
        None => None,
    }
}

// Returns the option at an index, in order of first appearance, if there is one.
pub(crate) fn entry_in<'m>(
    options: &'m IndexMap<u8, Value<'_>>,
    index: usize,
) -> Option<(u8, &'m [u8])>
    ensures value { option_map (λ p. (p.0, p.1.now)) result
        ≡ slice_get (entries_of options.now.entries) index }
    ensures within { IsSome result → index + 1 < 2 ^ 64 }
{
    let _count = options.len();
    match options.get_index(index) {
        Some((code, value)) => Some((*code, value.as_slice())),
        None => None,
    }
}
