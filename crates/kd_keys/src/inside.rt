ghost use Rattle.std.specs.Prelude.{◌≡◌, ◌++◌, IfOk, OnOk, codes};
ghost use Rattle.std.specs.List.{find, list_any};
ghost use Rattle.std.specs.Option.{option_copied};
ghost use Rattle.kd_keys.specs.Options.{inner_option, is_entry, is_of_space, option_with, options_below, options_by};

use crate::entry::{LONGEST_INNER, OptionEntry};
use crate::space::is_of_messages;
use kd_classes::{OptionData, OptionList};
use kd_wire::Bytes;
use std::alloc::{AllocError, Global};

// Returns the options of messages that entries describe.
pub(crate) fn options_among(
    alloc: Global,
    entries: &[OptionEntry],
) -> Result<OptionList, AllocError>
    ensures { IfOk result (λ options. options ≡ options_by entries.now) }
{
    let mut options = Vec::new(alloc);
    for entry in entries {
        if is_of_messages(entry.space.as_slice()) {
            options.push(option_of(alloc, entry, entries)?)?;
        }
    }
    Ok(OptionList::own(options))
}

// Returns the option of an entry: its own value, and then the options that it consists of.
fn option_of(
    alloc: Global,
    entry: &OptionEntry,
    entries: &[OptionEntry],
) -> Result<OptionData, AllocError>
    ensures { IfOk result (λ option. option ≡ option_with entries.now entry.now) }
{
    let mut value = Vec::from_slice(alloc, entry.value.as_slice())?;
    push_space(&mut value, entry.inner.as_slice(), entries)?;
    Ok(OptionData {
        code: entry.code,
        value: Bytes::own(value),
        always: entry.always,
    })
}

// Appends the options of a space, in rising order of their codes. Most lists have none of the space.
fn push_space(out: &mut Vec<u8>, space: &[u8], entries: &[OptionEntry]) -> Result<(), AllocError>
    ensures { OnOk result (out.new.items
        ≡ out.old.items ++ options_below entries.now space.now 255) }
{
    if has_space(entries, space) {
        push_inside(out, space, entries, u8::MAX)
    } else {
        Ok(())
    }
}

// Reports whether one of these entries is of a space.
pub(crate) fn has_space(entries: &[OptionEntry], space: &[u8]) -> bool
    ensures { result ≡ list_any (is_of_space space.now) entries.now }
{
    entries.iter().any(|entry| entry.space.as_slice() == space)
}

// Appends the options of a space that have a code below an end, in rising order of their codes.
fn push_inside(
    out: &mut Vec<u8>,
    space: &[u8],
    entries: &[OptionEntry],
    end: u8,
) -> Result<(), AllocError>
    ensures { OnOk result (out.new.items
        ≡ out.old.items ++ options_below entries.now space.now end) }
{
    for code in 0..end {
        push_option(out, entry_with(entries, space, code))?;
    }
    Ok(())
}

// Returns the entry of a space with a code.
fn entry_with<'a>(entries: &'a [OptionEntry], space: &[u8], code: u8) -> Option<&'a OptionEntry>
    ensures { option_copied result ≡ find (is_entry space.now code) entries.now }
{
    entries.iter().find(|entry| entry.space.as_slice() == space && entry.code == code)
}

// Appends an option, if there is one: its code, its length and its value, if the length is one byte.
fn push_option(out: &mut Vec<u8>, entry: Option<&OptionEntry>) -> Result<(), AllocError>
    ensures { OnOk result
        (out.new.items ≡ out.old.items ++ inner_option (option_copied entry.entry)) }
{
    let Some(entry) = entry else {
        return Ok(());
    };
    let value = entry.value.as_slice();
    if value.len() <= LONGEST_INNER {
        out.push(entry.code)?;
        out.push(value.len() as u8)?;
        out.extend_from_slice(value)?;
    }
    Ok(())
}
