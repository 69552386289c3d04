ghost use Rattle.std.specs.Prelude.{Option};
ghost use Rattle.serde_json.specs.Data.{Data};
ghost use Rattle.serde_json.specs.Find.{get};
ghost use Rattle.serde_json.specs.View.{items_view, view};
ghost use Rattle.kd_fields.specs.Gives.{Means, GivesAs};
ghost use Rattle.kd_fields.specs.Lists.{all_of, items_or_none, list_of};
ghost use Rattle.kd_fields.specs.declared.faults.SettingsFault.TheVariants.{Memory};

use crate::faults::SettingsFault;
use crate::place::{Place, bad_value};
use kd_wire::Entries;
use serde_json::Value;
use std::alloc::Global;

/// Returns the values of a list at a key, at most `most` of them; none if the key is absent.
///
/// # Errors
///
/// `BadValue` with the key's path for another value, and for a longer list.
#[tactic(auto, using(crate::proofs::Left::len_is))]
pub fn list_at<'a>(
    alloc: Global,
    object: &'a Value,
    at: &Place<'_>,
    key: &'static str,
    most: usize,
) -> Result<&'a [Value], SettingsFault>
    ensures { GivesAs Memory (λ values. items_view values.now) result
        (items_or_none most (get key.now (view object.now))) }
{
    let Some(value) = object.get(key) else {
        return Ok(&[]);
    };
    match value.as_array() {
        Some(list) if list.len() <= most => Ok(list.as_slice()),
        _ => Err(bad_value(alloc, at, key)),
    }
}

/// Reads each value of a list on its own.
pub trait EntryReader {
    /// What a value is read as.
    type Entry: Drop;

    /// What a value describes.
    ghost means: { Self → Data → Option Self.Entry };

    /// Reads the entry that a value describes.
    ///
    /// # Errors
    ///
    /// The first fault of the value at this place, if it describes no entry.
    fn read(
        &self,
        alloc: Global,
        value: &Value,
        at: &Place<'_>,
    ) -> Result<Self::Entry, SettingsFault>
        ensures { Means Memory result (means self.now (view value.now)) };
}

/// Reads the entries of a list at a key, at most `most` of them; none if the key is absent.
///
/// # Errors
///
/// `BadValue` with the key's path for another value, and for a longer list; else the first fault of
/// an entry.
#[tactic(auto, unfolding(crate::specs::Lists::list_of))]
pub fn entries_of<R: EntryReader>(
    alloc: Global,
    object: &Value,
    at: &Place<'_>,
    key: &'static str,
    most: usize,
    reader: &R,
) -> Result<Entries<R::Entry>, SettingsFault>
    ensures { Means Memory result
        (list_of most (R.means reader.now) (get key.now (view object.now))) }
{
    let values = list_at(alloc, object, at, key, most)?;
    entries_in(alloc, values, &Place::Key(&*at, key), reader)
}

// Reads the entries that values describe, in order.
fn entries_in<R: EntryReader>(
    alloc: Global,
    values: &[Value],
    at: &Place<'_>,
    reader: &R,
) -> Result<Entries<R::Entry>, SettingsFault>
    ensures { Means Memory result (all_of (R.means reader.now) (items_view values.now)) }
{
    let mut list = Vec::new(alloc);
    for i in 0..values.len() {
        let entry = reader.read(alloc, &values[i], &Place::Item(&*at, i))?;
        list.push(entry)?;
    }
    Ok(Entries::own(list))
}
