ghost use Rattle.std.specs.Prelude.{◌≡◌, ◌++◌, IfOk, OnOk, is_some};
ghost use Rattle.serde_json.specs.Find.{get};
ghost use Rattle.serde_json.specs.View.{items_view, view};
ghost use Rattle.kd_fields.specs.Lists.{items_or_none};
ghost use Rattle.kd_notes.specs.Notes.{ObjectNotes, item_notes, listed_notes, note_unless, notes_at, notes_of_each, or_wrong};

use crate::list::NoteList;
use crate::notes::NoteKind;
use kd_fields::faults::SettingsFault;
use kd_fields::lists::{EntryReader, list_at};
use kd_fields::place::Place;
use kd_keys::alone::read_alone;
use serde_json::Value;
use std::alloc::{AllocError, Global};

// A kind of value that is noted.
pub(crate) trait NotedObject: Copy {
    // What is noted of a value at a path.
    ghost noted: { Self → ObjectNotes };

    // Notes a value at a path, and what is in it.
    fn note(self, notes: &mut NoteList, object: &Value, path: &str) -> Result<(), AllocError>
        ensures { OnOk result (notes.new ≡ notes.old ++ noted self path.now (view object.now)) };
}

// Notes the value at a key of the object at a path.
pub(crate) fn note_value<K: NotedObject>(
    notes: &mut NoteList,
    object: &Value,
    path: &str,
    key: &'static str,
    kind: K,
) -> Result<(), AllocError>
    ensures { OnOk result (notes.new
        ≡ notes.old ++ notes_at (K.noted kind) path.now key.now (view object.now)) }
{
    let Some(value) = object.get(key) else {
        return Ok(());
    };
    let path = notes.path_of_key(path, key)?;
    kind.note(notes, value, &path)
}

// Notes each item of the list at a key of the object at a path.
pub(crate) fn note_each<K: NotedObject>(
    notes: &mut NoteList,
    object: &Value,
    path: &str,
    key: &'static str,
    kind: K,
) -> Result<(), AllocError>
    ensures { OnOk result (notes.new
        ≡ notes.old ++ notes_of_each (K.noted kind) path.now key.now (view object.now)) }
{
    let Some(value) = object.get(key) else {
        return Ok(());
    };
    let Some(list) = value.as_array() else {
        return Ok(());
    };
    let path = notes.path_of_key(path, key)?;
    note_items(notes, list.as_slice(), &path, kind)
}

// Notes the items of the list at a path.
fn note_items<K: NotedObject>(
    notes: &mut NoteList,
    items: &[Value],
    path: &str,
    kind: K,
) -> Result<(), AllocError>
    ensures { OnOk result (notes.new
        ≡ notes.old ++ item_notes (K.noted kind) path.now 0 (items_view items.now)) }
{
    for i in 0..items.len() {
        let path = notes.path_of_item(path, i)?;
        kind.note(notes, &items[i], &path)?;
    }
    Ok(())
}

// Notes a list at a key of the object at a path, of at most `most` items, and each of them.
pub(crate) fn note_list<K: NotedObject>(
    notes: &mut NoteList,
    object: &Value,
    path: &str,
    list: Listed,
    kind: K,
) -> Result<(), AllocError>
    ensures { OnOk result (notes.new ≡ notes.old
        ++ listed_notes list.most (K.noted kind) list.key.now path.now (view object.now)) }
{
    let Listed { key, most } = list;
    let short = is_short_list(notes.allocator(), object, key, most)?;
    note_failed(notes, short, path, key, NoteKind::Wrong)?;
    note_each(notes, object, path, key, kind)
}

// A key of a list, and the most items that it has.
#[derive(Clone, Copy)]
pub(crate) struct Listed {
    pub(crate) key: &'static str,
    pub(crate) most: usize,
}

// Reports whether the value at a key, if there is one, is a list of at most `most` items.
fn is_short_list(
    alloc: Global,
    object: &Value,
    key: &'static str,
    most: usize,
) -> Result<bool, AllocError>
    ensures { IfOk result (λ short. short
        ≡ is_some (items_or_none most (get key.now (view object.now)))) }
{
    match list_at(alloc, object, &Place::Root, key, most) {
        Ok(_) => Ok(true),
        Err(SettingsFault::Memory) => Err(AllocError),
        Err(_) => Ok(false),
    }
}

// Appends the notes on what is in a value at a path; and that it is wrong, if it describes nothing
// although none of them refuses anything.
pub(crate) fn append_checked<R: EntryReader>(
    notes: &mut NoteList,
    inner: NoteList,
    reader: &R,
    value: &Value,
    path: &str,
) -> Result<(), AllocError>
    ensures { OnOk result (notes.new ≡ notes.old
        ++ or_wrong (is_some (R.means reader.now (view value.now))) path.now inner) }
{
    if inner.refuses() {
        return notes.append(inner);
    }
    if is_described(notes.allocator(), reader, value)? {
        return notes.append(inner);
    }
    notes.append(inner)?;
    notes.push_path(path, NoteKind::Wrong)
}

// Reports whether a value describes something by itself.
fn is_described<R: EntryReader>(
    alloc: Global,
    reader: &R,
    value: &Value,
) -> Result<bool, AllocError>
    ensures { IfOk result (λ described. described ≡ is_some (R.means reader.now (view value.now))) }
{
    Ok(read_alone(alloc, reader, value)?.is_some())
}

// Notes a key of the object at a path, unless it passed a test.
pub(crate) fn note_failed(
    notes: &mut NoteList,
    passed: bool,
    path: &str,
    key: &'static str,
    kind: NoteKind,
) -> Result<(), AllocError>
    ensures { OnOk result (notes.new ≡ notes.old ++ note_unless passed kind path.now key.now) }
{
    if passed {
        return Ok(());
    }
    let path = notes.path_of_key(path, key)?;
    notes.push_path(&path, kind)
}
