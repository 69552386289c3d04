//! What is skipped, refused or wrong in a configuration of Kea's, each with its path
//! (`specs/Notes.antt`).
ghost use Rattle.std.specs.Prelude.{◌≡◌, IfOk, map, option_map};
ghost use Rattle.serde_json.specs.View.{view};
ghost use Rattle.kd_notes.specs.Notes.{kea_notes, kea_value, note_of};

use crate::list::NoteList;
use crate::objects::note_root;
use kd_fields::faults::SettingsFault;
use kd_fields::text::value_of;
use kd_plain::plain_text;
use serde_json::Value;
use std::alloc::{AllocError, Global};

/// What is noted of a key or a value.
#[derive(Clone, Copy)]
pub enum NoteKind {
    /// The key is skipped: no client notices it.
    Skipped,
    /// The key is refused: kdhcp does not serve it, or not with its value.
    Unknown,
    /// The value is wrong: it describes nothing, although nothing in it is refused.
    Wrong,
}

/// A note on a key or a value of a configuration of Kea's.
#[derive(Drop)]
pub struct Note {
    /// The path (RFC 6901), as a terminal may show it, as in the faults of a configuration.
    pub path: String,
    /// What is noted.
    pub kind: NoteKind,
}

/// Lists the keys of a text of Kea's that are skipped, those that are refused, and the values that
/// are wrong. The keys of an object come in the order of their bytes, then those of its keys that are
/// served with some values only, then its own values, and then what is in it. `server` is the server's
/// address, as for `read_kea`. Returns `None` if the text has no plain text, or one that is not JSON
/// in UTF-8.
///
/// # Errors
///
/// Out of memory.
pub fn notes_of(
    alloc: Global,
    text: &[u8],
    server: Option<u32>,
) -> Result<Option<Vec<Note>>, AllocError>
    ensures { IfOk result (λ notes. option_map (λ list. map note_of list.items) notes
        ≡ kea_notes text.now server) }
{
    let Some(value) = value_in(alloc, text)? else {
        return Ok(None);
    };
    let mut notes = NoteList::new(alloc);
    note_root(&mut notes, &value, server)?;
    Ok(Some(notes.into_vec()))
}

// Parses the JSON value of a text of Kea's, if it is one.
#[tactic(auto, unfolding(crate::specs::Notes::kea_value))]
fn value_in(alloc: Global, text: &[u8]) -> Result<Option<Value>, AllocError>
    ensures { IfOk result (λ value. option_map view value ≡ kea_value text.now) }
{
    let Some(json) = plain_text(alloc, text)? else {
        return Ok(None);
    };
    match value_of(alloc, &json) {
        Ok(value) => Ok(Some(value)),
        Err(SettingsFault::Memory) => Err(AllocError),
        Err(_) => Ok(None),
    }
}
