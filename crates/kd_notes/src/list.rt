ghost use Rattle.std.specs.Prelude.{◌≡◌, ◌∷◌, ◌++◌, IfOk, OnOk, [], decimal, map, string_bytes};
ghost use Rattle.std.specs.List.{flat_map};
ghost use Rattle.kd_fields.specs.Place.{path_below};
ghost use Rattle.kd_names.specs.Values.{sign_text};
ghost use Rattle.kd_notes.specs.Notes.{have_refused, is_refusal, note_of};

use crate::notes::{Note, NoteKind};
use kd_names::put_signs;
use std::alloc::{AllocError, Global};
use std::marker::Model;

// Notes, in order. In a contract they are paths with what is noted of them.
#[derive(Drop)]
pub(crate) struct NoteList {
    alloc: Global,
    content: Vec<Note>,
}

impl Model for NoteList {
    ghost use Rattle.std.specs.Prelude.{List, map};
    ghost use Rattle.kd_notes.specs.Notes.{KeyNote, note_of};

    ghost Value = { List KeyNote };

    ghost view = { λ notes. map note_of notes.content.items };
}

impl NoteList {
    ghost use Rattle.kd_notes.specs.Notes.{have_refused, note_of};

    // Makes a list with no notes.
    pub(crate) fn new(alloc: Global) -> NoteList
        ensures { result ≡ [] }
    {
        NoteList {
            alloc,
            content: Vec::new(alloc),
        }
    }

    // Returns the allocator of the list's memory.
    pub(crate) fn allocator(&self) -> Global {
        self.alloc
    }

    // Appends a note on a key of the object at a path, with the key as a terminal may show it.
    pub(crate) fn push(&mut self, path: &str, key: &str, kind: NoteKind) -> Result<(), AllocError>
        ensures { OnOk result (self.new
            ≡ self.old ++ (path_below path.now (flat_map sign_text key.now), kind) ∷ []) }
    {
        let path = shown_path(self.alloc, path, key)?;
        self.content.push(Note { path, kind })?;
        Ok(())
    }

    // Appends a note at a path.
    pub(crate) fn push_path(&mut self, path: &str, kind: NoteKind) -> Result<(), AllocError>
        ensures { OnOk result (self.new ≡ self.old ++ (path.now, kind) ∷ []) }
    {
        let path = String::from_str(self.alloc, path)?;
        self.content.push(Note { path, kind })?;
        Ok(())
    }

    // Appends the notes of a list.
    #[tactic(auto, using(crate::proofs::Noted::notes_joined))]
    pub(crate) fn append(&mut self, mut notes: NoteList) -> Result<(), AllocError>
        ensures { OnOk result (self.new ≡ self.old ++ notes) }
    {
        self.content.append(&mut notes.content)
    }

    // Reports whether one of the notes refuses something.
    pub(crate) fn refuses(&self) -> bool
        ensures { result ≡ have_refused self.now }
    {
        is_refusing(self.content.as_slice())
    }

    // Returns the path of a key of the object at a path.
    pub(crate) fn path_of_key(&self, path: &str, key: &str) -> Result<String, AllocError>
        ensures { IfOk result (λ below. string_bytes below ≡ path_below path.now key.now) }
    {
        format!(in self.alloc; "{path}/{key}")
    }

    // Returns the path of the item with an index in the list at a path.
    pub(crate) fn path_of_item(&self, path: &str, index: usize) -> Result<String, AllocError>
        ensures { IfOk result (λ below. string_bytes below ≡ path_below path.now (decimal index)) }
    {
        format!(in self.alloc; "{path}/{index}")
    }

    // Returns the notes themselves.
    pub(crate) fn into_vec(self) -> Vec<Note>
        ensures { map note_of result.items ≡ self }
    {
        let NoteList { alloc: _, content } = self;
        content
    }
}

// Returns the path of a key of the object at a path, with the key as a terminal may show it.
fn shown_path(alloc: Global, path: &str, key: &str) -> Result<String, AllocError>
    ensures { IfOk result (λ below. string_bytes below
        ≡ path_below path.now (flat_map sign_text key.now)) }
{
    let mut below = String::from_str(alloc, path)?;
    below.push_str("/")?;
    put_signs(alloc, &mut below, key.as_bytes())?;
    Ok(below)
}

// Reports whether one of these notes refuses something.
fn is_refusing(notes: &[Note]) -> bool
    ensures { result ≡ have_refused (map note_of notes.now) }
{
    for note in notes {
        if refuses(note.kind) {
            return true;
        }
    }
    false
}

// Reports whether a note of a kind refuses something.
fn refuses(kind: NoteKind) -> bool
    ensures { result ≡ is_refusal kind }
{
    match kind {
        NoteKind::Skipped => false,
        NoteKind::Unknown => true,
        NoteKind::Wrong => true,
    }
}
