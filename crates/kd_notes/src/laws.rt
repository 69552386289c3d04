//! What is true of every text and its notes. Each law is the contract of a function that does
//! nothing.
ghost use Rattle.std.specs.Prelude.{◌≡◌, Bool, ℕ, List, None, Option, Some, false, not, true};
ghost use Rattle.serde_json.specs.Data.{Data, Members};
ghost use Rattle.serde_json.specs.Find.{as_object};
ghost use Rattle.kd_json.specs.declared.objects.settings.Settings.{Settings};
ghost use Rattle.kd_kea.specs.Kea.{kea_settings};
ghost use Rattle.kd_keys.specs.Keys.{keys_are_read};
ghost use Rattle.kd_kea.specs.Class.{kea_class};
ghost use Rattle.kd_keys.specs.Definitions.{kea_definition};
ghost use Rattle.kd_notes.specs.Notes.{KeyNote, class_notes, data_notes, definition_note, have_refused, host_notes, kea_notes, own_notes, pool_notes};
ghost use Rattle.kd_keys.specs.Options.{kea_entry};
ghost use Rattle.kd_kea.specs.Pool.{kea_pool};
ghost use Rattle.kd_kea.specs.Reservation.{kea_reservation};
ghost use Rattle.kd_keys.specs.declared.definition.DefinedOption.{DefinedOption};
ghost use Rattle.kd_keys.specs.declared.host_kinds.HostKinds.{HostKinds};
ghost use Rattle.kd_keys.specs.Tables.{key_table};
ghost use Rattle.kd_keys.specs.declared.tables.ObjectKind.{ObjectKind};

/// A text that describes settings has notes, and none of them refuses anything. So a text with such
/// a note describes no settings.
pub fn what_is_served_is_not_refused()
    ensures none { (text : List ℕ) (server : Option ℕ) (settings : Settings)
        → kea_settings text server ≡ Some settings
        → (notes : List KeyNote) × (kea_notes text server ≡ Some notes)
        × (have_refused notes ≡ false) }
    ensures refused { (text : List ℕ) (server : Option ℕ) (notes : List KeyNote)
        → kea_notes text server ≡ Some notes → have_refused notes ≡ true
        → kea_settings text server ≡ None }
{}

/// An object has a note on a refused key exactly if one of its keys may not have its value, by the
/// table of its kind. `read_kea` refuses such an object.
pub fn what_is_refused_is_noted()
    ensures { (kind : ObjectKind) (path : List ℕ) (d : Data) (members : Members)
        → as_object d ≡ Some members
        → have_refused (own_notes (key_table kind) path d) ≡ not (keys_are_read (key_table kind) d) }
{}

/// A text that is JSON and describes no settings has a note that refuses something: none is missing.
/// So has each value of a list that describes nothing, on itself or on something in it.
pub fn what_is_not_served_is_refused()
    ensures text { (text : List ℕ) (server : Option ℕ) (notes : List KeyNote)
        → kea_notes text server ≡ Some notes → kea_settings text server ≡ None
        → have_refused notes ≡ true }
    ensures option { (for_all : Bool) (known : List DefinedOption) (path : List ℕ) (d : Data)
        → kea_entry for_all known d ≡ None
        → have_refused (data_notes for_all known path d) ≡ true }
    ensures definition { (in_class : Bool) (path : List ℕ) (d : Data)
        → kea_definition in_class d ≡ None
        → have_refused (definition_note in_class path d) ≡ true }
    ensures class { (known : List DefinedOption) (path : List ℕ) (d : Data)
        → kea_class known d ≡ None → have_refused (class_notes known path d) ≡ true }
    ensures pool { (known : List DefinedOption) (path : List ℕ) (d : Data)
        → kea_pool known d ≡ None → have_refused (pool_notes known path d) ≡ true }
    ensures reservation { (known : List DefinedOption) (kinds : HostKinds) (bare : Bool)
        (path : List ℕ) (d : Data) → kea_reservation known kinds bare d ≡ None
        → have_refused (host_notes known kinds bare path d) ≡ true }
{}
