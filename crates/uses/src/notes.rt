ghost use Rattle.std.specs.Prelude.{◌≡◌, IfSome, Some, length, option_map};
ghost use Rattle.kd_notes.specs.Notes.{kea_notes};

use kd_notes::notes_of;
use std::alloc::Global;

/// Returns how many notes there are on a text of Kea's, if it is JSON.
pub fn count_notes(alloc: Global, text: &[u8]) -> Option<usize>
    ensures { IfSome result (λ count. option_map length (kea_notes text.now None) ≡ Some count) }
{
    let notes = notes_of(alloc, text, None).ok()??;
    Some(notes.len())
}
