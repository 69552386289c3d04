ghost use Rattle.std.specs.Prelude.{◌≡◌, IfSome, List, Some, ℕ};

use kd_io::read_source;
use kd_loops::Source;
use std::alloc::Global;

/// Returns the text of a source, if it has at most 65,536 bytes.
pub fn text_of<R: Source>(alloc: Global, source: &mut R) -> Option<Vec<u8>>
    ensures { (text : List ℕ) → R.remaining source.old ≡ Some text
        → IfSome result (λ bytes. bytes.items ≡ text) }
{
    read_source(alloc, source, 65_536).ok()
}
