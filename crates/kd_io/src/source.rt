ghost use Rattle.std.specs.Prelude.{◌≡◌, ◌⊎◌, ◌+◌, ◌<◌, ◌≤◌, ℕ, Err, IfOk, List, Some, length, true};
ghost use Rattle.kd_io.specs.Taking.{GrowsByPart};
ghost use Rattle.kd_io.specs.declared.files.InputFault.TheVariants.{Read as Unread};

use crate::files::InputFault;
use kd_loops::Source;
use std::alloc::Global;

// How many bytes are read at a time.
const CHUNK: usize = 65_536;

/// Reads all remaining bytes of a source, at most `most` of them.
///
/// # Errors
///
/// `Read` if it cannot be read or has more, and `Memory` if memory runs out.
#[tactic(auto, using(crate::proofs::Consumed::none_read, crate::proofs::Consumed::all_read, crate::proofs::Consumed::few_read))]
pub fn read_source<R: Source>(
    alloc: Global,
    source: &mut R,
    most: u32,
) -> Result<Vec<u8>, InputFault>
    ensures most { IfOk result (λ text. length text.items ≤ most) }
    ensures whole { IfOk result (λ text.
        (all : List ℕ) → R.remaining source.old ≡ Some all → text.items ≡ all) }
    ensures unread { result ≡ Err Unread → (R.has_failed source.new ≡ true)
        ⊎ ((all : List ℕ) → R.remaining source.old ≡ Some all → most < length all) }
{
    let mut text = Vec::new(alloc);
    let mut chunk = Vec::with_capacity(alloc, CHUNK)?;
    chunk.resize(CHUNK, 0)?;
    for _ in 0..=most {
        if !read_part(source, chunk.as_mut_slice(), &mut text, most as usize)? {
            return Ok(text);
        }
    }
    unreachable!()
}

// Appends some of the remaining bytes of a source to a text, which then has at most `most` bytes.
// Reports whether there were any.
fn read_part<R: Source>(
    source: &mut R,
    chunk: &mut [u8],
    text: &mut Vec<u8>,
    most: usize,
) -> Result<bool, InputFault>
    requires chunk { 0 < length chunk.old }
    requires short { length text.old.items ≤ most }
    ensures short { IfOk result (λ more. length text.new.items ≤ most) }
    ensures taken { IfOk result
        (λ more. GrowsByPart more (R.remaining source.old) (R.remaining source.new)
        text.old.items text.new.items) }
    ensures unread { result ≡ Err Unread → (R.has_failed source.new ≡ true)
        ⊎ ((all : List ℕ) → R.remaining source.old ≡ Some all
        → most < length text.old.items + length all) }
{
    let Ok(count) = source.read(chunk) else {
        return Err(InputFault::Read);
    };
    if count > most - text.len() {
        return Err(InputFault::Read);
    }
    text.extend_from_slice(&chunk[..count])?;
    Ok(count > 0)
}
