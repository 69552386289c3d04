ghost use Rattle.std.specs.Prelude.{◌≡◌, ◌++◌, IfOk, codes, string_bytes};
ghost use Rattle.kd_trouble.specs.Troubles.{store_trouble_words};

use kd_trouble::StoreTrouble;
use std::alloc::{AllocError, Global};

/// Returns a line about a database that cannot be opened.
pub fn refused_line(alloc: Global, path: &str, trouble: StoreTrouble) -> Result<String, AllocError>
    ensures { IfOk result (λ line.
        string_bytes line ≡ path.now ++ codes ": " ++ store_trouble_words trouble) }
{
    format!(in alloc; "{path}: {trouble}")
}
