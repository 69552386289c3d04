use std::alloc::{AllocError, Global};

// The version of the program.
const VERSION: &str = "1.0.0";

// The commit that the program is built from. `git archive` writes it between the quotes; a checkout
// has a text there that begins with a dollar sign.
const COMMIT: &str = "$Format:%H$";

/// Returns the line that `--version` prints: the name of the program, its version and its commit.
///
/// # Errors
///
/// Out of memory.
pub fn version_line(alloc: Global) -> Result<String, AllocError> {
    if COMMIT.starts_with('$') {
        format!(in alloc; "kdhcp {VERSION}, built from a checkout\n")
    } else {
        format!(in alloc; "kdhcp {VERSION}, commit {COMMIT}\n")
    }
}
