ghost use Rattle.std.specs.Prelude.{◌≡◌, IfOk, string_bytes};
ghost use Rattle.kd_check.specs.Report.{bare_line, said_line, said_of};

use std::alloc::{AllocError, Global};

// Returns a statement about a subject, without a line feed.
pub(crate) fn line_start(
    alloc: Global,
    name: &str,
    subject: &str,
    words: &str,
) -> Result<String, AllocError>
    ensures { IfOk result (λ line. string_bytes line ≡ said_of name.now subject.now words.now) }
{
    let mut line = String::from_str(alloc, name)?;
    line.push_str(": ")?;
    line.push_str(subject)?;
    line.push_str(": ")?;
    line.push_str(words)?;
    Ok(line)
}

// Returns a statement about a subject, as a line.
pub(crate) fn line_about(
    alloc: Global,
    name: &str,
    subject: &str,
    words: &str,
) -> Result<String, AllocError>
    ensures { IfOk result (λ line. string_bytes line ≡ said_line name.now subject.now words.now) }
{
    let mut line = line_start(alloc, name, subject, words)?;
    line.push_str("\n")?;
    Ok(line)
}

// Returns a statement about the configuration as a whole, as a line.
pub(crate) fn line_of_all(alloc: Global, name: &str, words: &str) -> Result<String, AllocError>
    ensures { IfOk result (λ line. string_bytes line ≡ bare_line name.now words.now) }
{
    let mut line = String::from_str(alloc, name)?;
    line.push_str(": ")?;
    line.push_str(words)?;
    line.push_str("\n")?;
    Ok(line)
}
