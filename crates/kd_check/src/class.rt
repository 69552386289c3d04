ghost use Rattle.std.specs.Prelude.{◌≡◌, ◌++◌, IfOk, OnOk, codes, option_map, string_bytes, Option, ℕ};
ghost use Rattle.kd_check.specs.Lookup.{class_text, class_title, file_title};
ghost use Rattle.kd_check.specs.Report.{class_line, said_line, test_report, tokens_line};
ghost use Rattle.kd_fields.specs.Text.{value_spelled};
ghost use Rattle.serde_json.specs.View.{view};

use crate::line::line_about;
use crate::lookup::{class_member, spelled_value, test_text};
use crate::mark::put_place;
use crate::words::{place_in_test, put_tokens_words, words_of_test};
use kd_classes::ClassFault;
use kd_json::{FileTestFault, TestFault};
use serde_json::Value;
use std::alloc::{AllocError, Global};

// Reports why the test of the class with this number has no program, and where.
pub(crate) fn test_report_in(
    alloc: Global,
    name: &str,
    text: &[u8],
    number: usize,
    why: TestFault,
) -> Result<String, AllocError>
    ensures { IfOk result (λ report. string_bytes report
        ≡ test_report name.now (value_spelled text.now) number why) }
{
    let whole = spelled_value(alloc, text)?;
    let title = title_of_class(alloc, whole.as_ref(), number)?;
    let mut report = line_about(alloc, name, &title, words_of_test(why))?;
    let test = test_text(whole.as_ref(), number);
    put_place(&mut report, test, place_in_test(why))?;
    Ok(report)
}

// Reports what is wrong with the token file of the class with this number.
pub(crate) fn tokens_line_in(
    alloc: Global,
    name: &str,
    text: &[u8],
    number: usize,
    why: FileTestFault,
) -> Result<String, AllocError>
    ensures { IfOk result (λ line. string_bytes line
        ≡ tokens_line name.now (value_spelled text.now) number why) }
{
    let whole = spelled_value(alloc, text)?;
    let title = title_of_class(alloc, whole.as_ref(), number)?;
    let mut words = title_of_file(alloc, whole.as_ref(), number)?;
    words.push_str(": ")?;
    put_tokens_words(&mut words, why)?;
    line_about(alloc, name, &title, &words)
}

// Reports that a class is refused, and why.
pub(crate) fn class_line_in(
    alloc: Global,
    name: &str,
    text: &[u8],
    why: ClassFault,
) -> Result<String, AllocError>
    ensures { IfOk result (λ line. string_bytes line
        ≡ class_line name.now (value_spelled text.now) why) }
{
    match why {
        ClassFault::Duplicate(number) => {
            let words = "an earlier class has this name";
            titled_line(alloc, name, text, number, words)
        }
        ClassFault::UnknownMember(number) => {
            let words = "its test names a class that is not defined before it";
            titled_line(alloc, name, text, number, words)
        }
        ClassFault::TooMany => {
            let words = "there are more than 256 classes";
            line_about(alloc, name, "/Dhcp4/client-classes", words)
        }
    }
}

// Returns the line about the class with this number.
fn titled_line(
    alloc: Global,
    name: &str,
    text: &[u8],
    number: usize,
    words: &str,
) -> Result<String, AllocError>
    ensures { IfOk result (λ line. string_bytes line
        ≡ said_line name.now (class_title (value_spelled text.now) number) words.now) }
{
    let whole = spelled_value(alloc, text)?;
    let title = title_of_class(alloc, whole.as_ref(), number)?;
    line_about(alloc, name, &title, words)
}

// Returns how the class with this number is called in a report.
fn title_of_class(alloc: Global, whole: Option<&Value>, number: usize) -> Result<String, AllocError>
    ensures { IfOk result (λ title. string_bytes title
        ≡ class_title (option_map (λ v. view v.now) whole.entry) number) }
{
    match class_member(whole, number, "name") {
        Some(name) if name.is_string() => {
            let json = name.to_string(alloc)?;
            format!(in alloc; "class {json}")
        }
        _ => format!(in alloc; "/Dhcp4/client-classes/{number}"),
    }
}

// Returns how the token file of the class with this number is called in a report.
fn title_of_file(alloc: Global, whole: Option<&Value>, number: usize) -> Result<String, AllocError>
    ensures { IfOk result (λ title. string_bytes title
        ≡ file_title (class_text (option_map (λ v. view v.now) whole.entry) number (codes "tokens"))) }
{
    match class_member(whole, number, "tokens") {
        Some(name) if name.is_string() => {
            let json = name.to_string(alloc)?;
            format!(in alloc; "token file {json}")
        }
        _ => String::from_str(alloc, "token file"),
    }
}
