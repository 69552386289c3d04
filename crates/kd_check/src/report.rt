ghost use Rattle.std.specs.Prelude.{◌≡◌, IfOk, option_map, string_bytes};
ghost use Rattle.kd_check.specs.Report.{IsReport, words_at_path};

use crate::class::{class_line_in, test_report_in, tokens_line_in};
use crate::line::{line_about, line_of_all};
use crate::lookup::spelled_value;
use crate::unread::json_report_in;
use crate::value::value_line;
use kd_json::ConfigFault;
use std::alloc::{AllocError, Global};

// What is wrong at a path.
const MISSING: &str = "this key is missing";

const UNKNOWN: &str = "this key is not known";

const NOT_ALLOWED: &str = "this value is not allowed";

const OUTSIDE: &str = "not inside the subnet";

const OVERLAP: &str = "an earlier pool has one of these addresses";

const RESERVED_TWICE: &str = "an earlier reservation has the same";

/// Returns the path of a fault that has one, and what is wrong there, in the words of
/// `config_report`.
pub fn path_words(fault: &ConfigFault) -> Option<(&String, &'static str)>
    ensures { option_map (λ it. (string_bytes it.0.now, it.1.now)) result
        ≡ words_at_path fault.now }
{
    match fault {
        ConfigFault::Missing(path) => Some((path, MISSING)),
        ConfigFault::Unknown(path) => Some((path, UNKNOWN)),
        ConfigFault::BadValue(path) => Some((path, NOT_ALLOWED)),
        ConfigFault::PoolOutside(path) => Some((path, OUTSIDE)),
        ConfigFault::Overlap(path) => Some((path, OVERLAP)),
        ConfigFault::DuplicateReservation(path) => Some((path, RESERVED_TWICE)),
        ConfigFault::Json => None,
        ConfigFault::Expression(_, _) => None,
        ConfigFault::Tokens(_, _) => None,
        ConfigFault::Class(_) => None,
        ConfigFault::Memory => None,
    }
}

/// Reports in words what is wrong with the text of a configuration: one or three lines, each with
/// its line feed. The first begins with the name that the operator gave. A fault that was not found
/// in this text is reported too, without the parts that the text does not have.
///
/// # Errors
///
/// Out of memory.
pub fn config_report(
    alloc: Global,
    name: &str,
    text: &[u8],
    fault: &ConfigFault,
) -> Result<String, AllocError>
    ensures { IfOk result
        (λ report. IsReport name.now text.now fault.now (string_bytes report)) }
{
    match fault {
        ConfigFault::Json => json_report_in(alloc, name, text),
        ConfigFault::Missing(path) => line_about(alloc, name, path, MISSING),
        ConfigFault::Unknown(path) => line_about(alloc, name, path, UNKNOWN),
        ConfigFault::BadValue(path) => value_line(alloc, name, text, path, NOT_ALLOWED),
        ConfigFault::PoolOutside(path) => value_line(alloc, name, text, path, OUTSIDE),
        ConfigFault::Overlap(path) => value_line(alloc, name, text, path, OVERLAP),
        ConfigFault::DuplicateReservation(path) => {
            value_line(alloc, name, text, path, RESERVED_TWICE)
        }
        ConfigFault::Expression(number, why) => { test_report_in(alloc, name, text, *number, *why) }
        ConfigFault::Tokens(number, why) => tokens_line_in(alloc, name, text, *number, *why),
        ConfigFault::Class(why) => class_line_in(alloc, name, text, *why),
        ConfigFault::Memory => line_of_all(alloc, name, "out of memory"),
    }
}
