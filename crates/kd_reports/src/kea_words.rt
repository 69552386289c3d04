ghost use Rattle.std.specs.Prelude.{◌≡◌, ◌++◌, ◌&&◌, IfOk, OnOk, Some, bytes_eq, map, string_bytes};
ghost use Rattle.std.specs.List.{flat_map, list_any};
ghost use Rattle.std.specs.Option.{option_copied};
ghost use Rattle.kd_check.specs.Report.{words_at_path};
ghost use Rattle.kd_notes.specs.Notes.{kea_notes, note_of};
ghost use Rattle.kd_names.specs.Values.{sign_text};
ghost use Rattle.kd_reports.specs.KeaWords.{AreKeaRemarks, AreKeaStartWords, AreNotedWords, AreTextWords, AreUnnotedWords, AreWordsBy};
ghost use Rattle.kd_reports.specs.KeaWords.{AreValueWords, IsSaidAt, IsSaidOfFault, IsSaidOfValue, include_line, is_of_value, is_path_end, is_unknown, is_wrong_beside, leads_into, line_of_kind};
ghost use Rattle.kd_reports.specs.KeaWords.{more_text, more_values, refused_lines, refused_paths, refused_place, remark_lines, skipped_line, skipped_lines, wrong_paths};
ghost use Rattle.kd_reports.specs.Words.{HoldsOfText};

use crate::words::{start_words, text_again};
use kd_check::{config_report, located_report, located_value_report, path_words};
use kd_json::ConfigFault;
use kd_names::{put_signs, signs_of};
use kd_notes::{Note, NoteKind, notes_of};
use kd_plain::{include_in, plain_text};
use kd_trouble::StartFault;
use std::alloc::{AllocError, Global};

// The most refused keys that are shown with their places. Each is looked for from the beginning of
// the text.
const MOST_PLACES: usize = 64;

// What is wrong with a key that is refused.
const REFUSED: &str = "not served, or not with this value";

// What is wrong with a value that is wrong by itself.
const WRONG: &str = "no value that is allowed here";

/// Returns, in words, why the file at a path, whose text has the form of ISC Kea's DHCPv4 server,
/// gives no configuration: each key that is refused, each value that is wrong, and what else is its
/// first fault, each with its line, its column and a mark; then each key that is skipped, as
/// `kea_remarks` does. `server` is the server's address where the text has none. The file is read
/// again.
///
/// # Errors
///
/// Out of memory.
pub fn kea_start_words(
    rt: &HostRuntime,
    path: &str,
    server: Option<u32>,
    fault: &StartFault,
) -> Result<String, AllocError>
    ensures { IfOk result
        (λ words. AreKeaStartWords path.now server fault.now (string_bytes words)) }
{
    match fault {
        StartFault::Input(_) => start_words(rt, Some(path), None, fault),
        StartFault::Config(fault) => file_words(rt, path, server, fault),
    }
}

// Returns what is wrong with the text of a file of Kea's that had this first fault.
fn file_words(
    rt: &HostRuntime,
    path: &str,
    server: Option<u32>,
    fault: &ConfigFault,
) -> Result<String, AllocError>
    ensures { IfOk result (λ words. HoldsOfText
        (λ text. AreTextWords (flat_map sign_text path.now) text server fault.now
        (string_bytes words))) }
{
    let alloc = rt.alloc();
    let name = signs_of(alloc, path.as_bytes())?;
    let text = text_again(rt, path);
    text_words(alloc, &name, text.as_slice(), server, fault)
}

/// Returns remarks on the file at a path, whose text has the form of Kea's and no fault: a line for
/// each key that is skipped because no client notices it. There are none if it cannot be read again.
/// `server` is the server's address where the text has none.
///
/// # Errors
///
/// Out of memory.
pub fn kea_remarks(rt: &HostRuntime, path: &str, server: Option<u32>) -> Result<String, AllocError>
    ensures { IfOk result (λ words. AreKeaRemarks path.now server (string_bytes words)) }
{
    let text = text_again(rt, path);
    remarks_on(rt.alloc(), path, text.as_slice(), server)
}

// Returns remarks on a text, which the file at a path has.
fn remarks_on(
    alloc: Global,
    path: &str,
    text: &[u8],
    server: Option<u32>,
) -> Result<String, AllocError>
    ensures { IfOk result (λ words. string_bytes words
        ≡ remark_lines (flat_map sign_text path.now) (kea_notes text.now server)) }
{
    match notes_of(alloc, text, server)? {
        Some(notes) => skipped_words(alloc, path, notes.as_slice()),
        None => Ok(String::new(alloc)),
    }
}

// Returns a line for each skipped key of the file at a path.
fn skipped_words(alloc: Global, path: &str, notes: &[Note]) -> Result<String, AllocError>
    ensures { IfOk result (λ words. string_bytes words
        ≡ skipped_lines (flat_map sign_text path.now) (map note_of notes.now)) }
{
    let name = signs_of(alloc, path.as_bytes())?;
    let mut words = String::new(alloc);
    put_skipped(&mut words, &name, notes)?;
    Ok(words)
}

// A text of Kea's, and how it is called.
#[derive(Clone, Copy)]
struct Texts<'a> {
    // The name that the operator gave, as a terminal may show it.
    name: &'a str,
    // The text as it is.
    written: &'a [u8],
    // Its JSON, each byte in its place.
    plain: &'a [u8],
}

// Returns what is wrong with a text of Kea's that has this first fault.
fn text_words(
    alloc: Global,
    name: &str,
    text: &[u8],
    server: Option<u32>,
    fault: &ConfigFault,
) -> Result<String, AllocError>
    ensures { IfOk result
        (λ words. AreTextWords name.now text.now server fault.now (string_bytes words)) }
{
    match plain_text(alloc, text)? {
        Some(plain) => plain_words(alloc, name, text, plain.as_slice(), server, fault),
        None => config_report(alloc, name, text, fault),
    }
}

// Returns what is wrong with a text of Kea's that has this JSON and this first fault.
fn plain_words(
    alloc: Global,
    name: &str,
    text: &[u8],
    plain: &[u8],
    server: Option<u32>,
    fault: &ConfigFault,
) -> Result<String, AllocError>
    ensures { IfOk result (λ words. AreWordsBy name.now text.now fault.now (Some plain.now)
        (kea_notes text.now server) (string_bytes words)) }
{
    let texts = Texts {
        name,
        written: text,
        plain,
    };
    match notes_of(alloc, text, server)? {
        Some(notes) => noted_words(alloc, &texts, fault, notes.as_slice()),
        None => unnoted_words(alloc, name, plain, include_in(text), fault),
    }
}

// Returns what is wrong with a text that has no notes: that a directive for another file is not
// served, or else its fault.
fn unnoted_words(
    alloc: Global,
    name: &str,
    plain: &[u8],
    directive: Option<&[u8]>,
    fault: &ConfigFault,
) -> Result<String, AllocError>
    ensures { IfOk result (λ words. AreUnnotedWords name.now plain.now
        (option_copied directive.entry) fault.now (string_bytes words)) }
{
    match directive {
        Some(directive) => include_words(alloc, name, directive),
        None => config_report(alloc, name, plain, fault),
    }
}

// Returns that a directive for another file is not served.
#[tactic(auto, unfolding(crate::specs::KeaWords::include_line))]
fn include_words(alloc: Global, name: &str, directive: &[u8]) -> Result<String, AllocError>
    ensures { IfOk result (λ words. string_bytes words ≡ include_line name.now directive.now) }
{
    let mut words = String::new(alloc);
    words.push_str(name)?;
    words.push_str(": another file is not read here: ")?;
    put_signs(alloc, &mut words, directive)?;
    words.push_str("\n")?;
    Ok(words)
}

// Returns the refused keys and wrong values, the first fault if it is no refused key, and the skipped
// keys.
fn noted_words(
    alloc: Global,
    texts: &Texts<'_>,
    fault: &ConfigFault,
    notes: &[Note],
) -> Result<String, AllocError>
    ensures { IfOk result (λ words. AreNotedWords texts.now.name.now texts.now.written.now
        texts.now.plain.now (map note_of notes.now) fault.now (string_bytes words)) }
{
    let mut words = String::new(alloc);
    put_refused(alloc, &mut words, texts, notes)?;
    let about_values = value_words(alloc, texts, fault, notes)?;
    words.push_str(about_values.as_str())?;
    let about_fault = fault_words(alloc, texts, fault, notes)?;
    words.push_str(about_fault.as_str())?;
    put_skipped(&mut words, texts.name, notes)?;
    Ok(words)
}

// Prints the refused keys with their places.
fn put_refused(
    alloc: Global,
    words: &mut String,
    texts: &Texts<'_>,
    notes: &[Note],
) -> Result<(), AllocError>
    ensures { OnOk result (string_bytes words.new ≡ string_bytes words.old
        ++ refused_lines texts.now.name.now texts.now.written.now texts.now.plain.now
        (refused_paths (map note_of notes.now))) }
{
    let mut count = 0;
    for note in notes {
        if is_refused(note) {
            if count == MOST_PLACES {
                return put_more(words, texts.name);
            }
            count += 1;
            put_place(alloc, words, texts, note.path.as_str())?;
        }
    }
    Ok(())
}

// Prints that more keys are refused than are shown.
#[tactic(auto, unfolding(crate::specs::KeaWords::more_text))]
fn put_more(words: &mut String, name: &str) -> Result<(), AllocError>
    ensures { OnOk result (string_bytes words.new ≡ string_bytes words.old ++ more_text name.now) }
{
    words.push_str(name)?;
    words.push_str(": more keys are not served\n")
}

// Prints a refused key with its place.
fn put_place(
    alloc: Global,
    words: &mut String,
    texts: &Texts<'_>,
    path: &str,
) -> Result<(), AllocError>
    ensures { OnOk result (string_bytes words.new ≡ string_bytes words.old
        ++ refused_place texts.now.name.now texts.now.written.now texts.now.plain.now path.now) }
{
    let Texts {
        name,
        written,
        plain,
    } = *texts;
    let lines = located_report(alloc, name, plain, written, path, REFUSED)?;
    words.push_str(lines.as_str())
}

// Returns what is said of the values that are wrong, but for those with the first fault.
fn value_words(
    alloc: Global,
    texts: &Texts<'_>,
    fault: &ConfigFault,
    notes: &[Note],
) -> Result<String, AllocError>
    ensures { IfOk result (λ words. AreValueWords texts.now.name.now texts.now.written.now
        texts.now.plain.now (wrong_paths fault.now (map note_of notes.now)) (string_bytes words)) }
{
    let mut words = String::new(alloc);
    let mut count = 0;
    for note in notes {
        if is_wrong_besides(note, fault) {
            if count == MOST_PLACES {
                put_more_values(&mut words, texts.name)?;
                return Ok(words);
            }
            count += 1;
            let about_value = value_lines(alloc, texts, note.path.as_str())?;
            words.push_str(about_value.as_str())?;
        }
    }
    Ok(words)
}

// Prints that more values are wrong than are shown.
#[tactic(auto, unfolding(crate::specs::KeaWords::more_values))]
fn put_more_values(words: &mut String, name: &str) -> Result<(), AllocError>
    ensures { OnOk result (string_bytes words.new
        ≡ string_bytes words.old ++ more_values name.now) }
{
    words.push_str(name)?;
    words.push_str(": more values are wrong\n")
}

// Returns what is said of a value that is wrong.
fn value_lines(alloc: Global, texts: &Texts<'_>, path: &str) -> Result<String, AllocError>
    ensures { IfOk result (λ words. IsSaidOfValue texts.now.name.now texts.now.written.now
        texts.now.plain.now path.now (string_bytes words)) }
{
    let Texts {
        name,
        written,
        plain,
    } = *texts;
    located_value_report(alloc, name, plain, written, path, WRONG)
}

// Reports whether a note is on a value that is wrong, and the first fault is not in it.
fn is_wrong_besides(note: &Note, fault: &ConfigFault) -> bool
    ensures { result ≡ is_wrong_beside fault.now (note_of note.now) }
{
    match note.kind {
        NoteKind::Wrong => !has_fault(note.path.as_str(), fault),
        NoteKind::Unknown => false,
        NoteKind::Skipped => false,
    }
}

// Reports whether a fault is that of the value at a path, or of something in it.
fn has_fault(path: &str, fault: &ConfigFault) -> bool
    ensures { result ≡ is_of_value path.now (words_at_path fault.now) }
{
    match path_words(fault) {
        Some((place, _)) => is_inside(place.as_bytes(), path.as_bytes()),
        None => false,
    }
}

// Reports whether a path is another one, or leads to something in what is there.
fn is_inside(path: &[u8], outer: &[u8]) -> bool
    ensures { result ≡ leads_into path.now outer.now }
{
    path.starts_with(outer) && may_follow(path.get(outer.len()))
}

// Reports whether a path of something in a value may go on like this behind that of the value.
fn may_follow(sign: Option<&u8>) -> bool
    ensures { result ≡ is_path_end (option_copied sign.entry) }
{
    match sign {
        Some(sign) => *sign == b'/',
        None => true,
    }
}

// Returns what is said of a fault.
fn fault_words(
    alloc: Global,
    texts: &Texts<'_>,
    fault: &ConfigFault,
    notes: &[Note],
) -> Result<String, AllocError>
    ensures { IfOk result (λ words. IsSaidOfFault texts.now.name.now texts.now.written.now
        texts.now.plain.now (map note_of notes.now) fault.now (string_bytes words)) }
{
    match path_words(fault) {
        Some((path, what)) => words_at(alloc, texts, path.as_str(), what, notes),
        None => config_report(alloc, texts.name, texts.plain, fault),
    }
}

// Returns what is said of a fault at a path: nothing, if the key there is refused.
fn words_at(
    alloc: Global,
    texts: &Texts<'_>,
    path: &str,
    what: &str,
    notes: &[Note],
) -> Result<String, AllocError>
    ensures { IfOk result (λ words. IsSaidAt texts.now.name.now texts.now.written.now
        texts.now.plain.now (map note_of notes.now) (path.now, what.now) (string_bytes words)) }
{
    if is_noted(path, notes) {
        return Ok(String::new(alloc));
    }
    let Texts {
        name,
        written,
        plain,
    } = *texts;
    located_value_report(alloc, name, plain, written, path, what)
}

// Prints a line for each key that is skipped.
fn put_skipped(words: &mut String, name: &str, notes: &[Note]) -> Result<(), AllocError>
    ensures { OnOk result (string_bytes words.new
        ≡ string_bytes words.old ++ skipped_lines name.now (map note_of notes.now)) }
{
    for note in notes {
        put_note(words, name, note)?;
    }
    Ok(())
}

// Prints the line about a key that is not read, unless it is refused.
fn put_note(words: &mut String, name: &str, note: &Note) -> Result<(), AllocError>
    ensures { OnOk result (string_bytes words.new ≡ string_bytes words.old
        ++ line_of_kind name.now (string_bytes note.now.path) note.now.kind) }
{
    match note.kind {
        NoteKind::Skipped => put_skipped_key(words, name, note.path.as_str()),
        NoteKind::Unknown => Ok(()),
        NoteKind::Wrong => Ok(()),
    }
}

// Prints the line about a key that is skipped.
#[tactic(auto, unfolding(crate::specs::KeaWords::skipped_line))]
fn put_skipped_key(words: &mut String, name: &str, path: &str) -> Result<(), AllocError>
    ensures { OnOk result
        (string_bytes words.new ≡ string_bytes words.old ++ skipped_line name.now path.now) }
{
    words.push_str(name)?;
    words.push_str(": ")?;
    words.push_str(path)?;
    words.push_str(": skipped, no client notices it\n")
}

// Reports whether the key at a path is refused.
fn is_noted(path: &str, notes: &[Note]) -> bool
    ensures { result ≡ list_any
        (λ note. is_unknown note.kind && bytes_eq (string_bytes note.path) path.now) notes.now }
{
    notes.iter().any(|note| is_refused_with(path, note))
}

// Reports whether a note is on a key that is refused, and this is its path.
fn is_refused_with(path: &str, note: &Note) -> bool
    ensures { result
        ≡ (is_unknown note.now.kind && bytes_eq (string_bytes note.now.path) path.now) }
{
    is_refused(note) && note.path.as_str() == path
}

// Reports whether a note is on a key that is refused.
fn is_refused(note: &Note) -> bool
    ensures { result ≡ is_unknown note.now.kind }
{
    match note.kind {
        NoteKind::Unknown => true,
        NoteKind::Wrong => false,
        NoteKind::Skipped => false,
    }
}
