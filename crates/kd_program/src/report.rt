ghost use Rattle.std.specs.Prelude.{◌≡◌, ◌++◌, ℕ, Bool, IfOk, List, Ok, OnOk, codes, decimal, option_map, string_bytes};
ghost use Rattle.kd_program.specs.Advice.{AreRemarks, IsAboutConfig, IsAboutContent, name_of, size_line, size_text};
ghost use Rattle.kd_program.specs.Report.{IsPlain, IsCheckReport, IsTestReport, IsLeftOut, ahead_text, behind_text, damaged_line, finding_text, log_line, seen_rows_text, seen_text, plain_byte, shown_text, socket_lines, socket_text, store_line, store_lines, unread_reason, unused_line};

use crate::advice::put_advice;
use crate::banner::{pool_addresses, put_place};
use crate::checking::{Found, SeenRows, StoreFinding};
use crate::host::Host;
use kd_commands::{Files, Form, Place};
use kd_config::Config;
use kd_io::LookFault;
use kd_keeps::StoreFault;
use kd_names::{put_signs, signs_of};
use kd_trouble::{SocketTrouble, StartFault, StoreTrouble};
use std::alloc::{AllocError, Global};
use std::fmt::Write;

// Returns, in words, what the steps of a start found: a few lines.
pub(crate) fn report_of<H: Host>(
    alloc: Global,
    host: &H,
    files: &Files,
    found: &Found<'_>,
) -> Result<String, AllocError>
    ensures { IfOk result (λ text. IsCheckReport H.Host host.now files.now found.now.config.now
        found.now.store.now found.now.place found.now.socket (string_bytes text)) }
{
    let mut text = String::new(alloc);
    put_config(alloc, &mut text, host, files, found.config)?;
    let left_out = left_out_of(host, files);
    put_store_lines(alloc, &mut text, &files.store, found.store, left_out)?;
    put_socket(&mut text, found.place, found.socket)?;
    lines_shown(alloc, text.as_bytes())
}

// Returns, in words, what was found in a configuration: a few lines.
pub(crate) fn config_report_of<H: Host>(
    alloc: Global,
    host: &H,
    files: &Files,
    config: &Result<Config, StartFault>,
) -> Result<String, AllocError>
    ensures { IfOk result (λ text. IsTestReport H.Host host.now files.now config.now
        (string_bytes text)) }
{
    let mut text = String::new(alloc);
    put_config(alloc, &mut text, host, files, config)?;
    lines_shown(alloc, text.as_bytes())
}

// Asks the host how many bytes of the store's log a start leaves out, if there is a path.
fn left_out_of<H: Host>(host: &H, files: &Files) -> Option<usize>
    ensures { IsLeftOut H.Host host.now (option_map string_bytes files.now.store) result }
{
    match &files.store {
        Some(path) => host.left_out(path.as_str()),
        None => None,
    }
}

// Returns lines as a terminal may show them: what is no line feed and outside 0x20 to 0x7e, as the
// name of a class may be, as `\x` and two hexadecimal digits.
#[tactic(auto, using(crate::proofs::Reported::both_plain))]
fn lines_shown(alloc: Global, text: &[u8]) -> Result<String, AllocError>
    ensures exact { IfOk result (λ shown. string_bytes shown ≡ shown_text text.now) }
    ensures plain { IfOk result (λ shown. IsPlain (string_bytes shown)) }
{
    let mut shown = String::new(alloc);
    for byte in text {
        put_shown(alloc, &mut shown, *byte)?;
    }
    Ok(shown)
}

// Prints a byte as a terminal may show it.
#[tactic(auto, unfolding(crate::specs::Report::plain_byte))]
fn put_shown(alloc: Global, shown: &mut String, byte: u8) -> Result<(), AllocError>
    ensures exact { OnOk result
        (string_bytes shown.new ≡ string_bytes shown.old ++ plain_byte byte) }
    ensures plain { IsPlain (plain_byte byte) }
{
    if byte == b'\n' || (b' ' <= byte && byte <= b'~') {
        return shown.push(char::from(byte));
    }
    put_signs(alloc, shown, &[byte])
}

// Prints what was found out about a configuration.
fn put_config<H: Host>(
    alloc: Global,
    text: &mut String,
    host: &H,
    files: &Files,
    config: &Result<Config, StartFault>,
) -> Result<(), AllocError>
    ensures { OnOk result ((about : List ℕ)
        × IsAboutConfig H.Host host.now files.now config.now about
        × (string_bytes text.new ≡ string_bytes text.old ++ about)) }
{
    match config {
        Ok(config) => put_configured(alloc, text, host, files, config),
        Err(fault) => put_fault(text, host, files, fault),
    }
}

// Prints how much a configuration contains, what is probably a mistake, and remarks on its keys.
fn put_configured<H: Host>(
    alloc: Global,
    text: &mut String,
    host: &H,
    files: &Files,
    config: &Config,
) -> Result<(), AllocError>
    ensures { OnOk result ((about : List ℕ)
        × IsAboutConfig H.Host host.now files.now (Ok config.now) about
        × (string_bytes text.new ≡ string_bytes text.old ++ about)) }
{
    put_content(alloc, text, host, &files.config, config)?;
    put_remarks(text, host, files)
}

// Prints how much a configuration contains, and what is probably a mistake.
fn put_content<H: Host>(
    alloc: Global,
    text: &mut String,
    host: &H,
    file: &Option<String>,
    config: &Config,
) -> Result<(), AllocError>
    ensures { OnOk result ((content : List ℕ)
        × IsAboutContent H.Host host.now (option_map string_bytes file.now) config.now content
        × (string_bytes text.new ≡ string_bytes text.old ++ content)) }
{
    let name = name_in(alloc, file)?;
    put_size(text, name.as_str(), config)?;
    put_advice(text, host, name.as_str(), config)?;
    Ok(())
}

// Prints what the host remarks on the keys of a file, unless it has our own form.
fn put_remarks<H: Host>(text: &mut String, host: &H, files: &Files) -> Result<(), AllocError>
    ensures { OnOk result ((remarks : List ℕ)
        × AreRemarks H.Host host.now files.now files.now.form remarks
        × (string_bytes text.new ≡ string_bytes text.old ++ remarks)) }
{
    match files.form {
        Form::Own => Ok(()),
        Form::Kea(_) => put_kea_remarks(text, host, files),
    }
}

// Prints what the host remarks on the keys of a file.
fn put_kea_remarks<H: Host>(text: &mut String, host: &H, files: &Files) -> Result<(), AllocError>
    ensures { OnOk result ((remarks : List ℕ) × H.remarked host.now files.now remarks
        × (string_bytes text.new ≡ string_bytes text.old ++ remarks)) }
{
    let remarks = host.remarks(files)?;
    text.push_str(remarks.as_str())
}

// Returns the name of a configuration: the path of its file, as a terminal may show it, or what it
// is.
fn name_in(alloc: Global, file: &Option<String>) -> Result<String, AllocError>
    ensures { IfOk result
        (λ name. string_bytes name ≡ name_of (option_map string_bytes file.now)) }
{
    match file {
        Some(path) => signs_of(alloc, path.as_bytes()),
        None => signs_of(alloc, "the built-in configuration".as_bytes()),
    }
}

// Prints how much a configuration contains.
fn put_size(text: &mut String, name: &str, config: &Config) -> Result<(), AllocError>
    ensures { OnOk result
        (string_bytes text.new ≡ string_bytes text.old ++ size_line name.now config.now) }
{
    let subnets = config.subnets();
    put_amounts(text, name, subnets.len(), pool_addresses(subnets))
}

fn put_amounts(
    text: &mut String,
    name: &str,
    subnets: usize,
    addresses: u64,
) -> Result<(), AllocError>
    ensures { OnOk result (string_bytes text.new
        ≡ string_bytes text.old ++ size_text name.now subnets addresses) }
{
    text.push_str(name)?;
    write!(text, ": subnets {subnets}, addresses {addresses}")?;
    text.push_str("\n")?;
    Ok(())
}

// Prints, in words, why there is no configuration.
fn put_fault<H: Host>(
    text: &mut String,
    host: &H,
    files: &Files,
    fault: &StartFault,
) -> Result<(), AllocError>
    ensures { OnOk result ((words : List ℕ) × H.explains host.now files.now fault.now words
        × (string_bytes text.new ≡ string_bytes text.old ++ words)) }
{
    let words = host.start_words(files, fault)?;
    text.push_str(words.as_str())?;
    Ok(())
}

// Prints what was found out about the store at a path and its log, if there is a path.
#[tactic(auto, unfolding(crate::specs::Report::store_lines))]
fn put_store_lines(
    alloc: Global,
    text: &mut String,
    path: &Option<String>,
    store: &StoreFinding,
    left_out: Option<usize>,
) -> Result<(), AllocError>
    ensures { OnOk result (string_bytes text.new ≡ string_bytes text.old
        ++ store_lines (option_map string_bytes path.now) store.now left_out) }
{
    match path {
        Some(path) => {
            let name = signs_of(alloc, path.as_bytes())?;
            put_store(text, name.as_str(), store)?;
            put_log(text, name.as_str(), store, left_out)
        }
        None => Ok(()),
    }
}

// Prints what was found out about a store.
#[tactic(auto, unfolding(crate::specs::Report::store_line))]
fn put_store(text: &mut String, name: &str, store: &StoreFinding) -> Result<(), AllocError>
    ensures { OnOk result
        (string_bytes text.new ≡ string_bytes text.old ++ store_line name.now store.now) }
{
    text.push_str(name)?;
    put_finding(text, store)?;
    text.push_str("\n")
}

// Prints what was found out about a store, without its name.
#[tactic(auto, unfolding(crate::specs::Report::finding_text))]
fn put_finding(text: &mut String, store: &StoreFinding) -> Result<(), AllocError>
    ensures { OnOk result
        (string_bytes text.new ≡ string_bytes text.old ++ finding_text store.now) }
{
    match store {
        StoreFinding::Unasked => Ok(()),
        StoreFinding::New => text.push_str(
            ": not there yet, serve makes it if this account may write in its folder",
        ),
        StoreFinding::Trouble(trouble) => put_words(text, trouble.words()),
        StoreFinding::Unread(fault) => put_words(text, words_of_unread(*fault)),
        StoreFinding::Memory => text.push_str(": out of memory"),
        StoreFinding::Open(seen) => put_seen(text, *seen),
    }
}

// Prints words after a name.
fn put_words(text: &mut String, words: &str) -> Result<(), AllocError>
    ensures { OnOk result
        (string_bytes text.new ≡ string_bytes text.old ++ (codes ": " ++ words.now)) }
{
    text.push_str(": ")?;
    text.push_str(words)
}

// Returns, in words, why the rows of a database are not read.
fn words_of_unread(fault: LookFault) -> &'static str
    ensures { result.now ≡ unread_reason fault }
{
    match fault {
        LookFault::Input(_) => "its files can't be read",
        LookFault::Unsettled => "it was changed at each try, try again",
        LookFault::NoTable => "no table of leases yet, serve makes it",
        LookFault::Store(StoreFault::Schema) => StoreTrouble::Schema.words(),
        LookFault::Store(StoreFault::Sql(_)) => "it is no database, or damaged",
    }
}

// Prints what was found out about the log of a database that was read, if a server leaves some of it
// out.
fn put_log(
    text: &mut String,
    name: &str,
    store: &StoreFinding,
    left_out: Option<usize>,
) -> Result<(), AllocError>
    ensures { OnOk result
        (string_bytes text.new ≡ string_bytes text.old ++ log_line name.now store.now left_out) }
{
    match (store, left_out) {
        (StoreFinding::Open(_), Some(bytes)) => put_damaged(text, name, bytes),
        (StoreFinding::Unread(LookFault::NoTable), Some(bytes)) => put_unused(text, name, bytes),
        _ => Ok(()),
    }
}

// Prints the line about a damaged log.
#[tactic(auto, unfolding(crate::specs::Report::damaged_line))]
fn put_damaged(text: &mut String, name: &str, bytes: usize) -> Result<(), AllocError>
    ensures { OnOk result
        (string_bytes text.new ≡ string_bytes text.old ++ damaged_line name.now bytes) }
{
    text.push_str(name)?;
    text.push_str("-wal: damaged, serve leaves out the ")?;
    write!(text, "{bytes}")?;
    text.push_str(" bytes behind its last good commit\n")
}

// Prints the line about a log without a table.
#[tactic(auto, unfolding(crate::specs::Report::unused_line))]
fn put_unused(text: &mut String, name: &str, bytes: usize) -> Result<(), AllocError>
    ensures { OnOk result
        (string_bytes text.new ≡ string_bytes text.old ++ unused_line name.now bytes) }
{
    text.push_str(name)?;
    write!(text, "-wal: serve leaves out {bytes} bytes of it\n")
}

// Prints what was found out about the rows of a store.
fn put_seen(text: &mut String, seen: SeenRows) -> Result<(), AllocError>
    ensures { OnOk result (string_bytes text.new ≡ string_bytes text.old ++ seen_text seen) }
{
    if seen.count == 0 {
        text.push_str(": leases 0, latest change -")
    } else {
        put_rows(text, seen)
    }
}

// Prints what was found out about some rows.
#[tactic(auto, unfolding(crate::specs::Report::seen_rows_text))]
fn put_rows(text: &mut String, seen: SeenRows) -> Result<(), AllocError>
    ensures { OnOk result (string_bytes text.new ≡ string_bytes text.old ++ seen_rows_text seen) }
{
    let SeenRows {
        count,
        latest,
        moment,
        is_behind,
    } = seen;
    text.push_str(": leases ")?;
    write!(text, "{count}")?;
    text.push_str(", latest change ")?;
    write!(text, "{latest}")?;
    put_ahead(text, latest, moment)?;
    put_behind(text, is_behind)
}

// Prints how far a time is ahead of the clock, if it is.
#[tactic(auto, unfolding(crate::specs::Report::ahead_text))]
fn put_ahead(text: &mut String, latest: u64, moment: u64) -> Result<(), AllocError>
    ensures { OnOk result
        (string_bytes text.new ≡ string_bytes text.old ++ ahead_text latest moment) }
{
    if latest <= moment {
        return Ok(());
    }
    let by = latest - moment;
    write!(text, ", which is {by} seconds ahead of the clock")
}

// Prints whether the clock is too far behind.
fn put_behind(text: &mut String, is_behind: bool) -> Result<(), AllocError>
    ensures { OnOk result (string_bytes text.new ≡ string_bytes text.old ++ behind_text is_behind) }
{
    if is_behind {
        return text.push_str(", more than --max-ahead");
    }
    Ok(())
}

// Prints what was found out about a socket.
#[tactic(auto, unfolding(crate::specs::Report::socket_lines))]
fn put_socket(
    text: &mut String,
    place: Place,
    socket: Result<bool, SocketTrouble>,
) -> Result<(), AllocError>
    ensures { OnOk result
        (string_bytes text.new ≡ string_bytes text.old ++ socket_lines place socket) }
{
    put_place(text, place.bind, place.port)?;
    text.push_str(": ")?;
    put_answer(text, socket)
}

// Prints whether a socket is free, or why it cannot be opened.
fn put_answer(text: &mut String, socket: Result<bool, SocketTrouble>) -> Result<(), AllocError>
    ensures { OnOk result (string_bytes text.new ≡ string_bytes text.old ++ socket_text socket) }
{
    match socket {
        Ok(true) => text.push_str("free\n"),
        Ok(false) => text.push_str(
            "free\n255.255.255.255: there is no route, so clients without an address get no answer, unless the socket unit names their link (BindToDevice)\n",
        ),
        Err(trouble) => {
            text.push_str(trouble.words())?;
            text.push_str("\n")
        }
    }
}
