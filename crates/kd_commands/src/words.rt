ghost use Rattle.std.specs.Prelude.{◌≡◌, ◌↔◌, IfErr, IfOk, None, Some, codes, if◌then◌else◌, map};
ghost use Rattle.std.specs.Prelude.{option_and_then, option_map};
ghost use Rattle.std.specs.String.{string_bytes};
ghost use Rattle.clap.specs.Words.{kind_of, subcommand_rows_of};
ghost use Rattle.kd_commands.specs.Line.{IsHelpLine, IsLine, IsVersionLine};
ghost use Rattle.kd_commands.specs.Order.{Asked, Asks, AsksFor, GivesUnlessFull, HasFault, HelpsUnlessFull};
ghost use Rattle.kd_commands.specs.Order.{IsVersionUnlessFull};
ghost use Rattle.kd_commands.specs.Order.{answering_of, asked_by, asked_of, checking_of, compiles, evaluates};
ghost use Rattle.kd_commands.specs.Order.{evaluation_of, filtering_of, flag_is_given, given_by, imports, listening_of};
ghost use Rattle.kd_commands.specs.Order.{paths_bound, paths_in, paths_of, paths_with, pools_sight, replaying_of, serving_of, showing_of};
ghost use Rattle.kd_commands.specs.Order.{sight_of, tests, tries, trying_of, types, verifies, view_with, viewing_of};
ghost use Rattle.kd_commands.specs.Values.{address_of, event_line_of, hardware_of, host_address_of, number_of, port_of, read_if_given, read_or};
ghost use Rattle.kd_commands.specs.Steps.{AnswersKind, GivesIfThere, GivesPaths, matched_texts};

use crate::address::address_in;
use crate::fault::LineFault;
use crate::hardware::hardware_in;
use crate::line::kdhcp;
use crate::number::{event_line_in, number_in, port_in};
use crate::orders::{Files, Form, Listening, Order, Place, Service, View, Work};
use clap::ArgMatches;
use clap::error::ErrorKind;
use std::alloc::{AllocError, Global};

// 127.0.0.1, where `serve` has its socket if no address is given.
const LOOPBACK: u32 = 0x7f00_0001;

// The port of servers (RFC 2131 section 4.1).
const SERVER_PORT: u16 = 67;

// The port of clients.
const CLIENT_PORT: u16 = 68;

/// Returns the order that the arguments give. The arguments are those after the program's name.
///
/// # Errors
///
/// `CommandLine` if the arguments are not a command of the program, the text of an option is out of
/// range or malformed, or options are given that do not go together: `--live` without `--store`,
/// `--kea` with `--config` or `--token-dir`, `--server-address` without `--kea`. `Memory` if memory
/// runs out.
pub fn order(alloc: Global, words: &[String]) -> Result<Order, LineFault>
    ensures order { IfOk result (AsksFor (map string_bytes words.now)) }
    ensures fault { IfErr result (HasFault (map string_bytes words.now)) }
    ensures only { (asked : Asked) → Asks (map string_bytes words.now) asked
        → GivesUnlessFull asked result }
    ensures line { (asked : Asked) → Asks (map string_bytes words.now) asked
        ↔ IsLine (map string_bytes words.now) asked }
    ensures help { IsHelpLine (map string_bytes words.now) → HelpsUnlessFull result }
    ensures version { IsVersionLine (map string_bytes words.now) → IsVersionUnlessFull result }
{
    let command = kdhcp(alloc)?;
    match command.try_get_matches_from(words) {
        Ok(matches) => order_from(alloc, &matches),
        Err(error) => answer_to(alloc, &error),
    }
}

// Returns what the matches of the command line ask for.
fn order_from(alloc: Global, matches: &ArgMatches<'_>) -> Result<Order, LineFault>
    ensures { GivesIfThere (asked_of (subcommand_rows_of matches.now)) result }
{
    match matches.subcommand() {
        Some((name, inner)) => order_named(alloc, name, inner),
        None => Err(LineFault::CommandLine),
    }
}

// Returns what the matches of the subcommand with this name ask for.
fn order_named(alloc: Global, name: &str, inner: &ArgMatches<'_>) -> Result<Order, LineFault>
    ensures { GivesIfThere (asked_by name.now (matched_texts inner.now)) result }
{
    match name {
        "show" => show_order(alloc, inner),
        "expr" => expr_order(alloc, inner),
        "compile" => compile_order(alloc, inner),
        "verify" => verify_order(alloc, inner),
        "eval" => eval_order(alloc, inner),
        "replay" => replay_order(alloc, inner),
        "leases" => listing_order(alloc, View::Leases, inner),
        "pools" => pools_order(alloc, inner),
        "why" => why_order(alloc, inner),
        "import" => import_order(alloc, inner),
        "events" => events_order(alloc, inner),
        "test" => test_order(alloc, inner),
        "check" => check_order(alloc, inner),
        "serve" => serve_order(alloc, inner),
        _ => Err(LineFault::CommandLine),
    }
}

// Returns what the matches of `show` ask for.
fn show_order(alloc: Global, matches: &ArgMatches<'_>) -> Result<Order, LineFault>
    ensures { GivesIfThere (showing_of (matched_texts matches.now)) result }
{
    let names = is_flagged(matches.get_str("names"));
    match text_of(alloc, matches, "HEX")? {
        Some(hex) => Ok(Order::Show { hex, names }),
        None => Err(LineFault::CommandLine),
    }
}

// Returns what the matches of `expr` ask for.
fn expr_order(alloc: Global, matches: &ArgMatches<'_>) -> Result<Order, LineFault>
    ensures { GivesIfThere (option_map (λ text. types text)
        (matched_texts matches.now (codes "TEXT"))) result }
{
    match text_of(alloc, matches, "TEXT")? {
        Some(text) => Ok(Order::Expr { text }),
        None => Err(LineFault::CommandLine),
    }
}

// Returns what the matches of `compile` ask for.
fn compile_order(alloc: Global, matches: &ArgMatches<'_>) -> Result<Order, LineFault>
    ensures { GivesIfThere (option_map (λ text. compiles text)
        (matched_texts matches.now (codes "TEXT"))) result }
{
    let text = text_of(alloc, matches, "TEXT")?;
    match text {
        Some(text) => Ok(Order::Compile { text }),
        None => Err(LineFault::CommandLine),
    }
}

// Returns what the matches of `verify` ask for.
fn verify_order(alloc: Global, matches: &ArgMatches<'_>) -> Result<Order, LineFault>
    ensures { GivesIfThere (option_map (λ hex. verifies hex)
        (matched_texts matches.now (codes "HEX"))) result }
{
    match text_of(alloc, matches, "HEX")? {
        Some(hex) => Ok(Order::Verify { hex }),
        None => Err(LineFault::CommandLine),
    }
}

// Returns what the matches of `eval` ask for.
fn eval_order(alloc: Global, matches: &ArgMatches<'_>) -> Result<Order, LineFault>
    ensures { GivesIfThere (evaluation_of (matched_texts matches.now)) result }
{
    let is_text = is_flagged(matches.get_str("text"));
    match text_of(alloc, matches, "PROGRAM")? {
        Some(program) => match text_of(alloc, matches, "DATAGRAM")? {
            Some(datagram) => Ok(evaluation(is_text, program, datagram)),
            None => Err(LineFault::CommandLine),
        },
        None => Err(LineFault::CommandLine),
    }
}

// Returns the order of `eval`. Its first text is a class test or a token file.
fn evaluation(is_text: bool, program: String, datagram: String) -> Order
    ensures { given_by result
        ≡ Some (if is_text then tests (string_bytes program) (string_bytes datagram)
        else evaluates (string_bytes program) (string_bytes datagram)) }
{
    if is_text {
        Order::EvalText {
            text: program,
            datagram,
        }
    } else {
        Order::Eval { program, datagram }
    }
}

// Reports whether a flag was given, from its value.
fn is_flagged(value: Option<&str>) -> bool
    ensures { result ≡ flag_is_given (option_map (λ s. s.now) value.entry) }
{
    match value {
        Some(text) => text == "true",
        None => false,
    }
}

// Returns the files in the matches.
fn files_of(alloc: Global, matches: &ArgMatches<'_>) -> Result<Files, LineFault>
    ensures { GivesPaths (paths_of (matched_texts matches.now)) result }
{
    let Some(server) = host_if_given(matches.get_str("server-address")) else {
        return Err(LineFault::CommandLine);
    };
    let config = text_of(alloc, matches, "config")?;
    let kea = text_of(alloc, matches, "kea")?;
    let token_dir = text_of(alloc, matches, "token-dir")?;
    let store = text_of(alloc, matches, "store")?;
    files_with(config, kea, server, token_dir, store)
}

// Returns the files with these paths: a configuration in Kea's form has no token files, and only
// there an address of the server is given.
fn files_with(
    config: Option<String>,
    kea: Option<String>,
    server: Option<u32>,
    token_dir: Option<String>,
    store: Option<String>,
) -> Result<Files, LineFault>
    ensures { GivesPaths (paths_with (option_map string_bytes config)
        (option_map string_bytes kea) server (option_map string_bytes token_dir)
        (option_map string_bytes store)) result }
{
    match (kea, server) {
        (None, None) => Ok(Files {
            config,
            form: Form::Own,
            token_dir,
            store,
        }),
        (Some(file), server) if config.is_none() && token_dir.is_none() => Ok(Files {
            config: Some(file),
            form: Form::Kea(server),
            token_dir,
            store,
        }),
        _ => Err(LineFault::CommandLine),
    }
}

// Returns these files for work that has a socket at an address: it is the server's address if it is
// one of a host and no other is given.
fn files_at_socket(files: Files, address: u32) -> Files
    ensures { paths_in result ≡ paths_bound address (paths_in files) }
{
    let form = match files.form {
        Form::Kea(None) if address != 0 => Form::Kea(Some(address)),
        form => form,
    };
    Files { form, ..files }
}

// Returns what the matches of `replay` ask for.
fn replay_order(alloc: Global, matches: &ArgMatches<'_>) -> Result<Order, LineFault>
    ensures { GivesIfThere (replaying_of (matched_texts matches.now)) result }
{
    let Some(why) = event_line_if_given(matches.get_str("why")) else {
        return Err(LineFault::CommandLine);
    };
    let files = files_of(alloc, matches)?;
    let work = match why {
        Some(line) => Work::Explain(line),
        None => Work::Replay,
    };
    Ok(Order::Over { files, work })
}

// Returns what the matches of `leases`, `pools` or `why` ask for, by what is printed.
fn listing_order(alloc: Global, view: View, matches: &ArgMatches<'_>) -> Result<Order, LineFault>
    ensures { GivesIfThere (viewing_of (sight_of view) (matched_texts matches.now)) result }
{
    let Some(at) = number_given(matches.get_str("at")) else {
        return Err(LineFault::CommandLine);
    };
    let live = is_flagged(matches.get_str("live"));
    let files = files_of(alloc, matches)?;
    show_at(files, view, at, live)
}

// Returns what the matches of `pools` ask for.
fn pools_order(alloc: Global, matches: &ArgMatches<'_>) -> Result<Order, LineFault>
    ensures { GivesIfThere (viewing_of
        (pools_sight (matched_texts matches.now (codes "prometheus")))
        (matched_texts matches.now)) result }
{
    let view = if is_flagged(matches.get_str("prometheus")) {
        View::Metrics
    } else {
        View::Pools
    };
    listing_order(alloc, view, matches)
}

// Returns what the matches of `why` ask for.
fn why_order(alloc: Global, matches: &ArgMatches<'_>) -> Result<Order, LineFault>
    ensures { GivesIfThere (answering_of (matched_texts matches.now)) result }
{
    match text_of(alloc, matches, "HEX")? {
        Some(hex) => listing_order(alloc, View::Why(hex), matches),
        None => Err(LineFault::CommandLine),
    }
}

// Returns the order that prints a view of the store of these files at a time.
fn show_at(files: Files, view: View, at: u64, live: bool) -> Result<Order, LineFault>
    ensures { GivesIfThere (view_with (paths_in files) (sight_of view) at live) result }
{
    if live && files.store.is_none() {
        return Err(LineFault::CommandLine);
    }
    let work = Work::Show { view, at, live };
    Ok(Order::Over { files, work })
}

// Returns what the matches of `import` ask for.
fn import_order(alloc: Global, matches: &ArgMatches<'_>) -> Result<Order, LineFault>
    ensures { GivesIfThere (option_map (λ store. imports store)
        (matched_texts matches.now (codes "store"))) result }
{
    match text_of(alloc, matches, "store")? {
        Some(store) => Ok(Order::Import { store }),
        None => Err(LineFault::CommandLine),
    }
}

// Returns what the matches of `events` ask for.
fn events_order(alloc: Global, matches: &ArgMatches<'_>) -> Result<Order, LineFault>
    ensures { GivesIfThere (filtering_of (matched_texts matches.now)) result }
{
    let Some(mac) = hardware_if_given(alloc, matches.get_str("mac"))? else {
        return Err(LineFault::CommandLine);
    };
    let Some(address) = address_if_given(matches.get_str("address")) else {
        return Err(LineFault::CommandLine);
    };
    Ok(Order::Events { mac, address })
}

// Returns what the matches of `test` ask for.
fn test_order(alloc: Global, matches: &ArgMatches<'_>) -> Result<Order, LineFault>
    ensures { GivesIfThere (trying_of (matched_texts matches.now)) result }
{
    let files = files_of(alloc, matches)?;
    Ok(Order::Test { files })
}

// Returns what the matches of `check` ask for.
fn check_order(alloc: Global, matches: &ArgMatches<'_>) -> Result<Order, LineFault>
    ensures { GivesIfThere (checking_of (matched_texts matches.now)) result }
{
    let Some(bind) = address_or(matches.get_str("bind"), LOOPBACK) else {
        return Err(LineFault::CommandLine);
    };
    let Some(port) = port_or(matches.get_str("port"), SERVER_PORT) else {
        return Err(LineFault::CommandLine);
    };
    let Some(max_ahead) = number_if_given(matches.get_str("max-ahead")) else {
        return Err(LineFault::CommandLine);
    };
    let files = files_at_socket(files_of(alloc, matches)?, bind);
    let place = Place {
        bind,
        port,
        max_ahead,
    };
    Ok(Order::Check { files, place })
}

// Returns what the matches of `serve` ask for.
fn serve_order(alloc: Global, matches: &ArgMatches<'_>) -> Result<Order, LineFault>
    ensures { GivesIfThere (serving_of (matched_texts matches.now)) result }
{
    let Some(listening) = listening_in(matches) else {
        return Err(LineFault::CommandLine);
    };
    let Some(count) = number_given(matches.get_str("count")) else {
        return Err(LineFault::CommandLine);
    };
    let Some(max_ahead) = number_if_given(matches.get_str("max-ahead")) else {
        return Err(LineFault::CommandLine);
    };
    let files = files_at_socket(files_of(alloc, matches)?, listening.bind);
    let journal = text_of(alloc, matches, "record")?;
    let work = Work::Serve(Service {
        listening,
        count,
        journal,
        max_ahead,
    });
    Ok(Order::Over { files, work })
}

// Returns where the matches of `serve` place the socket, and where they send replies.
fn listening_in(matches: &ArgMatches<'_>) -> Option<Listening>
    ensures { result ≡ listening_of (matched_texts matches.now) }
{
    let bind = address_or(matches.get_str("bind"), LOOPBACK)?;
    let port = port_or(matches.get_str("port"), SERVER_PORT)?;
    let client_port = port_or(matches.get_str("client-port"), CLIENT_PORT)?;
    let broadcast_as = address_if_given(matches.get_str("broadcast-as"))?;
    let mirror = is_flagged(matches.get_str("mirror"));
    Some(Listening {
        bind,
        port,
        client_port,
        broadcast_as,
        mirror,
    })
}

// Returns the address of an argument, or the standard one if the argument is absent.
fn address_or(value: Option<&str>, standard: u32) -> Option<u32>
    ensures { result ≡ read_or address_of standard (option_map (λ s. s.now) value.entry) }
{
    match value {
        Some(text) => address_in(text),
        None => Some(standard),
    }
}

// Returns the address of an argument, if the argument is given.
fn address_if_given(value: Option<&str>) -> Option<Option<u32>>
    ensures { result ≡ read_if_given address_of (option_map (λ s. s.now) value.entry) }
{
    match value {
        Some(text) => Some(Some(address_in(text)?)),
        None => Some(None),
    }
}

// Returns the address of a host in an argument, if the argument is given.
fn host_if_given(value: Option<&str>) -> Option<Option<u32>>
    ensures { result ≡ read_if_given host_address_of (option_map (λ s. s.now) value.entry) }
{
    match value {
        Some(text) => match address_in(text)? {
            0 => None,
            address => Some(Some(address)),
        },
        None => Some(None),
    }
}

// Returns the hardware address of an argument, if the argument is given.
fn hardware_if_given(
    alloc: Global,
    value: Option<&str>,
) -> Result<Option<Option<Vec<u8>>>, AllocError>
    ensures { IfOk result (λ mac. option_map (option_map (λ bytes. bytes.items)) mac
        ≡ read_if_given hardware_of (option_map (λ s. s.now) value.entry)) }
{
    match value {
        Some(text) => match hardware_in(alloc, text)? {
            Some(mac) => Ok(Some(Some(mac))),
            None => Ok(None),
        },
        None => Ok(Some(None)),
    }
}

// Returns the port of an argument, or the standard one if the argument is absent.
fn port_or(value: Option<&str>, standard: u16) -> Option<u16>
    ensures { result ≡ read_or port_of standard (option_map (λ s. s.now) value.entry) }
{
    match value {
        Some(text) => port_in(text),
        None => Some(standard),
    }
}

// Returns the number of an argument, if the argument is given and is a number.
fn number_given(value: Option<&str>) -> Option<u64>
    ensures { result ≡ option_and_then (λ text. number_of text.now) value.entry }
{
    match value {
        Some(text) => number_in(text),
        None => None,
    }
}

// Returns the number of an argument, if the argument is given.
fn number_if_given(value: Option<&str>) -> Option<Option<u64>>
    ensures { result ≡ read_if_given number_of (option_map (λ s. s.now) value.entry) }
{
    match value {
        Some(text) => Some(Some(number_in(text)?)),
        None => Some(None),
    }
}

// Returns the line number of an event in an argument, if the argument is given.
fn event_line_if_given(value: Option<&str>) -> Option<Option<u64>>
    ensures { result ≡ read_if_given event_line_of (option_map (λ s. s.now) value.entry) }
{
    match value {
        Some(text) => Some(Some(event_line_in(text)?)),
        None => Some(None),
    }
}

// Returns the text of an argument, if the matches have it.
fn text_of(alloc: Global, matches: &ArgMatches<'_>, id: &str) -> Result<Option<String>, AllocError>
    ensures { IfOk result
        (λ text. option_map string_bytes text ≡ matched_texts matches.now id.now) }
{
    match matches.get_str(id) {
        Some(text) => Ok(Some(String::from_str(alloc, text)?)),
        None => Ok(None),
    }
}

// Returns help, the version or a fault if the arguments give no matches.
fn answer_to(alloc: Global, error: &clap::Error) -> Result<Order, LineFault>
    ensures { AnswersKind (kind_of error.now) result }
{
    match error.kind() {
        ErrorKind::DisplayHelp => Ok(Order::Help(format!(in alloc; "{error}")?)),
        ErrorKind::DisplayVersion => Ok(Order::Version),
        ErrorKind::OutOfMemory => Err(LineFault::Memory),
        _ => Err(LineFault::CommandLine),
    }
}
