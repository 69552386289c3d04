ghost use Rattle.std.specs.Prelude.{◌≡◌, IfOk, false, fold, map};
ghost use Rattle.clap.specs.Words.{app_of, new_app, with_rule};
ghost use Rattle.clap.specs.declared.builder.command.Command.TheViews.{out-Command};
ghost use Rattle.kd_commands.specs.Arguments.{entry_of, parameter_of};
ghost use Rattle.kd_commands.specs.Order.{command_line, parameter_rule, program_line, subcommand_line, table_around_servers, table_on_leases, table_on_texts, with_entry};

use crate::argument::Argument;
use clap::Command;
use std::alloc::{AllocError, Global};

// A subcommand: its name, what help prints before and after its arguments, and these.
#[derive(Clone, Copy)]
struct Subcommand<'a> {
    name: &'a str,
    about: &'a str,
    example: &'a str,
    arguments: &'a [Argument<'a>],
}

// `--config F`.
const CONFIG: Argument<'static> = Argument::Value("config", "F", "The configuration, a JSON file");

// `--kea F`.
const KEA: Argument<'static> = Argument::Value(
    "kea",
    "F",
    "The configuration, a file of ISC Kea's DHCPv4 server",
);

// `--server-address A`.
const SERVER_ADDRESS: Argument<'static> = Argument::Value(
    "server-address",
    "A",
    "The server's own address, where the file of --kea has none",
);

// `--token-dir D`.
const TOKEN_DIR: Argument<'static> = Argument::Value(
    "token-dir",
    "D",
    "The directory of the token files",
);

// `--store F`.
const STORE: Argument<'static> = Argument::Value(
    "store",
    "F",
    "The lease store, an SQLite file; without it leases are in memory",
);

// `--live`.
const LIVE: Argument<'static> = Argument::Flag("live", "Read the store while a server has it open");

// `--at M`, which is required.
const AT: Argument<'static> = Argument::RequiredValue(
    "at",
    "M",
    "The time in whole seconds (date +%s)",
);

// `--bind A`.
const BIND: Argument<'static> = Argument::Value(
    "bind",
    "A",
    "The address to listen on (default 127.0.0.1)",
);

// `--port P`.
const PORT: Argument<'static> = Argument::Value(
    "port",
    "P",
    "The UDP port to listen on (default 67)",
);

// `--max-ahead SECONDS`.
const MAX_AHEAD: Argument<'static> = Argument::Value(
    "max-ahead",
    "SECONDS",
    "Exit if the clock is more than SECONDS seconds ahead",
);

// The text of a datagram.
const DATAGRAM: Argument<'static> = Argument::Text("HEX", "A datagram in hexadecimal");

// The text of a class test.
const CLASS_TEST: Argument<'static> = Argument::Text(
    "TEXT",
    "A class test in Kea's expression language",
);

// The subcommands over texts of the command line, in the order in which help lists them. Those of the
// next two tables follow.
const ON_TEXTS: &[Subcommand<'static>] = &[
    Subcommand {
        name: "show",
        about: "Print a datagram line by line",
        example: "Example: kdhcp show \"$(cat discover.hex)\"",
        arguments: &[
            Argument::Flag("names", "Also print the names and values of options"),
            DATAGRAM,
        ],
    },
    Subcommand {
        name: "expr",
        about: "Parse and type a class test, and print how many nodes it has",
        example: "Example: kdhcp expr \"option[60].hex == 'a'\"",
        arguments: &[CLASS_TEST],
    },
    Subcommand {
        name: "compile",
        about: "Compile a class test, and print its token file",
        example: "Example: kdhcp compile \"option[60].hex == 'a'\"",
        arguments: &[CLASS_TEST],
    },
    Subcommand {
        name: "verify",
        about: "Verify the program of a token file, and print what it declares",
        example: "Example: kdhcp verify 4b34544b010003021000000003033c0100016109",
        arguments: &[Argument::Text("HEX", "A token file in hexadecimal")],
    },
    Subcommand {
        name: "eval",
        about: "Run a program on a datagram, and print its truth value",
        example: "Example: kdhcp eval --text \"pkt4.msgtype == 1\" \"$(cat discover.hex)\"",
        arguments: &[
            Argument::Flag(
                "text",
                "Read PROGRAM as a class test in Kea's expression language",
            ),
            Argument::Text("PROGRAM", "A token file in hexadecimal"),
            Argument::Text("DATAGRAM", "A datagram in hexadecimal"),
        ],
    },
];

// The subcommands over a store, or over events as a server handles them.
const ON_LEASES: &[Subcommand<'static>] = &[
    Subcommand {
        name: "replay",
        about: "Replay events from standard input",
        example: "Example (test a configuration): kdhcp replay --config config.json < /dev/null",
        arguments: &[
            CONFIG,
            KEA,
            SERVER_ADDRESS,
            TOKEN_DIR,
            STORE,
            Argument::Value(
                "why",
                "N",
                "Explain the event on line N instead of handling it",
            ),
        ],
    },
    Subcommand {
        name: "leases",
        about: "Print the leases in a store at a given time",
        example: "Example: kdhcp leases --store leases.db --at \"$(date +%s)\"",
        arguments: &[CONFIG, KEA, SERVER_ADDRESS, TOKEN_DIR, STORE, LIVE, AT],
    },
    Subcommand {
        name: "pools",
        about: "Print how full the pools are at a given time",
        example: "Example: kdhcp pools --config config.json --store leases.db --live --at \"$(date +%s)\"",
        arguments: &[
            CONFIG,
            KEA,
            SERVER_ADDRESS,
            TOKEN_DIR,
            STORE,
            LIVE,
            AT,
            Argument::Flag("prometheus", "Print metrics in the Prometheus text format"),
        ],
    },
    Subcommand {
        name: "why",
        about: "Explain which reply a datagram gets, and why",
        example: "Example: kdhcp why --config config.json --store leases.db --live --at \"$(date +%s)\" \"$(cat discover.hex)\"",
        arguments: &[
            CONFIG,
            KEA,
            SERVER_ADDRESS,
            TOKEN_DIR,
            STORE,
            LIVE,
            AT,
            DATAGRAM,
        ],
    },
];

// The subcommands around a server, and the server.
const AROUND_SERVERS: &[Subcommand<'static>] = &[
    Subcommand {
        name: "import",
        about: "Import lease lines from standard input into an empty store",
        example: "Example: kdhcp import --store leases.db < leases.txt",
        arguments: &[Argument::RequiredValue("store", "F", "The lease store, an SQLite file")],
    },
    Subcommand {
        name: "events",
        about: "Print the replies in a log in readable form",
        example: "Example: kdhcp events --address 192.0.2.17 < kdhcp.log",
        arguments: &[
            Argument::Value(
                "mac",
                "M",
                "Only replies to hardware address M, such as 02:00:00:00:00:01",
            ),
            Argument::Value("address", "A", "Only replies with address A"),
        ],
    },
    Subcommand {
        name: "test",
        about: "Read the configuration, and explain what is wrong in it",
        example: "Example: kdhcp test --config config.json",
        arguments: &[CONFIG, KEA, SERVER_ADDRESS, TOKEN_DIR],
    },
    Subcommand {
        name: "check",
        about: "Try each step of a start, and explain what is wrong",
        example: "Example: kdhcp check --config config.json --store leases.db --bind 0.0.0.0",
        arguments: &[
            CONFIG,
            KEA,
            SERVER_ADDRESS,
            TOKEN_DIR,
            STORE,
            BIND,
            PORT,
            MAX_AHEAD,
        ],
    },
    Subcommand {
        name: "serve",
        about: "Serve datagrams on a UDP socket",
        example: "Example: kdhcp serve --config config.json --store leases.db --bind 0.0.0.0 --count 18446744073709551615",
        arguments: &[
            CONFIG,
            KEA,
            SERVER_ADDRESS,
            TOKEN_DIR,
            STORE,
            BIND,
            PORT,
            Argument::Value("client-port", "Q", "The UDP port of clients (default 68)"),
            Argument::RequiredValue("count", "N", "The number of datagrams to serve"),
            Argument::Value(
                "broadcast-as",
                "A",
                "Send broadcasts to A instead of 255.255.255.255",
            ),
            Argument::Flag("mirror", "Reply to the sender of each datagram"),
            Argument::Value(
                "record",
                "F",
                "Append what arrives to the file F, as input for replay",
            ),
            MAX_AHEAD,
        ],
    },
];

// The whole command line.
#[tactic(auto, using(crate::proofs::Tables::in_three))]
pub(crate) fn kdhcp<'a>(alloc: Global) -> Result<Command<'a>, AllocError>
    ensures { IfOk result (λ c. app_of c ≡ command_line) }
{
    let line = add_on_texts(alloc, program(alloc)?)?;
    add_around_servers(alloc, add_on_leases(alloc, line)?)
}

// Adds the subcommands over texts to a command line.
fn add_on_texts<'a>(alloc: Global, line: Command<'a>) -> Result<Command<'a>, AllocError>
    ensures { IfOk result (λ c. app_of c ≡ fold with_entry (app_of line.entry) table_on_texts) }
{
    add_subcommands(alloc, line, ON_TEXTS)
}

// Adds the subcommands over a store or events to a command line.
fn add_on_leases<'a>(alloc: Global, line: Command<'a>) -> Result<Command<'a>, AllocError>
    ensures { IfOk result (λ c. app_of c ≡ fold with_entry (app_of line.entry) table_on_leases) }
{
    add_subcommands(alloc, line, ON_LEASES)
}

// Adds the subcommands around a server to a command line.
fn add_around_servers<'a>(alloc: Global, line: Command<'a>) -> Result<Command<'a>, AllocError>
    ensures { IfOk result
        (λ c. app_of c ≡ fold with_entry (app_of line.entry) table_around_servers) }
{
    add_subcommands(alloc, line, AROUND_SERVERS)
}

// The command line before its subcommands.
fn program<'a>(alloc: Global) -> Result<Command<'a>, AllocError>
    ensures { IfOk result (λ c. app_of c ≡ program_line) }
{
    // The program prints its version itself, so `clap` has no text for it.
    let named = Command::new(alloc, "kdhcp")
        .about("A DHCPv4 server")
        .version("")
        .bin_name("kdhcp")?;
    Ok(named.no_binary_name(true).subcommand_required(true))
}

// Adds subcommands to a command line, in this order.
fn add_subcommands<'a>(
    alloc: Global,
    line: Command<'a>,
    subcommands: &[Subcommand<'a>],
) -> Result<Command<'a>, AllocError>
    ensures { IfOk result (λ c.
        app_of c ≡ fold with_entry (app_of line.entry) (map entry_of subcommands.now)) }
{
    let mut longer = line;
    for subcommand in subcommands {
        longer = longer.subcommand(build(alloc, *subcommand)?)?;
    }
    Ok(longer)
}

// Makes a subcommand.
fn build<'a>(alloc: Global, subcommand: Subcommand<'a>) -> Result<Command<'a>, AllocError>
    ensures app { IfOk result (λ c. app_of c ≡ subcommand_line (entry_of subcommand.entry)) }
    ensures local { IfOk result (λ c. (out-Command c).has_globals ≡ false) }
{
    let mut longer = Command::new(alloc, subcommand.name)
        .about(subcommand.about)
        .after_help(subcommand.example);
    for argument in subcommand.arguments {
        longer = longer.arg(argument.to_arg(alloc))?;
    }
    Ok(longer)
}
