/// What the arguments ask for.
#[derive(Drop)]
pub enum Order {
    /// The help text, for standard output.
    Help(String),
    /// The name of the program, its version and its commit.
    Version,
    /// The lines of one datagram.
    Show {
        /// The datagram's bytes, as in the argument.
        hex: String,
        /// Whether the names of the options are printed.
        names: bool,
    },
    /// The number of nodes of one class test.
    Expr {
        /// The class test, as in the argument.
        text: String,
    },
    /// The token file of the program of one class test.
    Compile {
        /// The class test, as in the argument.
        text: String,
    },
    /// Whether the program of one token file is accepted.
    Verify {
        /// The file's bytes, as in the argument.
        hex: String,
    },
    /// The run of the program of one token file over one datagram.
    Eval {
        /// The file's bytes, as in the argument.
        program: String,
        /// The datagram's bytes, as in the argument.
        datagram: String,
    },
    /// The run of the program of one class test over one datagram.
    EvalText {
        /// The class test, as in the argument.
        text: String,
        /// The datagram's bytes, as in the argument.
        datagram: String,
    },
    /// Work over a configuration and a store of leases.
    Over {
        /// The files to use. The path of the lease file is there if the work is a live view.
        files: Files,
        /// What is done.
        work: Work,
    },
    /// An import of the lines of leases on standard input into a store without leases.
    Import {
        /// The path of the lease file.
        store: String,
    },
    /// The lines of a log on standard input, printed for people.
    Events {
        /// The hardware address for which replies are printed, 1 to 16 bytes, if one is given.
        mac: Option<Vec<u8>>,
        /// The address for which replies are printed, an IPv4 address in host order, if one is
        /// given.
        address: Option<u32>,
    },
    /// A trial of the configuration alone.
    Test {
        /// The files to use.
        files: Files,
    },
    /// A trial of each step of a start, without serving.
    Check {
        /// The files to use.
        files: Files,
        /// The socket, and how far the clock may run ahead.
        place: Place,
    },
}

/// The paths of the files that an order uses, if they are given.
#[derive(Drop)]
pub struct Files {
    /// The configuration file.
    pub config: Option<String>,
    /// Whose form the configuration file has; that of this program if there is none.
    pub form: Form,
    /// The folder of the token files.
    pub token_dir: Option<String>,
    /// The lease file.
    pub store: Option<String>,
}

/// Whose form the text of a configuration has.
#[derive(Clone, Copy)]
pub enum Form {
    /// That of this program.
    Own,
    /// That of ISC Kea's DHCPv4 server. The address, if there is one, is the server's where the text
    /// has none: an IPv4 address in host order, not 0.
    Kea(Option<u32>),
}

/// What is done over a configuration and a store of leases.
#[derive(Drop)]
pub enum Work {
    /// The events of standard input are replayed to standard output.
    Replay,
    /// The event of a line of standard input, 1 to 1,000,000, is explained instead of handled.
    Explain(u64),
    /// A view of the leases is printed.
    Show {
        /// What is printed.
        view: View,
        /// The time, in whole seconds.
        at: u64,
        /// Whether another process may have the lease file open.
        live: bool,
    },
    /// Datagrams of a socket are served.
    Serve(Service),
}

/// What to print of a table of leases at a time.
#[derive(Drop)]
pub enum View {
    /// Its leases, one line each.
    Leases,
    /// How full the pools are.
    Pools,
    /// How full the pools are, as metrics.
    Metrics,
    /// What answer a datagram gets, and why: the datagram's bytes, as in the argument.
    Why(String),
}

/// How datagrams of a socket are served.
#[derive(Drop)]
pub struct Service {
    /// The address of the socket, and where replies go.
    pub listening: Listening,
    /// The number of datagrams to serve, 0 to 2^64 - 1.
    pub count: u64,
    /// The path of the file to which received datagrams are appended, if one is given.
    pub journal: Option<String>,
    /// How many seconds the clock may run ahead, 0 to 2^64 - 1; no limit if none is given.
    pub max_ahead: Option<u64>,
}

/// Where datagrams are received, and where replies go.
#[derive(Clone, Copy)]
pub struct Listening {
    /// The address of the socket, an IPv4 address in host order.
    pub bind: u32,
    /// The UDP port of the socket, 1 to 65,535.
    pub port: u16,
    /// The UDP port of the clients, 1 to 65,535.
    pub client_port: u16,
    /// The address to use in place of 255.255.255.255, in host order, if one is given.
    pub broadcast_as: Option<u32>,
    /// Whether each reply goes to the sender of its datagram, whatever the fields of the reply say.
    pub mirror: bool,
}

/// The socket of a server, and how far the server's clock may run ahead.
#[derive(Clone, Copy)]
pub struct Place {
    /// The address of the socket, an IPv4 address in host order.
    pub bind: u32,
    /// The UDP port of the socket, 1 to 65,535.
    pub port: u16,
    /// How many seconds the clock may run ahead, 0 to 2^64 - 1; no limit if none is given.
    pub max_ahead: Option<u64>,
}
