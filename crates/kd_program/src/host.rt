use kd_commands::{Files, Listening};
use kd_config::Config;
use kd_io::{Appended, LookFault};
use kd_keeps::{Keeps, Opened, StoreFault};
use kd_loops::{EndFailed, Link, Sink};
use kd_rows::Row;
use kd_trouble::{SocketTrouble, StartFault, StoreTrouble};
use std::alloc::AllocError;

/// What a command finds outside its arguments and the standard streams.
pub trait Host {
    ghost use Rattle.std.specs.Prelude.{◌≡◌, ℕ, Bool, Err, IfOk, List, MatchResult, Ok, Option, Result, false, is_some, string_bytes};
    ghost use Rattle.std.specs.List.{All};
    ghost use Rattle.kd_trouble.specs.declared.troubles.SocketTrouble.{SocketTrouble};
    ghost use Rattle.kd_trouble.specs.declared.troubles.StoreTrouble.{StoreTrouble};
    ghost use Rattle.kd_commands.specs.declared.orders.Files.{Files};
    ghost use Rattle.kd_commands.specs.declared.orders.Listening.{Listening};
    ghost use Rattle.kd_config.specs.Configuration.{Configuration};
    ghost use Rattle.kd_io.specs.declared.look.LookFault.{LookFault};
    ghost use Rattle.kd_trouble.specs.declared.fault.StartFault.{StartFault};
    ghost use Rattle.kd_keeps.specs.Reading.{AreRead};
    ghost use Rattle.kd_keeps.specs.declared.fault.StoreFault.{StoreFault};
    ghost use Rattle.kd_loops.specs.declared.ends.EndFailed.{EndFailed};
    ghost use Rattle.kd_rows.specs.Row.{IsInRange};
    ghost use Rattle.kd_rows.specs.Table.{Rise};
    ghost use Rattle.kd_rows.specs.declared.row.Row.{Row as LeaseRow};

    /// A store of leases with a path. It cannot be dropped, so that it is returned to the host.
    type Named: Keeps;

    /// A store of leases in memory.
    type Unnamed: Keeps + Drop;

    /// Where datagrams come from.
    type Socket: Link + Drop;

    /// Where a record of received datagrams is written.
    type Journal: Sink + Drop;

    /// The result of asking for the configuration of files, and the host afterwards. The relations
    /// up to `records` have the same form: the host before, what it is asked for, what it gives or
    /// takes back, and the host afterwards.
    ghost configures: { Self → Files → Result Configuration StartFault → Self → Type 0 };

    /// The store at a path.
    ghost opens: { Self → List ℕ → Result Self.Named StoreFault → Self → Type 0 };

    /// A store in memory.
    ghost makes: { Self → Result Self.Unnamed StoreFault → Self → Type 0 };

    /// A store with a path is returned to the host.
    ghost closes: { Self → List ℕ → Self.Named → Self → Type 0 };

    /// The rows of the database at a path, read while another process may have it open.
    ghost copies: { Self → List ℕ → Result (List LeaseRow) LookFault → Self → Type 0 };

    /// A socket.
    ghost binds: { Self → Listening → Result Self.Socket EndFailed → Self → Type 0 };

    /// The record at a path.
    ghost records: { Self → List ℕ → Result Self.Journal EndFailed → Self → Type 0 };

    /// Whether the database at a path exists, or why it cannot be opened, as a trial found.
    ghost tries: { Self → List ℕ → Result Bool StoreTrouble → Type 0 };

    /// Whether a socket at an address and a port reaches all hosts of its link, or why there is no
    /// such socket, as a trial found.
    ghost reaches: { Self → ℕ → ℕ → Result Bool SocketTrouble → Type 0 };

    /// The time of the clock.
    ghost tells_time: { Self → ℕ → Type 0 };

    /// Why these files give no configuration, in words.
    ghost explains: { Self → Files → StartFault → List ℕ → Type 0 };

    /// Remarks on the keys of the file of a configuration that has no fault.
    ghost remarked: { Self → Files → List ℕ → Type 0 };

    /// How many bytes of the log of the database at a path a start leaves out because a frame there
    /// was damaged, if any.
    ghost leaves_out: { Self → List ℕ → Option ℕ → Type 0 };

    /// The line that says which program this is.
    ghost version: { Self → List ℕ };

    /// Returns the configuration of these files: of the text of a configuration file, in the form
    /// that it has, with the token files of a folder; the built-in one if there is no file. The
    /// folder is read first.
    ///
    /// # Errors
    ///
    /// The first fault of reading the folder and the file, then that of the text; `Memory` if
    /// memory runs out.
    fn configuration(&mut self, files: &Files) -> Result<Config, StartFault>
        ensures { configures self.old files.now result self.new };

    /// Opens the store of the leases at a path, or a new one if there is none, and returns it with
    /// its rows. It has not failed.
    ///
    /// # Errors
    ///
    /// The store cannot be opened.
    fn named_store(&mut self, path: &str) -> Result<Opened<Self::Named>, StoreFault>
        ensures given { MatchResult result (λ it. opens self.old path.now (Ok it.store) self.new)
            (λ fault. opens self.old path.now (Err fault) self.new) }
        ensures works { IfOk result (λ it. is_some (Self.Named.fault it.store) ≡ false) }
        ensures read { IfOk result (λ it. AreRead Self.Named.Keeps it.store it.rows.items) };

    /// Makes a new store of leases in memory, and returns it with its rows. It has not failed.
    ///
    /// # Errors
    ///
    /// Out of memory.
    fn unnamed_store(&mut self) -> Result<Opened<Self::Unnamed>, StoreFault>
        ensures given { MatchResult result (λ it. makes self.old (Ok it.store) self.new)
            (λ fault. makes self.old (Err fault) self.new) }
        ensures works { IfOk result (λ it. is_some (Self.Unnamed.fault it.store) ≡ false) }
        ensures read { IfOk result (λ it. AreRead Self.Unnamed.Keeps it.store it.rows.items) };

    /// Takes back the store of a path from a command that has ended.
    fn close(&mut self, path: &str, store: Self::Named)
        ensures { closes self.old path.now store self.new };

    /// Returns the rows of the database at a path, in ascending order of address. It is read
    /// without a lock, so another process may have it open.
    ///
    /// # Errors
    ///
    /// The database cannot be read, or is not a store of leases.
    fn copy(&mut self, path: &str) -> Result<Vec<Row>, LookFault>
        ensures given { MatchResult result
            (λ rows. copies self.old path.now (Ok rows.items) self.new)
            (λ fault. copies self.old path.now (Err fault) self.new) }
        ensures rise { IfOk result (λ rows. Rise rows.items) }
        ensures ranges { IfOk result (λ rows. All IsInRange rows.items) };

    /// Opens a socket at an address and a port. It has not failed.
    ///
    /// # Errors
    ///
    /// The socket cannot be opened.
    fn socket(&mut self, listening: Listening) -> Result<Self::Socket, EndFailed>
        ensures given { binds self.old listening result self.new }
        ensures works { IfOk result (λ link. Self.Socket.has_failed link ≡ false) };

    /// Opens the record at a path for appending, or a new one if there is none. It has not failed.
    /// The beginning of a line at its end is removed.
    ///
    /// # Errors
    ///
    /// The record cannot be written, or is one of these files or of the files of the streams.
    fn journal(&mut self, path: &str, files: &Files) -> Result<Appended<Self::Journal>, EndFailed>
        ensures given { MatchResult result
            (λ it. records self.old path.now (Ok it.sink) self.new)
            (λ failed. records self.old path.now (Err failed) self.new) }
        ensures works { IfOk result (λ it. Self.Journal.has_failed it.sink ≡ false) };

    /// Returns, in words, why these files give no configuration: lines, each with its line feed.
    /// The files are tried again.
    ///
    /// # Errors
    ///
    /// Out of memory.
    fn start_words(&self, files: &Files, fault: &StartFault) -> Result<String, AllocError>
        ensures { IfOk result
            (λ words. explains self.now files.now fault.now (string_bytes words)) };

    /// Returns remarks on the keys of the file of a configuration that has no fault: a line for each
    /// key that is skipped because no client notices it, with its line feed.
    ///
    /// # Errors
    ///
    /// Out of memory.
    fn remarks(&self, files: &Files) -> Result<String, AllocError>
        ensures { IfOk result (λ words. remarked self.now files.now (string_bytes words)) };

    /// Reports whether the database at a path exists. Nothing is created.
    ///
    /// # Errors
    ///
    /// The database cannot be opened.
    fn try_database(&self, path: &str) -> Result<bool, StoreTrouble>
        ensures { tries self.now path.now result };

    /// Returns how many bytes of the log of the database at a path a start leaves out because a
    /// frame there was damaged; `None` if it leaves out none, or if that cannot be determined.
    fn left_out(&self, path: &str) -> Option<usize>
        ensures { leaves_out self.now path.now result };

    /// Reports whether a socket at an address, a number in host order, and a port could send to all
    /// hosts of its link. Nothing is sent.
    ///
    /// # Errors
    ///
    /// The socket cannot be opened.
    fn try_socket(&self, address: u32, port: u16) -> Result<bool, SocketTrouble>
        ensures { reaches self.now address port result };

    /// Returns the time of the clock, in whole seconds.
    fn clock(&self) -> u64
        ensures { tells_time self.now result };

    /// Returns the name of the program, its version and its commit, as a line with its line feed.
    fn version(&self) -> &str
        ensures { result.now ≡ version self.now };
}
