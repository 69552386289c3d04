ghost use Rattle.std.specs.Prelude.{◌≡◌, ◌≤◌, ◌<◌, ◌^◌, IfErr, IfOk, IfSome, OnOk, false, is_some, length};
ghost use Rattle.std.specs.List.{All};
ghost use Rattle.kd_config.specs.Sound.{IsSound};
ghost use Rattle.kd_keeps.specs.Reading.{AreRead};
ghost use Rattle.kd_lease.specs.Change.{after};
ghost use Rattle.kd_lease.specs.Rules.{IsSetAt};
ghost use Rattle.kd_listing.specs.Leases.{leases_of_rows};
ghost use Rattle.kd_loops.specs.History.{Runs};
ghost use Rattle.kd_loops.specs.Text.{IsSmall};
ghost use Rattle.kd_loops.specs.declared.fault.ServeFault.TheVariants as faults;
ghost use Rattle.kd_rows.specs.Row.{IsInRange};
ghost use Rattle.kd_rows.specs.Table.{Rise, latest_of, with_row};
ghost use Rattle.kd_server.specs.Batch.{Batched};
ghost use Rattle.kd_server.specs.Server.{IsUnopened, Opens, Refuses, Steps, StillHolds};
ghost use Rattle.kd_server.specs.Looks.{IsNoList};
ghost use Rattle.kd_server.specs.Unkept.{IsSettable, IsUnkept};

use crate::batching::{handle_each, keep_all};
use crate::leases::leases_at;
use crate::turning::step;
use kd_config::Config;
use kd_event::{Event, Handled, Ports};
use kd_keeps::{Keeps, Opened};
use kd_lease::Leases;
use kd_listing::Lease;
use kd_loops::{Arrived, ServeFault, Serves, ServesAll, run_with};
use kd_rows::{Row, Rows};
use std::alloc::Global;
use std::marker::Model;

/// A server that gives out leases by a configuration and keeps them in a store.
#[derive(Drop)]
pub struct Server<S: Keeps> {
    ports: Ports,
    leases: Leases,
    store: S,
    alloc: Global,
}

impl<S: Keeps> Model for Server<S> {
    ghost use Rattle.kd_server.specs.Server.{ServerState};

    ghost Value = { ServerState S };

    ghost view = { λ s.
        record {
          ports = s.ports;
          config = s.leases.config;
          rows = s.leases.table.rows;
          store = s.store;
        } };
}

impl<S: Keeps> Server<S> {
    /// Opens a server with these ports and this configuration, over the leases of this store.
    ///
    /// # Errors
    ///
    /// `Store` if the store fails, and `Memory` if memory runs out. The configuration and the store
    /// are returned.
    pub fn open(
        alloc: Global,
        config: Config,
        mut store: S,
        ports: Ports,
    ) -> Result<Server<S>, (ServeFault, Config, S)>
        requires { is_some (S.fault store) ≡ false }
        ensures opened { IfOk result (Opens S.Keeps ports config store) }
        ensures refused { IfErr result
            (λ back. IsUnopened S.Keeps config store back.0 back.1 back.2) }
    {
        match store.rows() {
            Ok(rows) => seat(alloc, config, store, rows, ports),
            Err(fault) => Err((ServeFault::Store(fault), config, store)),
        }
    }

    /// Does the same over a store that was just opened, with the rows that were read from it then,
    /// so that they are not read again.
    ///
    /// # Errors
    ///
    /// `Memory` if memory runs out. The configuration and the store are returned.
    pub fn start(
        alloc: Global,
        config: Config,
        opened: Opened<S>,
        ports: Ports,
    ) -> Result<Server<S>, (ServeFault, Config, S)>
        requires works { is_some (S.fault opened.store) ≡ false }
        requires read { AreRead S.Keeps opened.store opened.rows.items }
        ensures opened { IfOk result (Opens S.Keeps ports config opened.store) }
        ensures refused { IfErr result
            (λ back. IsUnopened S.Keeps config opened.store back.0 back.1 back.2) }
    {
        let Opened { store, rows } = opened;
        seat(alloc, config, store, rows, ports)
    }

    /// Closes the server and returns its configuration and its store.
    pub fn close(self) -> (Config, S)
        ensures config { result.0 ≡ self.config }
        ensures store { result.1 ≡ self.store }
    {
        let Server { leases, store, .. } = self;
        (leases.into_config(), store)
    }

    /// Returns the server's configuration.
    pub fn config(&self) -> &Config
        ensures { result.now ≡ self.now.config }
    {
        self.leases.config()
    }

    /// Returns the rows of leases, including those that have ended.
    pub fn rows(&self) -> &Rows
        ensures { result.now.rows ≡ self.now.rows }
    {
        self.leases.rows()
    }

    /// Reports whether the store has failed.
    pub fn has_failed(&self) -> bool
        ensures { result ≡ is_some (S.fault self.now.store) }
    {
        self.store.failed()
    }

    /// Returns the number of rows of leases, including those that have ended.
    pub fn row_count(&self) -> usize
        ensures { result ≡ length self.now.rows }
    {
        self.leases.rows().len()
    }

    /// Returns the time of the latest change of a row, in whole seconds, or 0 if there are no rows.
    pub fn latest_change(&self) -> u64
        ensures { result ≡ latest_of self.now.rows }
    {
        self.leases.rows().latest()
    }

    /// Returns the leases at a time in whole seconds: the rows in ascending order of address, each
    /// with whether it is still live.
    ///
    /// # Errors
    ///
    /// `Failed` if the store has failed, `MomentTooLarge` if the time is not below 2^40, and
    /// `Memory` if memory runs out.
    pub fn leases(&self, moment: u64) -> Result<Vec<Lease>, ServeFault>
        ensures leases { IfOk result (λ list. list.items ≡ leases_of_rows moment self.now.rows) }
        ensures works { IfOk result (λ list. (is_some (S.fault self.now.store) ≡ false)
            × (moment < 2 ^ 40)) }
        ensures failed { IfErr result (IsNoList (is_some (S.fault self.now.store)) moment) }
    {
        leases_at(self.alloc, self.leases.rows(), self.store.failed(), moment)
    }

    /// Handles events in order, up to the first fault. Memory for the list of results is reserved
    /// first.
    ///
    /// # Errors
    ///
    /// The fault of the first event that was not handled, next to the results of those that were;
    /// or `Memory` before the first event.
    pub fn run(&mut self, events: &[Event]) -> (Vec<Handled>, Option<ServeFault>)
        ensures { Runs (Steps S.Keeps) (Refuses S.Keeps)
            events.now result.0.items result.1 self.old self.new }
    {
        run_with(self.alloc, self, events)
    }

    /// Returns what is sent for a datagram that arrived at this time, in whole seconds (RFC 2131
    /// section 4.3). The row that it sets is committed to the store first.
    ///
    /// # Errors
    ///
    /// `Failed` if the store failed earlier, `MomentTooLarge` if the time is not below 2^40, and
    /// `Memory` if memory runs out; these change nothing. `Store` if the store fails at the row:
    /// the server keeps the old rows, and the store holds the old rows or those with the new row.
    pub fn handle(&mut self, moment: u64, bytes: &[u8]) -> Result<Handled, ServeFault>
        ensures handled { IfOk result (λ handled.
            Steps S.Keeps self.old
            (record { moment = moment; bytes = bytes.now }) handled self.new) }
        ensures small { IfOk result (λ handled. IsSmall handled.response) }
        ensures failed { IfErr result (λ fault.
            Refuses S.Keeps self.old
            (record { moment = moment; bytes = bytes.now }) fault self.new) }
    {
        if self.store.failed() {
            return Err(ServeFault::Failed);
        }
        let (row, handled) = step(self.alloc, self.ports, self.leases.ground(), moment, bytes)?;
        keep(&mut self.leases, &mut self.store, row)?;
        Ok(handled)
    }

    /// Returns what is sent for events, in their order, each at its own time. The rows that they
    /// set are committed to the store together, before anything is answered.
    ///
    /// # Errors
    ///
    /// The fault of the first event that was not handled, next to the results of those that were:
    /// `MomentTooLarge` if its time is not below 2^40, and `Memory`, for that event or before the
    /// first. `Failed` if the store failed earlier: nothing is handled. `Store` if the store fails
    /// at the commit: nothing is answered, the store holds the old rows or those with all rows set,
    /// and the server's rows are the latter.
    pub fn handle_all(&mut self, events: &[Arrived]) -> (Vec<Handled>, Option<ServeFault>)
        ensures batch { Batched S.Keeps self.old events.now result.0.items result.1 self.new }
        ensures small { All (λ handled. IsSmall handled.response) result.0.items }
    {
        if self.store.failed() {
            return (Vec::new(self.alloc), Some(ServeFault::Failed));
        }
        let Ok(mut list) = Vec::with_capacity(self.alloc, events.len()) else {
            return (Vec::new(self.alloc), Some(ServeFault::Memory));
        };
        let mut set = Vec::new(self.alloc);
        let fault = handle_each(
            self.alloc,
            self.ports,
            &mut self.leases,
            &mut set,
            &mut list,
            events,
        );
        match keep_all(&mut self.store, set.as_slice()) {
            Ok(()) => (list, fault),
            Err(fault) => (Vec::new(self.alloc), Some(ServeFault::Store(fault))),
        }
    }
}

impl<S: Keeps> ServesAll for Server<S> {
    ghost use Rattle.kd_server.specs.Batch.{Batched};
    ghost use Rattle.kd_server.specs.Server.{latest_in};

    ghost latest = { latest_in };

    ghost batches = { Batched S.Keeps };

    fn latest(&self) -> u64 {
        self.latest_change()
    }

    fn handle_all(&mut self, events: &[Arrived]) -> (Vec<Handled>, Option<ServeFault>) {
        Server::handle_all(self, events)
    }
}

impl<S: Keeps> Serves for Server<S> {
    ghost use Rattle.kd_server.specs.Server.{Refuses, Steps};

    ghost gives = { Steps S.Keeps };

    ghost fails = { Refuses S.Keeps };

    fn handle(&mut self, moment: u64, bytes: &[u8]) -> Result<Handled, ServeFault> {
        Server::handle(self, moment, bytes)
    }
}

// A server over a store, with these rows.
fn seat<S: Keeps>(
    alloc: Global,
    config: Config,
    store: S,
    rows: Vec<Row>,
    ports: Ports,
) -> Result<Server<S>, (ServeFault, Config, S)>
    requires rise { Rise rows.items }
    requires ranges { All IsInRange rows.items }
    ensures seated { IfOk result (λ server. server
        ≡ record { ports = ports; config = config; rows = rows.items; store = store }) }
    ensures sound { IsSound config }
    ensures memory { IfErr result (λ back.
        (back.0 ≡ faults.Memory) × (back.1 ≡ config) × (back.2 ≡ store)) }
{
    obey_limits(&config);
    match Leases::new(alloc, config, rows) {
        Ok(leases) => Ok(Server {
            ports,
            leases,
            store,
            alloc,
        }),
        Err(config) => Err((ServeFault::Memory, config, store)),
    }
}

// Says that a configuration obeys all limits, as each does. It does nothing.
fn obey_limits(config: &Config)
    ensures { IsSound config.now }
{
    config.server();
}

// If there is a row and it changes the rows, sets it in the store and among the rows.
fn keep<S: Keeps>(leases: &mut Leases, store: &mut S, row: Option<Row>) -> Result<(), ServeFault>
    requires works { is_some (S.fault store.old) ≡ false }
    requires set { IfSome row (IsSettable leases.old.table.rows) }
    ensures config { leases.new.config ≡ leases.old.config }
    ensures rows { OnOk result (leases.new.table.rows ≡ after leases.old.table.rows row) }
    ensures store { OnOk result
        (StillHolds S.Keeps store.old store.new leases.old.table.rows leases.new.table.rows) }
    ensures failed { IfErr result
        (IsUnkept S.Keeps leases.old.table.rows leases.new.table.rows store.old store.new
        (after leases.old.table.rows row)) }
{
    match row {
        Some(row) => keep_row(leases, store, row),
        None => Ok(()),
    }
}

// If the row changes the rows, sets it in the store and among the rows.
fn keep_row<S: Keeps>(leases: &mut Leases, store: &mut S, row: Row) -> Result<(), ServeFault>
    requires works { is_some (S.fault store.old) ≡ false }
    requires set { IsSettable leases.old.table.rows row }
    ensures config { leases.new.config ≡ leases.old.config }
    ensures rows { OnOk result (leases.new.table.rows ≡ with_row row leases.old.table.rows) }
    ensures store { OnOk result
        (StillHolds S.Keeps store.old store.new leases.old.table.rows leases.new.table.rows) }
    ensures failed { IfErr result
        (IsUnkept S.Keeps leases.old.table.rows leases.new.table.rows store.old store.new
        (with_row row leases.old.table.rows)) }
{
    if !leases.prepare(&row)? {
        return Ok(());
    }
    match store.put(&row) {
        Ok(()) => {
            leases.set(row);
            Ok(())
        }
        Err(fault) => Err(ServeFault::Store(fault)),
    }
}
