ghost use Rattle.std.specs.Prelude.{◌≡◌, IfOk};
ghost use Rattle.serde_json.specs.View.{view};
ghost use Rattle.kd_kea.specs.Lifetimes.{kea_keys};
ghost use Rattle.kd_notes.specs.Notes.{above_by, around_of, is_not_failed, kea_address, kea_below, kea_beside, all_times};

use kd_classes::Boot;
use kd_config::{Policy, Times};
use kd_fields::faults::SettingsFault;
use kd_fields::lists::{EntryReader, entries_of};
use kd_fields::place::{Place, bad_place};
use kd_kea::objects::lifetimes::{TermKeys, is_lifetime_by_class, keys_of};
use kd_kea::objects::reservation::ReservationReader;
use kd_kea::objects::settings::address_of;
use kd_kea::objects::subnet::{Above, SubnetReader, may_be_beside, pools_of};
use kd_kea::objects::times::times_of;
use kd_keys::alone::read_alone;
use kd_keys::boot::written_boot;
use kd_keys::definition::{DefinedOption, known_definitions};
use kd_keys::flags::{flag_in, flag_or_default};
use kd_keys::host_kinds::{HostKinds, kinds_of_server};
use kd_keys::host_name::{names_are_bare, server_names_are_bare};
use kd_keys::options::options_of;
use kd_keys::policy::written_policy;
use kd_keys::scope::scope_of_all;
use serde_json::Value;
use std::alloc::{AllocError, Global};

// What holds for the whole server, each part if it is right by itself.
#[derive(Clone, Copy)]
pub(crate) struct Around {
    // The server's address.
    pub(crate) address: Option<u32>,
    // The lease and offer times.
    pub(crate) times: Option<Times>,
    // What the keys for the times of leases say, unless a subnet says something else.
    pub(crate) keys: Option<TermKeys>,
    // A class has a lifetime.
    pub(crate) by_class: bool,
    // Reservations are looked for outside pools alone, unless a subnet says otherwise.
    pub(crate) outside: Option<bool>,
    // By which kinds of identity reservations are looked for.
    pub(crate) kinds: HostKinds,
    // Host names have no suffix, unless a subnet says otherwise.
    pub(crate) bare: bool,
    // What holds of clients.
    pub(crate) policy: Option<Policy>,
    // What is given to the boot fields, unless a subnet gives something else.
    pub(crate) boot: Option<Boot>,
}

// Reads what holds for the whole server, whose address is the given one if no option has another.
#[tactic(auto, unfolding(crate::specs::Notes::around_of))]
pub(crate) fn read_around(
    alloc: Global,
    dhcp4: &Value,
    server: Option<u32>,
) -> Result<Around, AllocError>
    ensures { IfOk result (λ around. around ≡ around_of server (view dhcp4.now)) }
{
    Ok(Around {
        address: read_alone(alloc, &AddressReader { server }, dhcp4)?,
        times: read_alone(alloc, &TimesReader, dhcp4)?,
        keys: read_alone(
            alloc,
            &KeysReader {
                above: TermKeys::usual(),
            },
            dhcp4,
        )?,
        by_class: is_lifetime_by_class(dhcp4),
        outside: flag_in(dhcp4, "reservations-out-of-pool"),
        kinds: kinds_of_server(dhcp4),
        bare: server_names_are_bare(dhcp4),
        policy: written_policy(dhcp4),
        boot: written_boot(dhcp4),
    })
}

// Reads the server's address, which is this one if no option has another.
#[derive(Clone, Copy)]
struct AddressReader {
    server: Option<u32>,
}

impl EntryReader for AddressReader {
    type Entry = u32;

    ghost means = { λ reader. kea_address reader.server };

    #[tactic(auto, unfolding(crate::specs::Notes::kea_address))]
    fn read(&self, alloc: Global, dhcp4: &Value, at: &Place<'_>) -> Result<u32, SettingsFault> {
        let known = known_definitions(alloc, dhcp4, at)?;
        let options = options_of(alloc, dhcp4, at, scope_of_all(known.as_slice()))?;
        address_of(alloc, options.as_slice(), at, self.server)
    }
}

// Reads what the keys for the times of leases say together, where they say this above the value.
#[derive(Clone, Copy)]
pub(crate) struct KeysReader {
    pub(crate) above: TermKeys,
}

impl EntryReader for KeysReader {
    type Entry = TermKeys;

    ghost means = { λ reader. kea_keys reader.above };

    fn read(
        &self,
        alloc: Global,
        object: &Value,
        at: &Place<'_>,
    ) -> Result<TermKeys, SettingsFault> {
        keys_of(alloc, object, at, self.above)
    }
}

// Reads the lease and offer times of the whole server.
#[derive(Clone, Copy)]
pub(crate) struct TimesReader;

impl EntryReader for TimesReader {
    type Entry = Times;

    ghost means = { λ _. all_times };

    #[tactic(auto, unfolding(crate::specs::Notes::all_times))]
    fn read(&self, alloc: Global, dhcp4: &Value, at: &Place<'_>) -> Result<Times, SettingsFault> {
        let keys = keys_of(alloc, dhcp4, at, TermKeys::usual())?;
        times_of(alloc, dhcp4, at, keys)
    }
}

// Reads a subnet, if it is known what holds above it.
#[derive(Clone, Copy)]
pub(crate) struct BelowReader<'a> {
    pub(crate) around: Around,
    // The definitions of options.
    pub(crate) known: &'a [DefinedOption],
}

impl<'a> EntryReader for BelowReader<'a> {
    type Entry = ();

    ghost means = { λ reader. kea_below (above_by reader.around) reader.known.now };

    fn read(&self, alloc: Global, subnet: &Value, at: &Place<'_>) -> Result<(), SettingsFault> {
        match above_in(self.around) {
            Some(above) => {
                let known = self.known;
                SubnetReader { above, known }.read(alloc, subnet, at)?;
                Ok(())
            }
            None => Ok(()),
        }
    }
}

// Returns what holds for the whole server, if all of it is right.
#[tactic(auto, unfolding(crate::specs::Notes::above_by))]
pub(crate) fn above_in(around: Around) -> Option<Above>
    ensures { result ≡ above_by around }
{
    let server = around.address?;
    let times = around.times?;
    let keys = around.keys?;
    let outside = around.outside?;
    let policy = around.policy?;
    let boot = around.boot?;
    Some(Above {
        server,
        times,
        keys,
        by_class: around.by_class,
        outside,
        kinds: around.kinds,
        bare: around.bare,
        policy,
        boot,
    })
}

// Reads whether reservations may stand beside the pools of a subnet.
#[derive(Clone, Copy)]
struct BesideReader<'a> {
    // Reservations are looked for outside pools alone, unless the subnet says otherwise.
    outside: Option<bool>,
    // By which kinds of identity reservations are looked for.
    kinds: HostKinds,
    // Host names have no suffix, unless the subnet says otherwise.
    bare: bool,
    // The definitions of options.
    known: &'a [DefinedOption],
}

impl<'a> EntryReader for BesideReader<'a> {
    type Entry = bool;

    ghost means = { λ reader. kea_beside reader.outside reader.kinds reader.bare reader.known.now };

    #[tactic(auto, unfolding(crate::specs::Notes::kea_beside))]
    fn read(&self, alloc: Global, subnet: &Value, at: &Place<'_>) -> Result<bool, SettingsFault> {
        let Some(other) = self.outside else {
            return Err(bad_place(alloc, at));
        };
        let key = "reservations-out-of-pool";
        let outside = flag_or_default(alloc, subnet, at, key, other)?;
        let pools = pools_of(alloc, subnet, at, self.known)?;
        let reader = ReservationReader {
            known: self.known,
            kinds: self.kinds,
            bare: names_are_bare(subnet, self.bare),
        };
        let hosts = entries_of(alloc, subnet, at, "reservations", 4096, &reader)?;
        Ok(may_be_beside(outside, pools.as_slice(), hosts.as_slice()))
    }
}

// Reports whether reservations may stand beside the pools of a subnet, or that is not known.
pub(crate) fn is_beside(
    alloc: Global,
    subnet: &Value,
    around: Around,
    known: &[DefinedOption],
) -> Result<bool, AllocError>
    ensures { IfOk result (λ passed. passed
        ≡ is_not_failed (kea_beside around.outside around.kinds around.bare known.now (view subnet.now))) }
{
    let reader = BesideReader {
        outside: around.outside,
        kinds: around.kinds,
        bare: around.bare,
        known,
    };
    match read_alone(alloc, &reader, subnet)? {
        Some(passed) => Ok(passed),
        None => Ok(true),
    }
}
