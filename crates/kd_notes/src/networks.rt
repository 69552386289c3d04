ghost use Rattle.std.specs.Prelude.{◌≡◌, ◌++◌, IfOk, OnOk, is_some, codes, option_and_then};
ghost use Rattle.std.specs.List.{list_any};
ghost use Rattle.serde_json.specs.Find.{as_str, get};
ghost use Rattle.serde_json.specs.View.{view};
ghost use Rattle.kd_config.specs.Address.{has_address};
ghost use Rattle.kd_notes.specs.Notes.{above_by, around_members, boot_in, inside_notes, is_not_failed, kea_inside, keys_in_network, network_below, network_lists, network_notes, network_own, network_values, outside_in, prefix_given};

use crate::around::{Around, KeysReader, above_in};
use crate::list::NoteList;
use crate::notes::NoteKind;
use crate::objects::{RelayObject, SubnetObject, note_keys, note_part_options};
use crate::times::note_term;
use crate::values::{note_boot, note_flag, note_policy, note_text};
use crate::walk::{Listed, NotedObject, append_checked, note_failed, note_list, note_value};
use kd_classes::Boot;
use kd_config::Prefix;
use kd_fields::faults::SettingsFault;
use kd_fields::lists::{EntryReader, entries_of};
use kd_fields::place::{Place, bad_value};
use kd_kea::objects::lifetimes::TermKeys;
use kd_kea::objects::network::{NetworkReader, has_own_interface};
use kd_kea::objects::subnet::written_prefix;
use kd_keys::alone::read_alone;
use kd_keys::boot::written_boot;
use kd_keys::definition::DefinedOption;
use kd_keys::host_name::names_are_bare;
use kd_keys::tables::ObjectKind;
use serde_json::Value;
use std::alloc::{AllocError, Global};

// A network, below what holds for the whole server and with its definitions of options.
#[derive(Clone, Copy)]
pub(crate) struct NetworkObject<'a> {
    pub(crate) around: Around,
    pub(crate) known: &'a [DefinedOption],
}

impl<'a> NotedObject for NetworkObject<'a> {
    ghost noted = { λ it. network_notes it.around it.known.now };

    #[tactic(auto, unfolding(crate::specs::Notes::network_notes))]
    fn note(self, notes: &mut NoteList, network: &Value, path: &str) -> Result<(), AllocError> {
        if network.as_object().is_none() {
            return notes.push_path(path, NoteKind::Wrong);
        }
        let reader = NetworkBelowReader {
            around: self.around,
            known: self.known,
        };
        let mut inner = NoteList::new(notes.allocator());
        note_keys(&mut inner, network, path, ObjectKind::Network)?;
        note_network_values(&mut inner, network, path, self.around)?;
        note_term(&mut inner, network, path, 0, self.around.keys)?;
        note_network_own(&mut inner, network, path)?;
        note_network_lists(&mut inner, network, path, self.around, self.known)?;
        append_checked(notes, inner, &reader, network, path)
    }
}

// Reads a network, if it is known what holds above it.
#[derive(Clone, Copy)]
struct NetworkBelowReader<'a> {
    around: Around,
    // The definitions of options.
    known: &'a [DefinedOption],
}

impl<'a> EntryReader for NetworkBelowReader<'a> {
    type Entry = ();

    ghost means = { λ reader. network_below (above_by reader.around) reader.known.now };

    fn read(&self, alloc: Global, network: &Value, at: &Place<'_>) -> Result<(), SettingsFault> {
        match above_in(self.around) {
            Some(above) => {
                let known = self.known;
                NetworkReader { above, known }.read(alloc, network, at)?;
                Ok(())
            }
            None => Ok(()),
        }
    }
}

// Notes the keys of a network that are served with some values only, by what holds for the whole
// server.
#[tactic(auto, unfolding(crate::specs::Notes::network_values))]
fn note_network_values(
    notes: &mut NoteList,
    network: &Value,
    path: &str,
    around: Around,
) -> Result<(), AllocError>
    ensures { OnOk result
        (notes.new ≡ notes.old ++ network_values around path.now (view network.now)) }
{
    note_policy(notes, network, path, around.policy)?;
    note_inside(notes, network, path, around.address)
}

// Notes the interface of a network, if the server's address and the prefixes of its members are
// known.
fn note_inside(
    notes: &mut NoteList,
    network: &Value,
    path: &str,
    address: Option<u32>,
) -> Result<(), AllocError>
    ensures { OnOk result
        (notes.new ≡ notes.old ++ inside_notes address path.now (view network.now)) }
{
    let Some(server) = address else {
        return Ok(());
    };
    let passed = is_inside(notes.allocator(), network, server)?;
    note_failed(notes, passed, path, "interface", NoteKind::Unknown)
}

// Reports whether the interface of a network is the one with the server's address, or that is not
// known.
fn is_inside(alloc: Global, network: &Value, server: u32) -> Result<bool, AllocError>
    ensures { IfOk result
        (λ passed. passed ≡ is_not_failed (kea_inside server (view network.now))) }
{
    match read_alone(alloc, &InsideReader { server }, network)? {
        Some(passed) => Ok(passed),
        None => Ok(true),
    }
}

// Reads whether the interface of a network is the one with the server's address.
#[derive(Clone, Copy)]
struct InsideReader {
    server: u32,
}

impl EntryReader for InsideReader {
    type Entry = bool;

    ghost means = { λ reader. kea_inside reader.server };

    #[tactic(auto, unfolding(crate::specs::Notes::kea_inside))]
    fn read(&self, alloc: Global, network: &Value, at: &Place<'_>) -> Result<bool, SettingsFault> {
        let prefixes = entries_of(alloc, network, at, "subnet4", 64, &PrefixReader)?;
        let inside = is_in_any(prefixes.as_slice(), self.server);
        Ok(has_own_interface(network, inside))
    }
}

// Reports whether an address is in one of these prefixes.
fn is_in_any(prefixes: &[Prefix], address: u32) -> bool
    ensures { result ≡ list_any (λ prefix. has_address prefix address) prefixes.now }
{
    prefixes.iter().any(|prefix| prefix.contains(address))
}

// Reads the prefixes of subnets.
#[derive(Clone, Copy)]
struct PrefixReader;

impl EntryReader for PrefixReader {
    type Entry = Prefix;

    ghost means = { λ _. prefix_given };

    fn read(&self, alloc: Global, subnet: &Value, at: &Place<'_>) -> Result<Prefix, SettingsFault> {
        match written_prefix(subnet) {
            Some(prefix) => Ok(prefix),
            None => Err(bad_value(alloc, at, "subnet")),
        }
    }
}

// Notes the values of a network that are wrong by themselves.
#[tactic(auto, unfolding(crate::specs::Notes::network_own))]
fn note_network_own(notes: &mut NoteList, network: &Value, path: &str) -> Result<(), AllocError>
    ensures { OnOk result (notes.new ≡ notes.old ++ network_own path.now (view network.now)) }
{
    let named = has_name(network);
    note_failed(notes, named, path, "name", NoteKind::Wrong)?;
    note_text(notes, network, path, "client-class")?;
    note_flag(notes, network, path, "reservations-out-of-pool")?;
    note_boot(notes, network, path)
}

// Reports whether a network has a name.
fn has_name(network: &Value) -> bool
    ensures { result ≡ is_some (option_and_then as_str (get (codes "name") (view network.now))) }
{
    let Some(name) = network.get("name") else {
        return false;
    };
    match name.as_str() {
        Some(_) => true,
        None => false,
    }
}

// Notes the options, the members and the relay of a network, by what holds for the whole server and
// these definitions of options.
#[tactic(auto, unfolding(crate::specs::Notes::network_lists))]
fn note_network_lists(
    notes: &mut NoteList,
    network: &Value,
    path: &str,
    around: Around,
    known: &[DefinedOption],
) -> Result<(), AllocError>
    ensures { OnOk result
        (notes.new ≡ notes.old ++ network_lists around known.now path.now (view network.now)) }
{
    let members = Listed {
        key: "subnet4",
        most: 64,
    };
    let around = around_inside(notes.allocator(), network, around)?;
    note_part_options(notes, network, path, known)?;
    note_list(
        notes,
        network,
        path,
        members,
        SubnetObject { around, known },
    )?;
    note_value(notes, network, path, "relay", RelayObject)
}

// Returns what holds above the members of a network, each part if it is right by itself.
#[tactic(auto, unfolding(crate::specs::Notes::around_members))]
fn around_inside(alloc: Global, network: &Value, around: Around) -> Result<Around, AllocError>
    ensures { IfOk result (λ inside. inside ≡ around_members around (view network.now)) }
{
    Ok(Around {
        address: around.address,
        times: around.times,
        keys: keys_inside(alloc, network, around.keys)?,
        by_class: around.by_class,
        outside: written_outside(network, around.outside),
        kinds: around.kinds,
        bare: names_are_bare(network, around.bare),
        policy: around.policy,
        boot: boot_inside(network, around.boot),
    })
}

// Returns what the keys for the times of leases say above the members of a network, if all that says
// so is right.
#[tactic(auto, unfolding(crate::specs::Notes::keys_in_network))]
fn keys_inside(
    alloc: Global,
    network: &Value,
    above: Option<TermKeys>,
) -> Result<Option<TermKeys>, AllocError>
    ensures { IfOk result (λ keys. keys ≡ keys_in_network above (view network.now)) }
{
    match above {
        Some(above) => read_alone(alloc, &KeysReader { above }, network),
        None => Ok(None),
    }
}

// Returns whether reservations of a network are looked for outside pools alone, if all that says so
// is right.
#[tactic(auto, unfolding(crate::specs::Notes::outside_in))]
fn written_outside(network: &Value, above: Option<bool>) -> Option<bool>
    ensures { result ≡ outside_in above (view network.now) }
{
    let other = above?;
    match network.get("reservations-out-of-pool") {
        Some(value) => value.as_bool(),
        None => Some(other),
    }
}

// Returns what is given to the boot fields above the members of a network, if all that says so is
// right.
#[tactic(auto, unfolding(crate::specs::Notes::boot_in))]
fn boot_inside(network: &Value, above: Option<Boot>) -> Option<Boot>
    ensures { result ≡ boot_in above (view network.now) }
{
    let above = above?;
    let boot = written_boot(network)?;
    Some(boot.or(above))
}
