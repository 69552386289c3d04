ghost use Rattle.std.specs.Prelude.{◌≡◌, ◌++◌, OnOk, codes, false, true};
ghost use Rattle.serde_json.specs.Find.{get};
ghost use Rattle.serde_json.specs.View.{members_view, view};
ghost use Rattle.kd_keys.specs.HostName.{has_bare_names};
ghost use Rattle.kd_keys.specs.Keys.{key_use};
ghost use Rattle.kd_notes.specs.Notes.{all_subnet_notes, class_notes, data_notes, definition_note, definition_notes, host_notes, key_notes, kind_of_note, listed_notes, lists_by, member_keys, note_below, option_notes, own_notes, pool_notes, relay_notes, root_notes, server_lists, server_notes, subnet_lists, subnet_notes, subnet_own, subnet_values, term_notes};
ghost use Rattle.kd_keys.specs.Scope.{definitions_in};
ghost use Rattle.kd_keys.specs.Tables.{key_table, subnet_keys};

use crate::around::{Around, BelowReader, is_beside, read_around};
use crate::list::NoteList;
use crate::networks::NetworkObject;
use crate::notes::NoteKind;
use crate::times::{note_class_lifetime, note_server_times, note_term};
use crate::values::{
    note_boot, note_host_values, note_server_flags, note_services, note_subnet_own,
    note_subnet_values, note_text,
};
use crate::walk::{
    Listed, NotedObject, append_checked, note_each, note_failed, note_list, note_value,
};
use crate::wholes::{DefinitionListReader, OptionListReader, RootReader, ServerReader};
use kd_kea::objects::class::{ClassReader, has_class_name};
use kd_kea::objects::pool::{PoolReader, has_range};
use kd_kea::objects::reservation::ReservationReader;
use kd_keys::checking::{UPDATES, is_allowed};
use kd_keys::definition::{DefinedOption, DefinitionReader, definitions_alone, known_alone};
use kd_keys::entry::{OptionReader, has_served_space};
use kd_keys::host_name::names_are_bare;
use kd_keys::keys::{KeyRule, rule_in};
use kd_keys::relay::RelayReader;
use kd_keys::scope::{OptionScope, part_scope, scope_of_all};
use kd_keys::tables::ObjectKind;
use serde_json::{Map, Value};
use std::alloc::AllocError;

// Notes the value of a whole text, for a server with this address if no option has another.
#[tactic(auto, unfolding(crate::specs::Notes::root_notes))]
pub(crate) fn note_root(
    notes: &mut NoteList,
    root: &Value,
    address: Option<u32>,
) -> Result<(), AllocError>
    ensures { OnOk result (notes.new ≡ notes.old ++ root_notes address (view root.now)) }
{
    if root.as_object().is_none() {
        return notes.push_path("", NoteKind::Wrong);
    }
    let mut inner = NoteList::new(notes.allocator());
    note_keys(&mut inner, root, "", ObjectKind::Whole)?;
    note_value(&mut inner, root, "", "Dhcp4", ServerObject { address })?;
    append_checked(notes, inner, &RootReader { address }, root, "")
}

// The value of `Dhcp4`, for a server with this address if no option has another.
#[derive(Clone, Copy)]
struct ServerObject {
    address: Option<u32>,
}

impl NotedObject for ServerObject {
    ghost noted = { λ it. server_notes it.address };

    #[tactic(auto, unfolding(crate::specs::Notes::server_notes))]
    fn note(self, notes: &mut NoteList, server: &Value, path: &str) -> Result<(), AllocError> {
        if server.as_object().is_none() {
            return notes.push_path(path, NoteKind::Wrong);
        }
        let mut inner = NoteList::new(notes.allocator());
        note_keys(&mut inner, server, path, ObjectKind::Server)?;
        note_services(&mut inner, server, path)?;
        note_server_times(&mut inner, server, path)?;
        note_server_flags(&mut inner, server, path)?;
        note_server_lists(&mut inner, server, path, self.address)?;
        let reader = ServerReader {
            address: self.address,
        };
        append_checked(notes, inner, &reader, server, path)
    }
}

// Notes the lists in the value of `Dhcp4`.
#[tactic(auto, unfolding(crate::specs::Notes::server_lists))]
fn note_server_lists(
    notes: &mut NoteList,
    server: &Value,
    path: &str,
    address: Option<u32>,
) -> Result<(), AllocError>
    ensures { OnOk result
        (notes.new ≡ notes.old ++ server_lists address path.now (view server.now)) }
{
    let around = read_around(notes.allocator(), server, address)?;
    let known = known_alone(notes.allocator(), server)?;
    note_lists_by(notes, server, path, around, known.as_slice())
}

// Notes the lists in the value of `Dhcp4`, by what holds for the whole server and these definitions.
#[tactic(auto, unfolding(crate::specs::Notes::lists_by))]
fn note_lists_by(
    notes: &mut NoteList,
    server: &Value,
    path: &str,
    around: Around,
    known: &[DefinedOption],
) -> Result<(), AllocError>
    ensures { OnOk result
        (notes.new ≡ notes.old ++ lists_by around known.now path.now (view server.now)) }
{
    let classes = Listed {
        key: "client-classes",
        most: 256,
    };
    note_definitions(notes, server, path, false)?;
    note_all_options(notes, server, path, known)?;
    note_list(notes, server, path, classes, ClassObject { known })?;
    note_all_subnets(notes, server, path, around, known)
}

// Notes the networks and the subnets of the whole server.
#[tactic(auto, unfolding(crate::specs::Notes::all_subnet_notes))]
fn note_all_subnets(
    notes: &mut NoteList,
    server: &Value,
    path: &str,
    around: Around,
    known: &[DefinedOption],
) -> Result<(), AllocError>
    ensures { OnOk result
        (notes.new ≡ notes.old ++ all_subnet_notes around known.now path.now (view server.now)) }
{
    let networks = Listed {
        key: "shared-networks",
        most: 256,
    };
    let subnets = Listed {
        key: "subnet4",
        most: 256,
    };
    note_list(
        notes,
        server,
        path,
        networks,
        NetworkObject { around, known },
    )?;
    note_list(notes, server, path, subnets, SubnetObject { around, known })
}

// A class, with the definitions of options of the whole server.
#[derive(Clone, Copy)]
struct ClassObject<'a> {
    known: &'a [DefinedOption],
}

impl<'a> NotedObject for ClassObject<'a> {
    ghost noted = { λ it. class_notes it.known.now };

    #[tactic(auto, unfolding(crate::specs::Notes::class_notes))]
    fn note(self, notes: &mut NoteList, class: &Value, path: &str) -> Result<(), AllocError> {
        if class.as_object().is_none() {
            return notes.push_path(path, NoteKind::Wrong);
        }
        let own = definitions_alone(notes.allocator(), class, true)?;
        let scope = OptionScope {
            for_all: false,
            own: own.as_slice(),
            shared: self.known,
        };
        let mut inner = NoteList::new(notes.allocator());
        note_keys(&mut inner, class, path, ObjectKind::Class)?;
        note_failed(
            &mut inner,
            has_class_name(class),
            path,
            "name",
            NoteKind::Wrong,
        )?;
        note_text(&mut inner, class, path, "test")?;
        note_boot(&mut inner, class, path)?;
        note_class_lifetime(&mut inner, class, path)?;
        note_definitions(&mut inner, class, path, true)?;
        note_options(&mut inner, class, path, scope)?;
        append_checked(
            notes,
            inner,
            &ClassReader { known: self.known },
            class,
            path,
        )
    }
}

// A subnet, below what holds for the whole server and with its definitions of options.
#[derive(Clone, Copy)]
pub(crate) struct SubnetObject<'a> {
    pub(crate) around: Around,
    pub(crate) known: &'a [DefinedOption],
}

impl<'a> NotedObject for SubnetObject<'a> {
    ghost noted = { λ it. subnet_notes it.around it.known.now };

    #[tactic(auto, unfolding(crate::specs::Notes::subnet_notes))]
    fn note(self, notes: &mut NoteList, subnet: &Value, path: &str) -> Result<(), AllocError> {
        if subnet.as_object().is_none() {
            return notes.push_path(path, NoteKind::Wrong);
        }
        let reader = BelowReader {
            around: self.around,
            known: self.known,
        };
        let alloc = notes.allocator();
        let beside = is_beside(alloc, subnet, self.around, self.known)?;
        let mut inner = NoteList::new(notes.allocator());
        note_subnet_keys(&mut inner, subnet, path, self.around)?;
        note_failed(
            &mut inner,
            beside,
            path,
            "reservations-out-of-pool",
            NoteKind::Unknown,
        )?;
        let hosts = ReservationReader {
            known: self.known,
            kinds: self.around.kinds,
            bare: self.around.bare,
        };
        note_subnet_lists(&mut inner, subnet, path, hosts)?;
        append_checked(notes, inner, &reader, subnet, path)
    }
}

// Notes the keys of a subnet, and its own values.
fn note_subnet_keys(
    notes: &mut NoteList,
    subnet: &Value,
    path: &str,
    around: Around,
) -> Result<(), AllocError>
    ensures { OnOk result
        (notes.new ≡ notes.old ++ (own_notes subnet_keys path.now (view subnet.now)
        ++ subnet_values around path.now (view subnet.now)
        ++ term_notes 0 around.keys path.now (view subnet.now)
        ++ subnet_own path.now (view subnet.now))) }
{
    note_keys(notes, subnet, path, ObjectKind::Subnet)?;
    note_subnet_values(notes, subnet, path, around)?;
    note_term(notes, subnet, path, 0, around.keys)?;
    note_subnet_own(notes, subnet, path)
}

// Notes the lists and the relay of a subnet, whose reservations are read in this way if it does not
// say otherwise.
#[tactic(auto, unfolding(crate::specs::Notes::subnet_lists))]
fn note_subnet_lists(
    notes: &mut NoteList,
    subnet: &Value,
    path: &str,
    hosts: ReservationReader<'_>,
) -> Result<(), AllocError>
    ensures { OnOk result (notes.new ≡ notes.old
        ++ subnet_lists hosts.entry.known.now hosts.entry.kinds hosts.entry.bare path.now
        (view subnet.now)) }
{
    let pools = Listed {
        key: "pools",
        most: 64,
    };
    let known = hosts.known;
    note_part_options(notes, subnet, path, known)?;
    note_list(notes, subnet, path, pools, PoolObject { known })?;
    note_hosts(notes, subnet, path, hosts)?;
    note_value(notes, subnet, path, "relay", RelayObject)
}

// Notes the reservations of a subnet, which are read in this way if it does not say otherwise.
fn note_hosts(
    notes: &mut NoteList,
    subnet: &Value,
    path: &str,
    above: ReservationReader<'_>,
) -> Result<(), AllocError>
    ensures { OnOk result (notes.new ≡ notes.old
        ++ listed_notes 4096 (host_notes above.entry.known.now above.entry.kinds
        (has_bare_names above.entry.bare (view subnet.now)))
        (codes "reservations") path.now (view subnet.now)) }
{
    let hosts = Listed {
        key: "reservations",
        most: 4096,
    };
    let known = above.known;
    let reader = ReservationReader {
        known,
        kinds: above.kinds,
        bare: names_are_bare(subnet, above.bare),
    };
    note_list(notes, subnet, path, hosts, HostObject { reader })
}

// A pool, with the definitions of options.
#[derive(Clone, Copy)]
struct PoolObject<'a> {
    known: &'a [DefinedOption],
}

impl<'a> NotedObject for PoolObject<'a> {
    ghost noted = { λ it. pool_notes it.known.now };

    #[tactic(auto, unfolding(crate::specs::Notes::pool_notes))]
    fn note(self, notes: &mut NoteList, pool: &Value, path: &str) -> Result<(), AllocError> {
        if pool.as_object().is_none() {
            return notes.push_path(path, NoteKind::Wrong);
        }
        let mut inner = NoteList::new(notes.allocator());
        note_keys(&mut inner, pool, path, ObjectKind::Pool)?;
        note_failed(&mut inner, has_range(pool), path, "pool", NoteKind::Wrong)?;
        note_text(&mut inner, pool, path, "client-class")?;
        note_part_options(&mut inner, pool, path, self.known)?;
        append_checked(notes, inner, &PoolReader { known: self.known }, pool, path)
    }
}

// A reservation, as it is read.
#[derive(Clone, Copy)]
struct HostObject<'a> {
    reader: ReservationReader<'a>,
}

impl<'a> NotedObject for HostObject<'a> {
    ghost noted = { λ it. host_notes it.reader.known.now it.reader.kinds it.reader.bare };

    #[tactic(auto, unfolding(crate::specs::Notes::host_notes))]
    fn note(self, notes: &mut NoteList, host: &Value, path: &str) -> Result<(), AllocError> {
        if host.as_object().is_none() {
            return notes.push_path(path, NoteKind::Wrong);
        }
        let mut inner = NoteList::new(notes.allocator());
        note_keys(&mut inner, host, path, ObjectKind::Reservation)?;
        note_host_values(&mut inner, host, path, self.reader)?;
        note_boot(&mut inner, host, path)?;
        note_part_options(&mut inner, host, path, self.reader.known)?;
        append_checked(notes, inner, &self.reader, host, path)
    }
}

// The relay of a subnet or a network.
#[derive(Clone, Copy)]
pub(crate) struct RelayObject;

impl NotedObject for RelayObject {
    ghost noted = { λ it. relay_notes };

    #[tactic(auto, unfolding(crate::specs::Notes::relay_notes))]
    fn note(self, notes: &mut NoteList, relay: &Value, path: &str) -> Result<(), AllocError> {
        if relay.as_object().is_none() {
            return notes.push_path(path, NoteKind::Wrong);
        }
        let mut inner = NoteList::new(notes.allocator());
        note_keys(&mut inner, relay, path, ObjectKind::Relay)?;
        append_checked(notes, inner, &RelayReader, relay, path)
    }
}

// An option, by the definitions of a scope.
#[derive(Clone, Copy)]
struct OptionObject<'a> {
    scope: OptionScope<'a>,
}

impl<'a> NotedObject for OptionObject<'a> {
    ghost noted = { λ it. data_notes it.scope.for_all (definitions_in it.scope) };

    #[tactic(auto, unfolding(crate::specs::Notes::data_notes))]
    fn note(self, notes: &mut NoteList, option: &Value, path: &str) -> Result<(), AllocError> {
        if option.as_object().is_none() {
            return notes.push_path(path, NoteKind::Wrong);
        }
        let mut inner = NoteList::new(notes.allocator());
        note_keys(&mut inner, option, path, ObjectKind::Data)?;
        note_failed(
            &mut inner,
            has_served_space(option),
            path,
            "space",
            NoteKind::Unknown,
        )?;
        append_checked(
            notes,
            inner,
            &OptionReader { scope: self.scope },
            option,
            path,
        )
    }
}

// Notes the options of a part of the server at a path, by the definitions of the whole.
pub(crate) fn note_part_options(
    notes: &mut NoteList,
    object: &Value,
    path: &str,
    known: &[DefinedOption],
) -> Result<(), AllocError>
    ensures { OnOk result
        (notes.new ≡ notes.old ++ option_notes false known.now path.now (view object.now)) }
{
    note_options(notes, object, path, part_scope(known))
}

// Notes the options for all clients at a path, by the definitions of the whole server.
fn note_all_options(
    notes: &mut NoteList,
    object: &Value,
    path: &str,
    known: &[DefinedOption],
) -> Result<(), AllocError>
    ensures { OnOk result
        (notes.new ≡ notes.old ++ option_notes true known.now path.now (view object.now)) }
{
    note_options(notes, object, path, scope_of_all(known))
}

// Notes the options of the object at a path: each, and then the list.
#[tactic(auto, unfolding(crate::specs::Notes::option_notes))]
fn note_options(
    notes: &mut NoteList,
    object: &Value,
    path: &str,
    scope: OptionScope<'_>,
) -> Result<(), AllocError>
    ensures { OnOk result (notes.new ≡ notes.old
        ++ option_notes scope.entry.for_all (definitions_in scope.entry) path.now
        (view object.now)) }
{
    let list = notes.path_of_key(path, "option-data")?;
    let mut inner = NoteList::new(notes.allocator());
    note_each(
        &mut inner,
        object,
        path,
        "option-data",
        OptionObject { scope },
    )?;
    append_checked(notes, inner, &OptionListReader { scope }, object, &list)
}

// A definition of an option, of a class or of the whole server.
#[derive(Clone, Copy)]
struct DefinitionObject {
    in_class: bool,
}

impl NotedObject for DefinitionObject {
    ghost noted = { λ it. definition_note it.in_class };

    #[tactic(auto, unfolding(crate::specs::Notes::definition_note))]
    fn note(self, notes: &mut NoteList, definition: &Value, path: &str) -> Result<(), AllocError> {
        if definition.as_object().is_none() {
            return notes.push_path(path, NoteKind::Wrong);
        }
        let reader = DefinitionReader {
            in_class: self.in_class,
        };
        let mut inner = NoteList::new(notes.allocator());
        note_keys(&mut inner, definition, path, ObjectKind::Definition)?;
        append_checked(notes, inner, &reader, definition, path)
    }
}

// Notes the definitions of options of the object at a path: each, and then the list.
#[tactic(auto, unfolding(crate::specs::Notes::definition_notes))]
fn note_definitions(
    notes: &mut NoteList,
    object: &Value,
    path: &str,
    in_class: bool,
) -> Result<(), AllocError>
    ensures { OnOk result
        (notes.new ≡ notes.old ++ definition_notes in_class path.now (view object.now)) }
{
    let list = notes.path_of_key(path, "option-def")?;
    let mut inner = NoteList::new(notes.allocator());
    note_each(
        &mut inner,
        object,
        path,
        "option-def",
        DefinitionObject { in_class },
    )?;
    append_checked(
        notes,
        inner,
        &DefinitionListReader { in_class },
        object,
        &list,
    )
}

// Notes the keys of an object at a path that are not read; none of another value.
#[tactic(auto, unfolding(crate::specs::Notes::own_notes))]
pub(crate) fn note_keys(
    notes: &mut NoteList,
    object: &Value,
    path: &str,
    kind: ObjectKind,
) -> Result<(), AllocError>
    ensures { OnOk result (notes.new
        ≡ notes.old ++ own_notes (key_table kind) path.now (view object.now)) }
{
    match object.as_object() {
        Some(members) => note_members(notes, members, object, path, kind),
        None => Ok(()),
    }
}

// Notes the keys of members of an object at a path that are not read.
#[tactic(auto, using(crate::proofs::Noted::keys_seen))]
fn note_members(
    notes: &mut NoteList,
    members: &Map<String, Value>,
    object: &Value,
    path: &str,
    kind: ObjectKind,
) -> Result<(), AllocError>
    ensures { OnOk result (notes.new ≡ notes.old
        ++ key_notes (key_table kind) path.now (view object.now)
        (member_keys (members_view members.now.entries))) }
{
    for key in members.keys() {
        note_key(notes, object, path, key.as_str(), kind)?;
    }
    Ok(())
}

// Notes a key of an object at a path, if it is not read.
fn note_key(
    notes: &mut NoteList,
    object: &Value,
    path: &str,
    key: &str,
    kind: ObjectKind,
) -> Result<(), AllocError>
    ensures { OnOk result (notes.new ≡ notes.old
        ++ note_below path.now key.now
        (kind_of_note (key_use (key_table kind) key.now) (get key.now (view object.now)))) }
{
    match note_for(kind, key, object) {
        Some(found) => notes.push(path, key, found),
        None => Ok(()),
    }
}

// Returns what is noted of a key of an object, if anything is.
fn note_for(kind: ObjectKind, key: &str, object: &Value) -> Option<NoteKind>
    ensures { result
        ≡ kind_of_note (key_use (key_table kind) key.now) (get key.now (view object.now)) }
{
    if key.as_bytes().starts_with(UPDATES) {
        return Some(NoteKind::Skipped);
    }
    match rule_in(kind.tables(), key) {
        Some(KeyRule::Skipped) => Some(NoteKind::Skipped),
        _ if is_allowed(kind, key, object) => None,
        _ => Some(NoteKind::Unknown),
    }
}
