ghost use Rattle.std.specs.Prelude.{◌≡◌, ◌++◌, OnOk, codes, is_some, option_and_then};
ghost use Rattle.serde_json.specs.Find.{get};
ghost use Rattle.serde_json.specs.View.{view};
ghost use Rattle.kd_json.specs.Subnet.{subnet_prefix};
ghost use Rattle.kd_fields.specs.Values.{number_if_given, text_if_given};
ghost use Rattle.kd_notes.specs.Notes.{boot_notes, flag_note, hook_kind, hook_notes, host_values, interface_notes, joined_note, kind_notes, name_notes, number_note, off_notes, policy_notes, server_flags, service_notes, subnet_own, subnet_values, text_note, usual_note};
ghost use Rattle.kd_keys.specs.Rows.{plain_of};

use crate::around::Around;
use crate::list::NoteList;
use crate::notes::NoteKind;
use crate::walk::{NotedObject, note_failed, note_value};
use crate::wholes::NameReader;
use kd_config::Policy;
use kd_fields::values::number_in;
use kd_kea::objects::reservation::ReservationReader;
use kd_kea::objects::settings::is_off;
use kd_kea::objects::subnet::{has_server_interface, written_prefix};
use kd_keys::alone::read_alone;
use kd_keys::boot::{written_file, written_name, written_server};
use kd_keys::class_names::GivenClassesReader;
use kd_keys::flags::{flag_in, is_usual_at};
use kd_keys::hooks::are_quiet_hooks;
use kd_keys::host_kinds::{HostKinds, all_kinds, has_identifiers, key_of_kind};
use kd_keys::host_name::may_have_name;
use kd_keys::keys::UsualValue;
use serde_json::Value;
use std::alloc::AllocError;

// Notes what other services and hooks do, and where the configuration is kept.
#[tactic(auto, unfolding(crate::specs::Notes::service_notes))]
pub(crate) fn note_services(
    notes: &mut NoteList,
    dhcp4: &Value,
    path: &str,
) -> Result<(), AllocError>
    ensures { OnOk result (notes.new ≡ notes.old ++ service_notes path.now (view dhcp4.now)) }
{
    let updates = OffValue {
        key: "enable-updates",
        usual: UsualValue::Flag(false),
    };
    let databases = OffValue {
        key: "config-databases",
        usual: UsualValue::EmptyList,
    };
    let identifiers = "host-reservation-identifiers";
    note_value(notes, dhcp4, path, "dhcp-ddns", updates)?;
    note_value(notes, dhcp4, path, "config-control", databases)?;
    note_failed(
        notes,
        has_identifiers(dhcp4),
        path,
        identifiers,
        NoteKind::Unknown,
    )?;
    note_value(notes, dhcp4, path, "hooks-libraries", HooksValue)
}

// Notes the keys of a subnet that are served with some values only, by what holds for the whole
// server.
#[tactic(auto, unfolding(crate::specs::Notes::subnet_values))]
pub(crate) fn note_subnet_values(
    notes: &mut NoteList,
    subnet: &Value,
    path: &str,
    around: Around,
) -> Result<(), AllocError>
    ensures { OnOk result
        (notes.new ≡ notes.old ++ subnet_values around path.now (view subnet.now)) }
{
    note_policy(notes, subnet, path, around.policy)?;
    note_interface(notes, subnet, path, around.address)
}

// A value that turns nothing on if its key is absent or has its usual value.
#[derive(Clone, Copy)]
struct OffValue {
    key: &'static str,
    usual: UsualValue,
}

impl NotedObject for OffValue {
    ghost noted = { λ it. off_notes it.key.now (plain_of it.usual) };

    fn note(self, notes: &mut NoteList, value: &Value, path: &str) -> Result<(), AllocError> {
        if is_off(value, self.key, self.usual) {
            return notes.push_path(path, NoteKind::Skipped);
        }
        if value.as_object().is_none() {
            return notes.push_path(path, NoteKind::Wrong);
        }
        let path = notes.path_of_key(path, self.key)?;
        notes.push_path(&path, NoteKind::Unknown)
    }
}

// The list of hooks.
#[derive(Clone, Copy)]
struct HooksValue;

impl NotedObject for HooksValue {
    ghost noted = { λ it. hook_notes };

    fn note(self, notes: &mut NoteList, hooks: &Value, path: &str) -> Result<(), AllocError> {
        notes.push_path(path, kind_of_hooks(are_quiet_hooks(hooks)))
    }
}

// Returns what is noted of hooks.
fn kind_of_hooks(quiet: bool) -> NoteKind
    ensures { result ≡ hook_kind quiet }
{
    if quiet {
        NoteKind::Skipped
    } else {
        NoteKind::Unknown
    }
}

// Notes the policy of a subnet or a network, which may only be that of the whole server, if that is
// known.
pub(crate) fn note_policy(
    notes: &mut NoteList,
    object: &Value,
    path: &str,
    policy: Option<Policy>,
) -> Result<(), AllocError>
    ensures { OnOk result
        (notes.new ≡ notes.old ++ policy_notes policy path.now (view object.now)) }
{
    let Some(policy) = policy else {
        return Ok(());
    };
    let authoritative = UsualValue::Flag(policy.is_authoritative);
    note_unusual(notes, object, path, "authoritative", authoritative)?;
    let matches = UsualValue::Flag(policy.matches_client_ids);
    note_unusual(notes, object, path, "match-client-id", matches)
}

// Notes the interface of a subnet, if the server's address and the subnet's prefix are known.
fn note_interface(
    notes: &mut NoteList,
    subnet: &Value,
    path: &str,
    address: Option<u32>,
) -> Result<(), AllocError>
    ensures { OnOk result (notes.new ≡ notes.old
        ++ interface_notes address (option_and_then subnet_prefix (get (codes "subnet") (view subnet.now)))
        path.now (view subnet.now)) }
{
    let Some(server) = address else {
        return Ok(());
    };
    let Some(prefix) = written_prefix(subnet) else {
        return Ok(());
    };
    let here = has_server_interface(subnet, server, prefix);
    note_failed(notes, here, path, "interface", NoteKind::Unknown)
}

// Notes that a key of the object at a path is refused, unless it is absent or has its usual value.
fn note_unusual(
    notes: &mut NoteList,
    object: &Value,
    path: &str,
    key: &'static str,
    usual: UsualValue,
) -> Result<(), AllocError>
    ensures { OnOk result (notes.new
        ≡ notes.old ++ usual_note (plain_of usual) path.now key.now (view object.now)) }
{
    let passed = is_usual_at(object, key, usual);
    note_failed(notes, passed, path, key, NoteKind::Unknown)
}

// Notes the values of a subnet that are wrong by themselves.
#[tactic(auto, unfolding(crate::specs::Notes::subnet_own))]
pub(crate) fn note_subnet_own(
    notes: &mut NoteList,
    subnet: &Value,
    path: &str,
) -> Result<(), AllocError>
    ensures { OnOk result (notes.new ≡ notes.old ++ subnet_own path.now (view subnet.now)) }
{
    let id = Number {
        key: "id",
        least: 1,
        most: 4_294_967_294,
    };
    let prefix = written_prefix(subnet);
    note_number(notes, subnet, path, id)?;
    note_failed(notes, prefix.is_some(), path, "subnet", NoteKind::Wrong)?;
    note_text(notes, subnet, path, "client-class")?;
    note_flag(notes, subnet, path, "reservations-out-of-pool")?;
    note_boot(notes, subnet, path)
}

// Notes the truth values and the boot fields of the whole server that are wrong.
#[tactic(auto, unfolding(crate::specs::Notes::server_flags))]
pub(crate) fn note_server_flags(
    notes: &mut NoteList,
    dhcp4: &Value,
    path: &str,
) -> Result<(), AllocError>
    ensures { OnOk result (notes.new ≡ notes.old ++ server_flags path.now (view dhcp4.now)) }
{
    note_flag(notes, dhcp4, path, "reservations-out-of-pool")?;
    note_flag(notes, dhcp4, path, "authoritative")?;
    note_flag(notes, dhcp4, path, "match-client-id")?;
    note_boot(notes, dhcp4, path)
}

// Notes the keys for the boot fields that are wrong, each by itself.
#[tactic(auto, unfolding(crate::specs::Notes::boot_notes))]
pub(crate) fn note_boot(notes: &mut NoteList, object: &Value, path: &str) -> Result<(), AllocError>
    ensures { OnOk result (notes.new ≡ notes.old ++ boot_notes path.now (view object.now)) }
{
    let server = written_server(object).is_some();
    note_failed(notes, server, path, "next-server", NoteKind::Wrong)?;
    let name = written_name(object).is_some();
    note_failed(notes, name, path, "server-hostname", NoteKind::Wrong)?;
    let file = written_file(object).is_some();
    note_failed(notes, file, path, "boot-file-name", NoteKind::Wrong)
}

// A key of a number, and its range.
#[derive(Clone, Copy)]
pub(crate) struct Number {
    pub(crate) key: &'static str,
    pub(crate) least: u32,
    pub(crate) most: u32,
}

// Notes that a number is wrong, unless it is absent or in its range.
pub(crate) fn note_number(
    notes: &mut NoteList,
    object: &Value,
    path: &str,
    number: Number,
) -> Result<(), AllocError>
    ensures { OnOk result (notes.new ≡ notes.old
        ++ number_note number.least number.most number.key.now path.now
        (view object.now)) }
{
    let Number { key, least, most } = number;
    let right = is_within(object, key, least, most);
    note_failed(notes, right, path, key, NoteKind::Wrong)
}

// Reports whether the value at a key is absent, or a number in a range.
fn is_within(object: &Value, key: &str, least: u32, most: u32) -> bool
    ensures { result ≡ is_some (number_if_given least most least (get key.now (view object.now))) }
{
    match object.get(key) {
        Some(value) => number_in(value, least, most).is_some(),
        None => true,
    }
}

// Notes that a truth value is wrong, unless it is absent or one.
pub(crate) fn note_flag(
    notes: &mut NoteList,
    object: &Value,
    path: &str,
    key: &'static str,
) -> Result<(), AllocError>
    ensures { OnOk result (notes.new ≡ notes.old ++ flag_note key.now path.now (view object.now)) }
{
    let right = flag_in(object, key).is_some();
    note_failed(notes, right, path, key, NoteKind::Wrong)
}

// Notes that a text is wrong, unless it is absent or one.
pub(crate) fn note_text(
    notes: &mut NoteList,
    object: &Value,
    path: &str,
    key: &'static str,
) -> Result<(), AllocError>
    ensures { OnOk result (notes.new ≡ notes.old ++ text_note key.now path.now (view object.now)) }
{
    note_failed(notes, is_text(object, key), path, key, NoteKind::Wrong)
}

// Reports whether the value at a key is absent, or a text.
fn is_text(object: &Value, key: &str) -> bool
    ensures { result ≡ is_some (text_if_given (get key.now (view object.now))) }
{
    let Some(value) = object.get(key) else {
        return true;
    };
    match value.as_str() {
        Some(_) => true,
        None => false,
    }
}

// Notes the keys of a reservation by which reservations are not looked for, its host name and its
// classes.
#[tactic(auto, unfolding(crate::specs::Notes::host_values))]
pub(crate) fn note_host_values(
    notes: &mut NoteList,
    host: &Value,
    path: &str,
    reader: ReservationReader<'_>,
) -> Result<(), AllocError>
    ensures { OnOk result (notes.new ≡ notes.old
        ++ host_values reader.entry.kinds reader.entry.bare path.now (view host.now)) }
{
    note_kinds(notes, host, path, reader.kinds)?;
    note_name(notes, host, path, reader.bare)?;
    note_joined(notes, host, path)
}

// Notes the classes that a reservation gives, if they are wrong.
#[tactic(auto, unfolding(crate::specs::Notes::joined_note))]
fn note_joined(notes: &mut NoteList, host: &Value, path: &str) -> Result<(), AllocError>
    ensures { OnOk result (notes.new ≡ notes.old ++ joined_note path.now (view host.now)) }
{
    let given = read_alone(notes.allocator(), &GivenClassesReader, host)?;
    note_failed(
        notes,
        given.is_some(),
        path,
        "client-classes",
        NoteKind::Wrong,
    )
}

// Notes the keys of a reservation by which reservations are not looked for.
fn note_kinds(
    notes: &mut NoteList,
    host: &Value,
    path: &str,
    kinds: HostKinds,
) -> Result<(), AllocError>
    ensures { OnOk result (notes.new ≡ notes.old ++ kind_notes kinds path.now (view host.now)) }
{
    let order = all_kinds();
    for kind in order {
        let found = kinds.allow(host, *kind);
        note_failed(notes, found, path, key_of_kind(*kind), NoteKind::Unknown)?;
    }
    Ok(())
}

// Notes the host name of a reservation, if it is wrong or would have a suffix.
fn note_name(notes: &mut NoteList, host: &Value, path: &str, bare: bool) -> Result<(), AllocError>
    ensures { OnOk result (notes.new ≡ notes.old ++ name_notes bare path.now (view host.now)) }
{
    match read_alone(notes.allocator(), &NameReader, host)? {
        Some(name) => {
            let passed = may_have_name(bare, &name);
            note_failed(notes, passed, path, "hostname", NoteKind::Unknown)
        }
        None => note_failed(notes, false, path, "hostname", NoteKind::Wrong),
    }
}
