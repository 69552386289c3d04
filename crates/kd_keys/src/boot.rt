ghost use Rattle.std.specs.Prelude.{◌≡◌, ◌≤◌, IfOk, Some, codes, length};
ghost use Rattle.std.specs.List.{list_all};
ghost use Rattle.serde_json.specs.Find.{get};
ghost use Rattle.serde_json.specs.View.{view};
ghost use Rattle.kd_fields.specs.Gives.{Means};
ghost use Rattle.kd_fields.specs.declared.faults.SettingsFault.TheVariants.{Memory};
ghost use Rattle.kd_keys.specs.Boot.{boot_listed, field_by, field_given, is_field_byte, is_field_text, kea_boot, next_server_given, nonzero_server, own_boot, zero_filled, server_in, without_zero};
ghost use Rattle.kd_keys.specs.Values.{unless_empty};

use crate::keys::{UsualValue, is_usual};
use kd_classes::{Boot, BootList};
use kd_fields::faults::SettingsFault;
use kd_fields::place::{Place, bad_value};
use kd_fields::values::address_in;
use serde_json::Value;
use std::alloc::{AllocError, Global};

// The address that is no server's: 255.255.255.255.
const BROADCAST: u32 = 4_294_967_295;

/// Reads what the whole server, a network or a subnet gives to the fields of a reply by which its
/// client boots.
///
/// # Errors
///
/// `BadValue` with the path of the first of the three keys that is wrong.
#[tactic(auto, unfolding(crate::specs::Boot::kea_boot))]
pub fn boot_of(alloc: Global, object: &Value, at: &Place<'_>) -> Result<Boot, SettingsFault>
    ensures { Means Memory result (kea_boot (view object.now)) }
{
    let Some(next_server) = written_server(object) else {
        return Err(bad_value(alloc, at, "next-server"));
    };
    let Some(server_name) = written_name(object) else {
        return Err(bad_value(alloc, at, "server-hostname"));
    };
    let Some(file_name) = written_file(object) else {
        return Err(bad_value(alloc, at, "boot-file-name"));
    };
    Ok(Boot {
        next_server,
        server_name,
        file_name,
    })
}

/// Returns what such an object gives to the fields, if it is right.
#[tactic(auto, unfolding(crate::specs::Boot::kea_boot))]
pub fn written_boot(object: &Value) -> Option<Boot>
    ensures { result ≡ kea_boot (view object.now) }
{
    let next_server = written_server(object)?;
    let server_name = written_name(object)?;
    let file_name = written_file(object)?;
    Some(Boot {
        next_server,
        server_name,
        file_name,
    })
}

/// Reads what a class or a reservation gives to the fields.
///
/// # Errors
///
/// `BadValue` with the path of the first of the three keys that is wrong.
#[tactic(auto, unfolding(crate::specs::Boot::own_boot))]
pub fn own_boot_of(alloc: Global, object: &Value, at: &Place<'_>) -> Result<Boot, SettingsFault>
    ensures { Means Memory result (own_boot (view object.now)) }
{
    let boot = boot_of(alloc, object, at)?;
    Ok(hiding_none(boot))
}

// Returns the same without the address 0.0.0.0.
fn hiding_none(boot: Boot) -> Boot
    ensures { result ≡ without_zero boot }
{
    Boot {
        next_server: non_zero(boot.next_server),
        server_name: boot.server_name,
        file_name: boot.file_name,
    }
}

// Returns an address, unless it is 0.0.0.0.
fn non_zero(address: Option<u32>) -> Option<u32>
    ensures { result ≡ nonzero_server address }
{
    match address {
        Some(0) => None,
        other => other,
    }
}

/// Returns what is given to the fields as a list, which is empty if nothing is.
///
/// # Errors
///
/// Out of memory.
pub fn boot_list(alloc: Global, boot: Boot) -> Result<BootList, AllocError>
    ensures { IfOk result (λ list. list ≡ boot_listed boot) }
{
    let mut list = Vec::new(alloc);
    if !boot.is_none() {
        list.push(boot)?;
    }
    Ok(BootList::own(list))
}

/// Returns the next server that an object gives, if it is right; an empty text is none.
pub fn written_server(object: &Value) -> Option<Option<u32>>
    ensures { result ≡ next_server_given (get (codes "next-server") (view object.now)) }
{
    match object.get("next-server") {
        None => Some(None),
        Some(value) if is_usual(UsualValue::Text(""), value) => Some(None),
        Some(value) => server_of(value),
    }
}

// Returns the address of a server: any but 255.255.255.255.
#[tactic(auto, unfolding(crate::specs::Boot::server_in))]
fn server_of(value: &Value) -> Option<Option<u32>>
    ensures { result ≡ server_in (view value.now) }
{
    let address = address_in(value)?;
    if address < BROADCAST {
        Some(Some(address))
    } else {
        None
    }
}

/// Returns the name of a server that an object gives, if it is right; an empty text is none.
pub fn written_name(object: &Value) -> Option<Option<[u8; 64]>>
    ensures { result ≡ field_given 64 (get (codes "server-hostname") (view object.now)) }
{
    written_field(object, "server-hostname")
}

/// Returns the name of a boot file that an object gives, if it is right; an empty text is none.
pub fn written_file(object: &Value) -> Option<Option<[u8; 128]>>
    ensures { result ≡ field_given 128 (get (codes "boot-file-name") (view object.now)) }
{
    written_field(object, "boot-file-name")
}

// Returns the text at a key in a field of N bytes, if it may be in one; an empty text is none.
#[tactic(auto, unfolding(crate::specs::Boot::field_given))]
fn written_field<const N: usize>(object: &Value, key: &str) -> Option<Option<[u8; N]>>
    ensures { result ≡ field_given N (get key.now (view object.now)) }
{
    match object.get(key) {
        Some(value) => field_of(value.as_str()?.as_bytes()),
        None => Some(None),
    }
}

// Returns a text in a field of N bytes, if it may be in one; an empty text is none.
fn field_of<const N: usize>(text: &[u8]) -> Option<Option<[u8; N]>>
    ensures { result ≡ field_by N (unless_empty (Some text.now)) }
{
    match text {
        [] => Some(None),
        [_, ..] => filled_field(text),
    }
}

// Returns a text in a field of N bytes, if it may be in one.
fn filled_field<const N: usize>(text: &[u8]) -> Option<Option<[u8; N]>>
    ensures { result ≡ field_by N (Some text.now) }
{
    if fits_field(N, text) {
        Some(Some(padded_field(text)))
    } else {
        None
    }
}

// Reports whether a text may be in a field of n bytes, with a zero behind it.
fn fits_field(n: usize, text: &[u8]) -> bool
    ensures { result ≡ is_field_text n text.now }
{
    text.len() < n && are_field_bytes(text)
}

// Reports whether each of these bytes may be in the text of a field.
fn are_field_bytes(text: &[u8]) -> bool
    ensures { result ≡ list_all is_field_byte text.now }
{
    text.iter().all(|b| is_text_byte(*b))
}

// Reports whether a byte may be in the text of a field, which a zero ends (RFC 2131 section 2).
fn is_text_byte(b: u8) -> bool
    ensures { result ≡ is_field_byte b }
{
    b != 0
}

// Returns a text in a field of N bytes: zeros are behind it.
fn padded_field<const N: usize>(text: &[u8]) -> [u8; N]
    requires { length text.now ≤ N }
    ensures { result ≡ zero_filled N text.now }
{
    let mut field = [0; N];
    field[..text.len()].copy_from_slice(text);
    field
}
