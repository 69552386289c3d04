ghost use Rattle.std.specs.Prelude.{◌≡◌, ◌==◌, ◌≤◌, IfOk, option_map};
ghost use Rattle.std.specs.List.{list_all, slice_split};
ghost use Rattle.memchr.specs.Find.{is_byte};
ghost use Rattle.kd_values.specs.Parts.{values_in};
ghost use Rattle.kd_values.specs.Names.{label_spelled, name_spelled, route_of_parts, route_spelled, without_last_dot};

use crate::number::number_of_digits;
use crate::parts::{first_part, halves_of, trim};
use kd_expr::read_address;
use kd_names::{is_name_label, is_whole_route};
use kd_wire::Bytes;
use std::alloc::{AllocError, Global};

// The most bytes of a name with its last zero (RFC 1035 section 2.3.4).
const NAME_BYTES: usize = 255;

// How many lengths a prefix may have: 0 to 32 bits.
const PREFIX_LENGTHS: u64 = 33;

// Reads a domain name.
pub(crate) fn name_of(alloc: Global, text: &[u8]) -> Result<Option<Bytes>, AllocError>
    ensures { IfOk result (λ value. value ≡ name_spelled text.now) }
{
    let Some(mut name) = labels_of(alloc, without_dot(text))? else {
        return Ok(None);
    };
    if name.len() >= NAME_BYTES {
        return Ok(None);
    }
    name.push(0)?;
    Ok(Some(Bytes::own(name)))
}

// Strips a dot at the end of a text.
fn without_dot(text: &[u8]) -> &[u8]
    ensures { result.now ≡ without_last_dot text.now }
{
    if text.is_empty() {
        return text;
    }
    if text[text.len() - 1] != b'.' {
        return text;
    }
    &text[..text.len() - 1]
}

// Reads labels between dots.
fn labels_of(alloc: Global, text: &[u8]) -> Result<Option<Vec<u8>>, AllocError>
    ensures { IfOk result (λ labels. option_map (λ v. v.items) labels
        ≡ values_in label_spelled (slice_split (is_byte 46) text.now)) }
{
    let mut labels = Vec::new(alloc);
    let mut left = text;
    'labels: loop {
        let (label, rest) = first_part(b'.', left);
        if !is_name_label(label) {
            return Ok(None);
        }
        labels.push(label.len() as u8)?;
        labels.extend_from_slice(label)?;
        match rest {
            Some(rest) => left = rest,
            None => return Ok(Some(labels)),
        }
    }
}

// Reads a classless route.
#[tactic(auto, unfolding(crate::specs::Names::route_spelled))]
pub(crate) fn route_of(alloc: Global, text: &[u8]) -> Result<Option<Bytes>, AllocError>
    ensures { IfOk result (λ value. value ≡ route_spelled text.now) }
{
    let Some((prefix, router)) = halves_of(b'-', text) else {
        return Ok(None);
    };
    let Some((address, bits)) = halves_of(b'/', trim(prefix)) else {
        return Ok(None);
    };
    let Some(address) = read_address(address) else {
        return Ok(None);
    };
    let Some(bits) = number_of_digits(10, bits, PREFIX_LENGTHS) else {
        return Ok(None);
    };
    let Some(router) = read_address(trim(router)) else {
        return Ok(None);
    };
    route_between(alloc, &address, bits as u8, &router)
}

// Returns the value of a route, if no bit of its address is set that its length does not reach.
fn route_between(
    alloc: Global,
    address: &[u8; 4],
    bits: u8,
    router: &[u8],
) -> Result<Option<Bytes>, AllocError>
    requires { bits ≤ 32 }
    ensures { IfOk result (λ value. value ≡ route_of_parts address.now bits router.now) }
{
    let (near, far) = address.split_at((usize::from(bits) + 7) / 8);
    let mut route = Vec::from_slice(alloc, near)?;
    route.extend_from_slice(router)?;
    if !are_zeros(far) || !is_whole_route(bits, &route) {
        return Ok(None);
    }
    route.insert(0, bits)?;
    Ok(Some(Bytes::own(route)))
}

// Whether bytes are all zeros.
fn are_zeros(bytes: &[u8]) -> bool
    ensures { result ≡ list_all (λ b. b == 0) bytes.now }
{
    for b in bytes {
        if *b != 0 {
            return false;
        }
    }
    true
}
