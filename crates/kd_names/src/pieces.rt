ghost use Rattle.std.specs.Prelude.{◌≡◌, ℕ, ◌==◌, ◌-◌, ◌*◌, ◌≤◌, ◌<◌, ◌∷◌, ◌++◌, [], false, codes, drop, if◌then◌else◌, length, IsTrue, List, MatchOption, OnOk, string_bytes, take};
ghost use Rattle.std.specs.List.{flat_map, list_all};
ghost use Rattle.kd_names.specs.Pieces.{are_names, are_routes, bytes_of_bits, go_on_as_names, is_clear, is_end, is_label, is_label_byte};
ghost use Rattle.kd_names.specs.Pieces.{is_route, labels_of, routes_of};
ghost use Rattle.kd_names.specs.Values.{comma, comma_before, dotted_text, names_text, prefix_address, route_text, routes_text, sign_text};

use crate::number::put_addresses;
use crate::text::put_signs;
use std::alloc::{AllocError, Global};
use std::fmt::Write;

// The most bytes of a label, and of a name with its last zero (RFC 1035 section 2.3.4).
const LABEL_BYTES: u8 = 63;

const NAME_BYTES: usize = 255;

// How many bytes an address has.
const ADDRESS_BYTES: usize = 4;

// Whether a value is one or more domain names.
pub(crate) fn has_names(value: &[u8]) -> bool
    ensures { result ≡ are_names value.now }
{
    let mut left = value;
    let mut size = 0;
    while let [first, rest @ ..] = left {
        let (label, behind) = split_up_to(rest, usize::from(*first));
        let Some(next) = size_with(size, *first, label) else {
            return false;
        };
        size = next;
        left = behind;
    }
    size == 0 && !value.is_empty()
}

// Returns how many bytes a name has with one more label, or 0 if it ends with it. There is none if
// this label cannot follow. It is given as its length and its bytes.
fn size_with(size: usize, first: u8, label: &[u8]) -> Option<usize>
    requires { size ≤ 255 }
    ensures { (labels : List (List ℕ)) → MatchOption result
        (go_on_as_names size ((first ∷ label.now) ∷ labels) ≡ false)
        (λ next. (next ≤ 255) × (go_on_as_names size ((first ∷ label.now) ∷ labels)
        ≡ go_on_as_names next labels)) }
{
    if first == 0 {
        return if size > 0 { Some(0) } else { None };
    }
    let next = size + 1 + label.len();
    if is_whole_label(first, label) && next < NAME_BYTES {
        Some(next)
    } else {
        None
    }
}

// Whether a label has the length that is before it.
fn is_whole_label(first: u8, label: &[u8]) -> bool
    ensures { result ≡ is_label (first ∷ label.now) }
{
    first > 0 && first <= LABEL_BYTES && label.len() == usize::from(first) && has_label_bytes(label)
}

/// Whether a text is a label of a domain name: 1 to 63 bytes (RFC 1035 section 2.3.4), printable
/// ones other than space, quotation mark, comma, dot and backslash.
pub fn is_name_label(text: &[u8]) -> bool
    ensures label { result ≡ is_label (length text.now ∷ text.now) }
    ensures short { IsTrue result → length text.now ≤ 63 }
{
    if text.is_empty() || text.len() > usize::from(LABEL_BYTES) {
        return false;
    }
    has_label_bytes(text)
}

// Whether a label may have each of these bytes.
fn has_label_bytes(label: &[u8]) -> bool
    ensures { result ≡ list_all is_label_byte label.now }
{
    for b in label {
        if !fits_label(*b) {
            return false;
        }
    }
    true
}

// Whether a label may have a byte: a printable one but for space, quotation mark, comma, dot and
// backslash.
fn fits_label(b: u8) -> bool
    ensures { result ≡ is_label_byte b }
{
    b' ' < b && b < 127 && !(b == b'"' || b == b',' || b == b'.' || b == b'\\')
}

// Appends the labels of names, with a dot behind each and a comma between names.
pub(crate) fn put_names(alloc: Global, out: &mut String, value: &[u8]) -> Result<(), AllocError>
    ensures { OnOk result
        (string_bytes out.new ≡ string_bytes out.old ++ names_text (labels_of value.now)) }
{
    let mut left = value;
    while let [first, rest @ ..] = left {
        let (label, behind) = split_up_to(rest, usize::from(*first));
        put_label(alloc, out, *first, label, behind)?;
        left = behind;
    }
    Ok(())
}

// Appends a label and a dot, or a comma between names.
fn put_label(
    alloc: Global,
    out: &mut String,
    first: u8,
    label: &[u8],
    behind: &[u8],
) -> Result<(), AllocError>
    ensures { OnOk result (string_bytes out.new ≡ string_bytes out.old
        ++ (if is_end (first ∷ label.now) then comma_before (labels_of behind.now)
        else flat_map sign_text label.now ++ codes ".")) }
{
    if first == 0 {
        return put_comma_before(out, behind);
    }
    put_signs(alloc, out, label)?;
    out.push_str(".")
}

// Appends a comma and a space, if there are bytes behind them.
fn put_comma_before(out: &mut String, behind: &[u8]) -> Result<(), AllocError>
    ensures { OnOk result (string_bytes out.new
        ≡ string_bytes out.old ++ (if length behind.now == 0 then [] else comma)) }
{
    if behind.is_empty() {
        return Ok(());
    }
    out.push_str(", ")
}

// Whether a value is one or more classless routes (RFC 3442).
pub(crate) fn has_routes(value: &[u8]) -> bool
    ensures { result ≡ are_routes value.now }
{
    let mut left = value;
    while let [bits, rest @ ..] = left {
        let (route, behind) = split_up_to(rest, reach_of(*bits) + ADDRESS_BYTES);
        if !is_whole_route(*bits, route) {
            return false;
        }
        left = behind;
    }
    !value.is_empty()
}

/// Whether a prefix of this many bits and what follows its length are a classless route (RFC
/// 3442): the bytes that the prefix reaches, with no bit set behind it, and the four bytes of a
/// router.
pub fn is_whole_route(bits: u8, route: &[u8]) -> bool
    ensures { result ≡ is_route (bits ∷ route.now) }
{
    let reach = reach_of(bits);
    bits <= 32
        && route.len() == reach + ADDRESS_BYTES
        && ends_clear(bits, split_up_to(route, reach).0)
}

// Whether no bit of the last byte of a prefix is set that its length does not reach.
fn ends_clear(bits: u8, bytes: &[u8]) -> bool
    requires whole { bits ≤ 8 * length bytes.now }
    requires last { 8 * length bytes.now - bits < 8 }
    ensures { result ≡ is_clear bits bytes.now }
{
    match bytes {
        [.., last] => u32::from(*last) % (1 << (8 * bytes.len() - usize::from(bits))) == 0,
        [] => true,
    }
}

// Returns how many bytes of an address the first bits reach.
fn reach_of(bits: u8) -> usize
    ensures { result ≡ bytes_of_bits bits }
{
    (usize::from(bits) + 7) / 8
}

// Appends classless routes, with commas between them.
pub(crate) fn put_routes(out: &mut String, value: &[u8]) -> Result<(), AllocError>
    ensures { OnOk result
        (string_bytes out.new ≡ string_bytes out.old ++ routes_text (routes_of value.now)) }
{
    let mut left = value;
    while let [bits, rest @ ..] = left {
        let (route, behind) = split_up_to(rest, reach_of(*bits) + ADDRESS_BYTES);
        put_route(out, *bits, route)?;
        put_comma_before(out, behind)?;
        left = behind;
    }
    Ok(())
}

// Appends a route: the prefix, a dash, the router.
fn put_route(out: &mut String, bits: u8, route: &[u8]) -> Result<(), AllocError>
    ensures { OnOk result (string_bytes out.new
        ≡ string_bytes out.old ++ route_text (bits ∷ route.now)) }
{
    let (prefix, router) = split_up_to(route, reach_of(bits));
    put_prefix(out, prefix)?;
    write!(out, "/{bits} - ")?;
    put_addresses(out, router)
}

// Appends the address of a prefix, given the bytes that it reaches.
fn put_prefix(out: &mut String, bytes: &[u8]) -> Result<(), AllocError>
    ensures { OnOk result
        (string_bytes out.new ≡ string_bytes out.old ++ prefix_address bytes.now) }
{
    match bytes {
        [] => put_dotted(out, 0, 0, 0, 0),
        [a] => put_dotted(out, *a, 0, 0, 0),
        [a, b] => put_dotted(out, *a, *b, 0, 0),
        [a, b, c] => put_dotted(out, *a, *b, *c, 0),
        [a, b, c, d, ..] => put_dotted(out, *a, *b, *c, *d),
    }
}

// Appends an address, given its four bytes.
fn put_dotted(out: &mut String, a: u8, b: u8, c: u8, d: u8) -> Result<(), AllocError>
    ensures { OnOk result (string_bytes out.new ≡ string_bytes out.old ++ dotted_text a b c d) }
{
    write!(out, "{a}.{b}.{c}.{d}")
}

// Splits bytes behind as many as a count says, or behind all if they are fewer.
fn split_up_to(bytes: &[u8], count: usize) -> (&[u8], &[u8])
    ensures front { result.0.now ≡ take count bytes.now }
    ensures behind { result.1.now ≡ drop count bytes.now }
    ensures shorter { length result.1.now ≤ length bytes.now }
{
    bytes.split_at(count.min(bytes.len()))
}
