ghost use Rattle.std.specs.Prelude.{◌≡◌, ◌<◌, ◌++◌, IfOk, drop, length, map, nat_eq};
ghost use Rattle.std.specs.List.{starts_with};
ghost use Rattle.std.specs.Map.{lookup};
ghost use Rattle.std.specs.Option.{option_copied};
ghost use Rattle.kd_kea.specs.OptionText.{bytes_or_none, form_of, forms_for, test_by_bytes, in_bytes_at, in_bytes_from, pending_at, quoted_behind, text_options};

use kd_wire::Bytes;
use std::alloc::{AllocError, Global};

// How a test asks for the text of an option, and for its bytes, in as many characters.
type Form = (&'static [u8], &'static [u8]);

// The forms for the options whose type is a text.
const FORMS: &[Form] = &[
    (b"option[12].text", b"option[12].hex "),
    (b"option[14].text", b"option[14].hex "),
    (b"option[15].text", b"option[15].hex "),
    (b"option[17].text", b"option[17].hex "),
    (b"option[18].text", b"option[18].hex "),
    (b"option[40].text", b"option[40].hex "),
    (b"option[47].text", b"option[47].hex "),
    (b"option[56].text", b"option[56].hex "),
    (b"option[60].text", b"option[60].hex "),
    (b"option[62].text", b"option[62].hex "),
    (b"option[64].text", b"option[64].hex "),
    (b"option[66].text", b"option[66].hex "),
    (b"option[67].text", b"option[67].hex "),
    (b"option[86].text", b"option[86].hex "),
    (b"option[87].text", b"option[87].hex "),
    (b"option[98].text", b"option[98].hex "),
    (b"option[100].text", b"option[100].hex "),
    (b"option[101].text", b"option[101].hex "),
    (b"option[113].text", b"option[113].hex "),
    (b"option[114].text", b"option[114].hex "),
    (b"option[host-name].text", b"option[host-name].hex "),
    (b"option[domain-name].text", b"option[domain-name].hex "),
    (
        b"option[vendor-class-identifier].text",
        b"option[vendor-class-identifier].hex ",
    ),
];

// Returns a test that asks for the bytes of options in place of their texts (Kea Administrator Reference
// Manual, Using Expressions in Classification). Each character keeps its place.
pub(crate) fn asked_in_bytes(alloc: Global, text: &[u8]) -> Result<Bytes, AllocError>
    ensures { IfOk result (λ it. it ≡ test_by_bytes text.now) }
{
    let mut out = Vec::with_capacity(alloc, text.len())?;
    let mut scan = Scan {
        quoted: false,
        pending: &[],
    };
    let mut rest = text;
    while let [_, others @ ..] = rest {
        scan = push_next(&mut out, scan, rest)?;
        rest = others;
    }
    Ok(Bytes::own(out))
}

// Where in a text a place is: inside quotation marks or not, and what is to be put in place from there on.
#[derive(Clone, Copy)]
struct Scan {
    quoted: bool,
    pending: &'static [u8],
}

// Appends what stands for the first character of a text.
fn push_next(out: &mut Vec<u8>, scan: Scan, text: &[u8]) -> Result<Scan, AllocError>
    requires { 0 < length text.now }
    ensures { IfOk result (λ next. out.new.items
        ++ in_bytes_from next.quoted next.pending.now (drop 1 text.now)
        ≡ out.old.items ++ in_bytes_from scan.quoted scan.pending.now text.now) }
{
    match scan.pending {
        [first, pending @ ..] => {
            out.push(*first)?;
            Ok(Scan {
                quoted: scan.quoted,
                pending,
            })
        }
        [] => {
            let first = text[0];
            out.push(first)?;
            Ok(Scan {
                quoted: is_quoted_behind(scan.quoted, first),
                pending: pending_in(scan.quoted, text),
            })
        }
    }
}

// Reports whether what is behind a character is inside quotation marks.
fn is_quoted_behind(quoted: bool, character: u8) -> bool
    ensures { result ≡ quoted_behind quoted character }
{
    if character == b'\'' { !quoted } else { quoted }
}

// Returns what is to be put in place behind the first character of a text.
fn pending_in(quoted: bool, text: &[u8]) -> &'static [u8]
    ensures { result.now ≡ pending_at quoted text.now }
{
    if quoted { &[] } else { pending_outside(text) }
}

// Returns the same outside of quotation marks.
fn pending_outside(text: &[u8]) -> &'static [u8]
    ensures { result.now ≡ drop 1 (in_bytes_at text.now) }
{
    behind_first(form_in_bytes(text))
}

// Returns what stands for the beginning of a text that asks for the text of an option, if it does.
fn form_in_bytes(text: &[u8]) -> Option<&'static [u8]>
    ensures { option_copied result
        ≡ lookup (starts_with nat_eq text.now) (map forms_for text_options) }
{
    form_among(FORMS, text)
}

// Returns what is behind the first byte of some, if there are any.
fn behind_first(bytes: Option<&'static [u8]>) -> &'static [u8]
    ensures { result.now ≡ drop 1 (bytes_or_none (option_copied bytes.entry)) }
{
    match bytes {
        Some([_, rest @ ..]) => rest,
        _ => &[],
    }
}

// Returns what stands for the beginning of a text that asks in one of these forms, if it does.
fn form_among(forms: &[Form], text: &[u8]) -> Option<&'static [u8]>
    ensures { option_copied result ≡ lookup (starts_with nat_eq text.now) (map form_of forms.now) }
{
    for (asked, given) in forms {
        if text.starts_with(asked) {
            return Some(given);
        }
    }
    None
}
