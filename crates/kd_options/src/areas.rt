ghost use Rattle.std.specs.Prelude.{◌≡◌, ◌≤◌, List, length, IfOk, IfErr, OnOk, MatchResult, option_copied};
ghost use Rattle.kd_wire.specs.Area.{Piece};
ghost use Rattle.kd_options.specs.Areas.{IsAreaFault, IsFirstAreaFault};
ghost use Rattle.kd_options.specs.Joined.{HasOptions, IsAreaIf, options_field, uses_file, uses_sname};
ghost use Rattle.kd_options.specs.Joining.{JoinsPieces, JoinsArea, entries_of};
ghost use Rattle.kd_options.specs.declared.fault.AreaFault.TheVariants.{Memory};

use crate::codes::OPTION_OVERLOAD;
use crate::fault::AreaFault;
use crate::joining::{Value, join, value_in};
use indexmap::IndexMap;
use kd_wire::{Pieces, pieces};
use std::alloc::{AllocError, Global};

// Room for as many options as a client usually sends, so that the table seldom grows.
const USUAL_OPTIONS: usize = 14;

// Returns the options of a datagram, joined over all areas that its option 52 puts to use.
pub(crate) fn options_in<'a>(
    alloc: Global,
    bytes: &'a [u8],
) -> Result<IndexMap<u8, Value<'a>>, AreaFault>
    requires room { 240 ≤ length bytes.now }
    requires limit { length bytes.now ≤ 4096 }
    ensures found { IfOk result (λ options. HasOptions bytes.now (entries_of options.entries)) }
    ensures fault { IfErr result (λ fault. IsFirstAreaFault fault bytes.now) }
    ensures only { (options : List Piece) → HasOptions bytes.now options → MatchResult result
        (λ found. entries_of found.entries ≡ options) (λ fault. fault ≡ Memory) }
{
    let mut options = IndexMap::with_capacity(alloc, USUAL_OPTIONS)?;
    add_area(alloc, &mut options, true, field_of(bytes), 240)?;
    let (file, sname) = overload_of(value_in(&options, OPTION_OVERLOAD));
    add_area(alloc, &mut options, file, &bytes[108..236], 108)?;
    add_area(alloc, &mut options, sname, &bytes[44..108], 44)?;
    Ok(options)
}

// Returns the options field.
fn field_of(bytes: &[u8]) -> &[u8]
    requires { 240 ≤ length bytes.now }
    ensures { result.now ≡ options_field bytes.now }
{
    let (_, field) = bytes.split_at(240);
    field
}

// Whether option 52 puts options into `file`, and whether into `sname` (RFC 2132 section 9.3).
fn overload_of(value: Option<&[u8]>) -> (bool, bool)
    ensures file { result.0 ≡ uses_file (option_copied value.entry) }
    ensures sname { result.1 ≡ uses_sname (option_copied value.entry) }
{
    match value {
        Some([1]) => (true, false),
        Some([2]) => (false, true),
        Some([3]) => (true, true),
        _ => (false, false),
    }
}

// Joins the pieces of an area that begins at offset `start` to the options, if the area is in use.
fn add_area<'a>(
    alloc: Global,
    options: &mut IndexMap<u8, Value<'a>>,
    used: bool,
    area: &'a [u8],
    start: usize,
) -> Result<(), AreaFault>
    requires begin { start ≤ 240 }
    requires limit { length area.now ≤ 4096 }
    ensures found { OnOk result
        (JoinsArea used area.now (entries_of options.old.entries)
        (entries_of options.new.entries)) }
    ensures fault { IfErr result (IsAreaFault used area.now start) }
    ensures only { (list : List Piece) → IsAreaIf used area.now list → MatchResult result
        (λ _. JoinsPieces list (entries_of options.old.entries) (entries_of options.new.entries))
        (λ fault. fault ≡ Memory) }
{
    if !used {
        return Ok(());
    }
    let list = match pieces(area) {
        Ok(list) => list,
        Err(cut) => return Err(AreaFault::Cut(start + cut.at)),
    };
    add_pieces(alloc, options, list)?;
    Ok(())
}

// Joins the remaining pieces to the options.
fn add_pieces<'a>(
    alloc: Global,
    options: &mut IndexMap<u8, Value<'a>>,
    list: Pieces<'a>,
) -> Result<(), AllocError>
    ensures { OnOk result
        (JoinsPieces list.entry (entries_of options.old.entries) (entries_of options.new.entries)) }
{
    for (code, piece) in list {
        join(alloc, options, code, piece)?;
    }
    Ok(())
}
